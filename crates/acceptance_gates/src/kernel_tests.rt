//! Every kernel at each length from 0 to 130, on numbers at both ends of its type, beside `numeric`'s operator at each place. What the
//! kernels' text means is proved; this shows what the compiler makes of their vectors, and that no place behind the last is written.

ghost use Rattle.std.specs.Prelude.{◌≡◌, ◌≤◌, length};
ghost use Rattle.lanes.specs.Masks.Places.{AreWithin};

use crate::conversions::Casts;
use crate::kernels::Kernels;
use lanes::masks;
use numeric::{Comparison, Op, apply, compare, negate, wrap};
use std::process::Abort;

// A place more than the longest slices have: four vectors of 32 bytes, and a rest.
const ROOM: usize = 131;

const OPS: [Op; 7] = [
    Op::Add,
    Op::Sub,
    Op::Mul,
    Op::Div,
    Op::Rem,
    Op::Min,
    Op::Max,
];

const COMPARISONS: [Comparison; 6] = [
    Comparison::Less,
    Comparison::AtMost,
    Comparison::Greater,
    Comparison::AtLeast,
    Comparison::Equal,
    Comparison::Different,
];

// Puts the type's numbers, each so many times in turn: of two lists, of which one has each once in turn and the other each eleven times,
// any two numbers stand at one place.
fn put_numbers<T: Kernels>(list: &mut [T], times: usize)
    requires { 1 ≤ times }
{
    for i in 0..list.len() {
        list[i] = T::nth(i / times);
    }
}

// Puts the least number at each place, which is to stand where nothing is written.
fn clear<T: Kernels>(list: &mut [T]) {
    for i in 0..list.len() {
        list[i] = T::nth(0);
    }
}

// Answers, each so many times in turn.
fn answers(times: usize) -> [bool; ROOM]
    requires { 1 ≤ times }
{
    let mut list = [false; ROOM];
    for i in 0..ROOM {
        list[i] = (i / times) % 2 == 1;
    }
    list
}

// Puts places below 131, in no order.
fn put_places(list: &mut [u32])
    ensures { AreWithin list.new 131 }
{
    for i in 0..list.len() {
        list[i] = ((i % ROOM * 7 + 130) % ROOM) as u32;
    }
}

// The operator of two values as `numeric` has it.
fn applied<T: Kernels>(op: Op, a: T, b: T) -> i64 {
    let ty = T::TYPE;
    apply(op, ty, wrap(ty, a.number()), wrap(ty, b.number()))
}

// The negation of a value as `numeric` has it.
fn negated<T: Kernels>(a: T) -> i64 {
    let ty = T::TYPE;
    negate(ty, wrap(ty, a.number()))
}

// ---- at one length

fn operates<T: Kernels>(rt: &impl Abort, op: Op, a: &[T], b: &[T], out: &mut [T])
    requires left { length a.now ≡ length out.old }
    requires right { length b.now ≡ length out.old }
{
    T::operate(op, a, b, out);
    for i in 0..out.len() {
        assert_eq!(rt; out[i].number(), applied(op, a[i], b[i]));
    }
}

fn negates<T: Kernels>(rt: &impl Abort, a: &[T], out: &mut [T])
    requires { length a.now ≡ length out.old }
{
    T::negate(a, out);
    for i in 0..out.len() {
        assert_eq!(rt; out[i].number(), negated(a[i]));
    }
}

fn compares<T: Kernels>(rt: &impl Abort, comparison: Comparison, a: &[T], b: &[T], out: &mut [bool])
    requires left { length a.now ≡ length out.old }
    requires right { length b.now ≡ length out.old }
{
    T::compare(comparison, a, b, out);
    for i in 0..out.len() {
        assert_eq!(rt; out[i], compare(comparison, a[i].number(), b[i].number()));
    }
}

fn chooses<T: Kernels>(rt: &impl Abort, mask: &[bool], a: &[T], b: &[T], out: &mut [T])
    requires tests { length mask.now ≡ length out.old }
    requires left { length a.now ≡ length out.old }
    requires right { length b.now ≡ length out.old }
{
    T::choose(mask, a, b, out);
    for i in 0..out.len() {
        let chosen = if mask[i] { a[i] } else { b[i] };
        assert_eq!(rt; out[i].number(), chosen.number());
    }
}

fn gathers<T: Kernels>(rt: &impl Abort, source: &[T], at: &[u32], out: &mut [T])
    requires long { length at.now ≡ length out.old }
    requires inside { AreWithin at.now (length source.now) }
{
    T::gather(source, at, out);
    for i in 0..out.len() {
        assert_eq!(rt; out[i].number(), source[at[i] as usize].number());
    }
}

fn converts<T: Casts<U>, U: Kernels>(rt: &impl Abort, from: &[T], out: &mut [U])
    requires { length from.now ≡ length out.old }
{
    T::cast(from, out);
    for i in 0..out.len() {
        assert_eq!(rt; out[i].number(), wrap(U::TYPE, from[i].number()));
    }
}

fn connects(
    rt: &impl Abort,
    a: &[bool],
    b: &[bool],
    both: &mut [bool],
    either: &mut [bool],
    turned: &mut [bool],
)
    requires left { length b.now ≡ length a.now }
    requires both { length both.old ≡ length a.now }
    requires either { length either.old ≡ length a.now }
    requires turned { length turned.old ≡ length a.now }
{
    masks::and(a, b, both);
    masks::or(a, b, either);
    masks::not(a, turned);
    for i in 0..a.len() {
        assert_eq!(rt; both[i], a[i] & b[i]);
        assert_eq!(rt; either[i], a[i] | b[i]);
        assert_eq!(rt; turned[i], a[i] ^ true);
    }
}

// ---- at each length below that of what is given

fn all_operate<T: Kernels>(rt: &impl Abort, op: Op, a: &[T], b: &[T], out: &mut [T])
    requires left { length a.now ≡ length out.old }
    requires right { length b.now ≡ length out.old }
{
    clear(out);
    for n in 0..out.len() {
        operates(rt, op, &a[..n], &b[..n], &mut out[..n]);
        assert_eq!(rt; out[n].number(), T::TYPE.least());
    }
}

fn all_negate<T: Kernels>(rt: &impl Abort, a: &[T], out: &mut [T])
    requires { length a.now ≡ length out.old }
{
    clear(out);
    for n in 0..out.len() {
        negates(rt, &a[..n], &mut out[..n]);
        assert_eq!(rt; out[n].number(), T::TYPE.least());
    }
}

fn all_compare<T: Kernels>(rt: &impl Abort, comparison: Comparison, a: &[T], b: &[T])
    requires left { length a.now ≡ 131 }
    requires right { length b.now ≡ 131 }
{
    let mut out = [false; ROOM];
    for n in 0..ROOM {
        compares(rt, comparison, &a[..n], &b[..n], &mut out[..n]);
        assert!(rt; !out[n]);
    }
}

fn all_choose<T: Kernels>(rt: &impl Abort, a: &[T], b: &[T], out: &mut [T])
    requires room { length out.old ≡ 131 }
    requires left { length a.now ≡ 131 }
    requires right { length b.now ≡ 131 }
{
    clear(out);
    let mask = answers(2);
    for n in 0..ROOM {
        chooses(rt, &mask[..n], &a[..n], &b[..n], &mut out[..n]);
        assert_eq!(rt; out[n].number(), T::TYPE.least());
    }
}

fn all_gather<T: Kernels>(rt: &impl Abort, source: &[T], at: &[u32], out: &mut [T])
    requires long { length at.now ≡ length out.old }
    requires inside { AreWithin at.now (length source.now) }
{
    clear(out);
    for n in 0..out.len() {
        gathers(rt, source, &at[..n], &mut out[..n]);
        assert_eq!(rt; out[n].number(), T::TYPE.least());
    }
}

fn all_convert<T: Casts<U>, U: Kernels>(rt: &impl Abort, from: &[T], out: &mut [U])
    requires { length from.now ≡ length out.old }
{
    clear(out);
    for n in 0..out.len() {
        converts(rt, &from[..n], &mut out[..n]);
        assert_eq!(rt; out[n].number(), U::TYPE.least());
    }
}

// ---- each kernel of a type

fn kernels_agree<T: Kernels>(rt: &impl Abort, a: &mut [T], b: &mut [T], out: &mut [T])
    requires left { length a.old ≡ 131 }
    requires right { length b.old ≡ 131 }
    requires room { length out.old ≡ 131 }
{
    put_numbers(a, 1);
    put_numbers(b, 11);
    for op in OPS {
        all_operate(rt, op, a, b, out);
    }
    for comparison in COMPARISONS {
        all_compare(rt, comparison, a, b);
    }
    all_negate(rt, a, out);
    all_choose(rt, a, b, out);
    let mut at = [0; ROOM];
    put_places(&mut at);
    all_gather(rt, a, &at, out);
}

#[test]
fn connectives_agree(rt: HostRuntime) {
    let (a, b) = (answers(1), answers(2));
    let (mut both, mut either, mut turned) = ([false; ROOM], [false; ROOM], [false; ROOM]);
    for n in 0..ROOM {
        connects(
            &rt,
            &a[..n],
            &b[..n],
            &mut both[..n],
            &mut either[..n],
            &mut turned[..n],
        );
        assert!(rt; !both[n] && !either[n] && !turned[n]);
    }
}

// Worked by hand.
#[test]
fn sums_wrap(rt: HostRuntime) {
    let mut out = [0; 35];
    lanes::add_u8(&[200; 35], &[100; 35], &mut out);
    assert_eq!(rt; out.as_slice(), [44; 35].as_slice());
}

// Worked by hand: the remainder is never negative.
#[test]
fn quotients_are_euclids(rt: HostRuntime) {
    let mut out = [1; 5];
    lanes::div_i32(&[-7, 7, -7, 5, i32::MIN], &[2, -2, -2, 0, -1], &mut out);
    assert_eq!(rt; out.as_slice(), [-4, -3, 4, 0, i32::MIN].as_slice());
}

#[test]
fn kernels_of_u8_agree(rt: HostRuntime) {
    kernels_agree::<u8>(&rt, &mut [0; ROOM], &mut [0; ROOM], &mut [0; ROOM]);
}

#[test]
fn kernels_of_u16_agree(rt: HostRuntime) {
    kernels_agree::<u16>(&rt, &mut [0; ROOM], &mut [0; ROOM], &mut [0; ROOM]);
}

#[test]
fn kernels_of_u32_agree(rt: HostRuntime) {
    kernels_agree::<u32>(&rt, &mut [0; ROOM], &mut [0; ROOM], &mut [0; ROOM]);
}

#[test]
fn kernels_of_i8_agree(rt: HostRuntime) {
    kernels_agree::<i8>(&rt, &mut [0; ROOM], &mut [0; ROOM], &mut [0; ROOM]);
}

#[test]
fn kernels_of_i16_agree(rt: HostRuntime) {
    kernels_agree::<i16>(&rt, &mut [0; ROOM], &mut [0; ROOM], &mut [0; ROOM]);
}

#[test]
fn kernels_of_i32_agree(rt: HostRuntime) {
    kernels_agree::<i32>(&rt, &mut [0; ROOM], &mut [0; ROOM], &mut [0; ROOM]);
}

#[test]
fn casts_of_u8_agree(rt: HostRuntime) {
    let mut from = [0; ROOM];
    put_numbers(&mut from, 1);
    all_convert::<u8, u16>(&rt, &from, &mut [0; ROOM]);
    all_convert::<u8, u32>(&rt, &from, &mut [0; ROOM]);
    all_convert::<u8, i8>(&rt, &from, &mut [0; ROOM]);
    all_convert::<u8, i16>(&rt, &from, &mut [0; ROOM]);
    all_convert::<u8, i32>(&rt, &from, &mut [0; ROOM]);
}

#[test]
fn casts_of_u16_agree(rt: HostRuntime) {
    let mut from = [0; ROOM];
    put_numbers(&mut from, 1);
    all_convert::<u16, u8>(&rt, &from, &mut [0; ROOM]);
    all_convert::<u16, u32>(&rt, &from, &mut [0; ROOM]);
    all_convert::<u16, i8>(&rt, &from, &mut [0; ROOM]);
    all_convert::<u16, i16>(&rt, &from, &mut [0; ROOM]);
    all_convert::<u16, i32>(&rt, &from, &mut [0; ROOM]);
}

#[test]
fn casts_of_u32_agree(rt: HostRuntime) {
    let mut from = [0; ROOM];
    put_numbers(&mut from, 1);
    all_convert::<u32, u8>(&rt, &from, &mut [0; ROOM]);
    all_convert::<u32, u16>(&rt, &from, &mut [0; ROOM]);
    all_convert::<u32, i8>(&rt, &from, &mut [0; ROOM]);
    all_convert::<u32, i16>(&rt, &from, &mut [0; ROOM]);
    all_convert::<u32, i32>(&rt, &from, &mut [0; ROOM]);
}

#[test]
fn casts_of_i8_agree(rt: HostRuntime) {
    let mut from = [0; ROOM];
    put_numbers(&mut from, 1);
    all_convert::<i8, u8>(&rt, &from, &mut [0; ROOM]);
    all_convert::<i8, u16>(&rt, &from, &mut [0; ROOM]);
    all_convert::<i8, u32>(&rt, &from, &mut [0; ROOM]);
    all_convert::<i8, i16>(&rt, &from, &mut [0; ROOM]);
    all_convert::<i8, i32>(&rt, &from, &mut [0; ROOM]);
}

#[test]
fn casts_of_i16_agree(rt: HostRuntime) {
    let mut from = [0; ROOM];
    put_numbers(&mut from, 1);
    all_convert::<i16, u8>(&rt, &from, &mut [0; ROOM]);
    all_convert::<i16, u16>(&rt, &from, &mut [0; ROOM]);
    all_convert::<i16, u32>(&rt, &from, &mut [0; ROOM]);
    all_convert::<i16, i8>(&rt, &from, &mut [0; ROOM]);
    all_convert::<i16, i32>(&rt, &from, &mut [0; ROOM]);
}

#[test]
fn casts_of_i32_agree(rt: HostRuntime) {
    let mut from = [0; ROOM];
    put_numbers(&mut from, 1);
    all_convert::<i32, u8>(&rt, &from, &mut [0; ROOM]);
    all_convert::<i32, u16>(&rt, &from, &mut [0; ROOM]);
    all_convert::<i32, u32>(&rt, &from, &mut [0; ROOM]);
    all_convert::<i32, i8>(&rt, &from, &mut [0; ROOM]);
    all_convert::<i32, i16>(&rt, &from, &mut [0; ROOM]);
}
