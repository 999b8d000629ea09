//! A chain of forty functions, f1(x) = in[x] and each later one twice the one before and 1, as text, and its plan.

use std::alloc::Global;
use std::fmt::{self, Write};
use std::test::Fail;

// Texts, each with a number behind it: so many times that of the turn, and so much more.
type Parts = &'static [(&'static str, u32, u32)];

// A function that calls the one before.
const FUNCTION: Parts = &[(" func f", 1, 2), (" u8 (x) = f", 1, 1), ("[x] + f", 1, 1)];

// Its group, of one piece.
const GROUP: Parts = &[
    ("group ", 1, 1),
    (" f", 1, 2),
    (" [0:0] grid 1\nalloc b0 f", 1, 2),
    (" [0#1]\nalloc b1 f", 1, 1),
    (" [0#1]\nfetch b1 ", 1, 0),
    (" [0:0]\nfor s1 0:0 serial\nstore b0 0 x=0+1*s1 ((@", 2, 1),
    ("[x]+@", 2, 1),
    ("[x])+1u8)\nend\npublish @", 2, 2),
];

// What its piece owns.
const OWN: Parts = &[("own ", 1, 1)];

// What its piece needs.
const NEED: Parts = &[("need ", 1, 1), (" ", 1, 0)];

// What its buffers hold, after the line that fetches and after the loop that stores.
const CLAIMS: Parts = &[
    ("claim ", 2, 1),
    (" ", 8, 13),
    (" b1 f", 1, 1),
    (" 0 [0:0]\nclaim ", 2, 2),
    (" ", 8, 16),
    (" b0 f", 1, 2),
];

// The texts of a turn, with their numbers, and what ends them.
fn put_turn(text: &mut String, parts: Parts, end: &str, turn: u32) -> fmt::Result {
    for (before, times, more) in parts {
        let number = times.wrapping_mul(turn).wrapping_add(*more);
        write!(text, "{before}{number}")?;
    }
    text.write_str(end)
}

// The same for each function that calls the one before.
fn put_each(text: &mut String, parts: Parts, end: &str) -> fmt::Result {
    for turn in 0..39u32 {
        put_turn(text, parts, end, turn)?;
    }
    Ok(())
}

fn put_chain(text: &mut String) -> fmt::Result {
    text.write_str("pipeline chain; input in u8 [1]; func f1 u8 (x) = in[x];")?;
    put_each(text, FUNCTION, "[x] + 1u8;")?;
    text.write_str(" output f40 [1];")
}

fn put_plan(text: &mut String) -> fmt::Result {
    text.write_str(
        "plan 1 chain
input in u8 [1]
output f40 u8 [1]
group 0 f1 [0:0] grid 1
alloc b0 f1 [0#1]
for s1 0:0 serial
store b0 0 x=0+1*s1 in[x]
end
publish @0
",
    )?;
    put_each(text, GROUP, "\n")?;
    text.write_str("cert\nown 0 [0:0]\n")?;
    put_each(text, OWN, " [0:0]\n")?;
    put_each(text, NEED, " [0:0]\n")?;
    text.write_str("claim 0 8 b0 f1 0 [0:0]\n")?;
    put_each(text, CLAIMS, " 0 [0:0]\n")?;
    text.write_str("end\n")
}

/// The chain, on one pixel.
pub(crate) fn chain(alloc: Global) -> Result<String, Fail> {
    let mut text = String::new(alloc);
    put_chain(&mut text)?;
    Ok(text)
}

/// Its plan, by which each function has a group of its own.
pub(crate) fn chain_plan(alloc: Global) -> Result<String, Fail> {
    let mut text = String::new(alloc);
    put_plan(&mut text)?;
    Ok(text)
}
