//! Calls that no command makes, each once with memory enough. Where there is none the test ends at once.

use bounds::numbers;
use bounds::projection::with_lets;
use expr::read_expr;
use lin::{Binding, Lin, Scope, Span1};
use orders::{ListFault, first_fault};
use plan::Kind;
use std::alloc::{AllocError, Global};
use std::process::Abort;
use std::test::Fail;
use tails::descent::Step;
use tails::maps::SplitMap;

// The numbers from one to another.
fn span(rt: &impl Abort, alloc: Global, low: i64, high: i64) -> Span1 {
    match numbers(alloc, low, high) {
        Ok(span) => span,
        Err(_) => panic!(rt; "no memory"),
    }
}

// A scope of one loop.
fn one_loop(rt: &impl Abort, alloc: Global, turns: Span1) -> Scope {
    let mut scope = Scope::new(alloc);
    match scope.push(Binding::Loop(turns)) {
        Ok(()) => scope,
        Err(_) => panic!(rt; "no memory"),
    }
}

#[test]
fn an_expression_is_read(rt: HostRuntime) -> Result<(), Fail> {
    assert!(rt; read_expr(rt.alloc(), "clamp(y - 1, 0, 7)").is_ok());
    Ok(())
}

#[test]
fn spans_stand_beside_each_other(rt: HostRuntime) -> Result<(), Fail> {
    let first = span(&rt, rt.alloc(), 0, 3);
    let next = span(&rt, rt.alloc(), 4, 9);
    let beside = Scope::new(rt.alloc()).adjacent(rt.alloc(), &first, &next);
    assert!(rt; matches!(beside, Ok(true)));
    Ok(())
}

#[test]
fn a_loop_has_no_lets(rt: HostRuntime) -> Result<(), Fail> {
    let scope = one_loop(&rt, rt.alloc(), span(&rt, rt.alloc(), 0, 3));
    match with_lets(rt.alloc(), &scope, &[0]) {
        Ok(inner) => assert_eq!(rt; inner.as_slice(), [0].as_slice()),
        Err(_) => panic!(rt; "no memory"),
    }
    Ok(())
}

// A loop of these turns, and a coordinate that is this form.
fn map_of<'a>(alloc: Global, turns: &'a Span1, form: &'a Lin) -> Result<SplitMap<'a>, AllocError> {
    let mut steps = Vec::new(alloc);
    steps.push(Step::Turns {
        symbol: 0,
        span: turns,
        kind: Kind::Serial,
    })?;
    Ok(SplitMap {
        steps,
        forms: [form].to_vec(alloc)?,
    })
}

// Whether the points of these turns rise.
fn rise(alloc: Global, turns: &Span1, form: &Lin) -> Result<bool, AllocError> {
    map_of(alloc, turns, form)?.ordered(alloc)
}

#[test]
fn points_rise_with_the_turns(rt: HostRuntime) -> Result<(), Fail> {
    let turns = span(&rt, rt.alloc(), 0, 3);
    let Ok(form) = Lin::symbol(rt.alloc(), 0) else {
        panic!(rt; "no memory");
    };
    assert!(rt; matches!(rise(rt.alloc(), &turns, &form), Ok(true)));
    Ok(())
}

#[test]
fn a_cell_that_no_piece_owns_is_a_gap(rt: HostRuntime) -> Result<(), Fail> {
    let fault = first_fault(rt.alloc(), 1, &[]);
    assert!(rt; matches!(fault, Ok(Some(ListFault::Gap(0)))));
    Ok(())
}
