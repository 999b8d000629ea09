//! Crews whose pieces are watched.

use crate::chain_tests::{chain, chain_plan};
use crate::example_tests::{Example, TRI, TRI_PICTURE, algo_of, checked_of, inputs_of, shows};
use crate::watching_tests::{Counting, InOrder, Meeting};
use algo::Inputs;
use checked_plan::Checked;
use crew::{Gate, run};
use std::alloc::Global;
use std::process::Abort;
use std::sync::Wait;
use std::test::Fail;
use std::thread::Threads;

// Whether so many workers, one to four, compute the picture of these samples.
fn compute<G: Gate, R: Threads + Wait + Sync>(
    rt: &R,
    alloc: Global,
    checked: &Checked<'_>,
    inputs: &Inputs,
    workers: usize,
    gate: &G,
    picture: &[u16],
) -> bool {
    if !inputs.is_for(checked.algo()) || workers < 1 || workers > 4 {
        return false;
    }
    match run(rt, alloc, checked, inputs, workers, gate) {
        Ok(image) => shows(&image, picture),
        Err(_) => false,
    }
}

// The same by the texts of an example.
fn give<G: Gate, R: Threads + Wait + Sync + Abort>(
    rt: &R,
    alloc: Global,
    example: &Example<'_>,
    workers: usize,
    gate: &G,
    picture: &[u16],
) -> bool {
    let algo = algo_of(rt, alloc, example.algorithm);
    let checked = checked_of(rt, alloc, &algo, example.plan);
    let inputs = inputs_of(rt, alloc, &algo, example.samples);
    compute(rt, alloc, &checked, &inputs, workers, gate, picture)
}

#[test]
fn two_workers_meet_at_a_gate(rt: HostRuntime) -> Result<(), Fail> {
    let gate = Meeting::new();
    assert!(rt; give(&rt, rt.alloc(), &TRI, 2, &gate, &TRI_PICTURE));
    assert!(rt; gate.was_held(3));
    Ok(())
}

#[test]
fn a_chain_is_heard_of_once_each(rt: HostRuntime) -> Result<(), Fail> {
    let algorithm = chain(rt.alloc())?;
    let plan = chain_plan(rt.alloc())?;
    let example = Example {
        algorithm: algorithm.as_str(),
        plan: plan.as_str(),
        samples: &[7],
    };
    let gate = Counting::new();
    assert!(rt; give(&rt, rt.alloc(), &example, 4, &gate, &[255]));
    assert!(rt; gate.is_each_once(40));
    Ok(())
}

#[test]
fn pieces_go_on_in_each_order(rt: HostRuntime) -> Result<(), Fail> {
    for order in [
        [0, 1, 2],
        [0, 2, 1],
        [1, 0, 2],
        [1, 2, 0],
        [2, 0, 1],
        [2, 1, 0],
    ] {
        let gate = InOrder::new(order);
        assert!(rt; give(&rt, rt.alloc(), &TRI, 3, &gate, &TRI_PICTURE));
        assert!(rt; gate.was_kept());
    }
    Ok(())
}
