//! What stands in the cells once one worker has finished all pieces.

use crate::example_tests::{INC, algo_of, checked_of, inputs_of, shows};
use algo::Inputs;
use checked_plan::Checked;
use std::alloc::Global;
use std::process::Abort;
use std::test::Fail;
use steps::{picture, replay};

const PICTURE: [u16; 20] = [
    65, 66, 67, 68, 69, 70, 71, 72, 73, 74, 75, 76, 77, 78, 79, 80, 81, 82, 83, 84,
];

// Whether the picture by one worker is this one.
fn is_picture(alloc: Global, checked: &Checked<'_>, inputs: &Inputs) -> bool {
    if !inputs.is_for(checked.algo()) {
        return false;
    }
    match picture(alloc, checked, inputs) {
        Ok(image) => shows(&image, &PICTURE),
        Err(_) => false,
    }
}

// Each cell holds its sample once one worker has done all steps.
fn assert_cells(rt: &impl Abort, alloc: Global, checked: &Checked<'_>, inputs: &Inputs) {
    assert!(rt; inputs.is_for(checked.algo()));
    let Ok(state) = replay(alloc, checked, inputs, &[0; 24]) else {
        panic!(rt; "no memory");
    };
    for cell in 0..20u32 {
        assert_eq!(rt; state.cell(cell), Some(65 + i64::from(cell)));
    }
}

#[test]
fn set_cells_are_the_picture(rt: HostRuntime) -> Result<(), Fail> {
    let algo = algo_of(&rt, rt.alloc(), INC.algorithm);
    let checked = checked_of(&rt, rt.alloc(), &algo, INC.plan);
    let inputs = inputs_of(&rt, rt.alloc(), &algo, INC.samples);
    assert!(rt; is_picture(rt.alloc(), &checked, &inputs));
    assert_cells(&rt, rt.alloc(), &checked, &inputs);
    Ok(())
}
