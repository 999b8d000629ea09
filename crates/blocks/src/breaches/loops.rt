//! Loops by their names.

use crate::breaches::spots::is_same;
use sched::{Loop, Placed, Placement, Split, Subject};
use tree::token::Name;

pub(crate) fn is_among(names: &[Name], name: &Name) -> bool {
    for other in names {
        if is_same(other, name) {
            return true;
        }
    }
    false
}

pub(crate) fn loop_named<'a>(loops: &'a [Loop], name: &Name) -> Option<&'a Loop> {
    for one in loops {
        if is_same(&one.name, name) {
            return Some(one);
        }
    }
    None
}

/// The loops outside of that of this name, the innermost first.
pub(crate) fn outside_of<'a>(loops: &'a [Loop], name: &Name) -> &'a [Loop] {
    for (index, one) in loops.iter().enumerate() {
        if is_same(&one.name, name) {
            return match loops.get(index.saturating_add(1)..) {
                Some(outside) => outside,
                None => &[],
            };
        }
    }
    &[]
}

/// The innermost loop that is parallel.
pub(crate) fn first_parallel(loops: &[Loop]) -> Option<&Loop> {
    for one in loops {
        if one.is_parallel() {
            return Some(one);
        }
    }
    None
}

/// The innermost loop that is not parallel.
pub(crate) fn first_serial(loops: &[Loop]) -> Option<&Loop> {
    for one in loops {
        if !one.is_parallel() {
            return Some(one);
        }
    }
    None
}

/// The innermost loop that is vectorised.
pub(crate) fn first_vector(loops: &[Loop]) -> Option<&Loop> {
    for one in loops {
        if one.is_vectorized() {
            return Some(one);
        }
    }
    None
}

/// The split of the loop of this name.
pub(crate) fn cut_of<'a>(cuts: &'a [Split], name: &Name) -> Option<&'a Split> {
    for cut in cuts {
        if is_same(&cut.whole, name) {
            return Some(cut);
        }
    }
    None
}

/// The number of the function of this name.
fn subject_number(subjects: &[Subject], name: &Name) -> Option<usize> {
    for (number, subject) in subjects.iter().enumerate() {
        if is_same(&subject.name, name) {
            return Some(number);
        }
    }
    None
}

/// The function of this name.
pub(crate) fn subject_named<'a>(placement: &'a Placement, name: &Name) -> Option<&'a Subject> {
    let number = subject_number(&placement.subjects, name)?;
    placement.subjects.get(number)
}

/// What directives made of the function of this name.
pub(crate) fn placed_named<'a>(placement: &'a Placement, name: &Name) -> Option<&'a Placed> {
    let number = subject_number(&placement.subjects, name)?;
    placement.functions.get(number)
}
