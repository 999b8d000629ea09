//! Lists of at most four forms that bound a value. None stands for a list with a form outside the limits.

ghost use Rattle.std.specs.List.{list_any};
ghost use Rattle.std.specs.Prelude.{◌≡◌, IfOk, OnOk, ℤ, pos, negsuc, fold, map, option_to_list, option_map, Some, None, [], ◌++◌, if◌then◌else◌};
ghost use Rattle.lin.specs.Forms.{Form, combined, same_form};
ghost use Rattle.lin.specs.Search.{smaller};
ghost use Rattle.bounds.specs.Lists.{checked, with_new, with_made, kept, all_combined, excess, distance, gap, moved, all_moved, union};

use lin::{Forms, Lin, LinError, Scope};
use std::alloc::{AllocError, Global};

/// The most forms of a list.
const MOST_FORMS: usize = 4;

/// A form and a multiple of another.
fn combined(
    alloc: Global,
    first: &Lin,
    factor: i64,
    second: &Lin,
) -> Result<Option<Lin>, AllocError>
    ensures { IfOk result (λ found. found ≡ combined first.now factor second.now) }
{
    match first.plus_multiple(alloc, factor, second) {
        Ok(sum) => Ok(Some(sum)),
        Err(LinError::Limit) => Ok(None),
        Err(LinError::Memory) => Err(AllocError),
    }
}

/// An equal form, if it is within the limits.
fn checked(alloc: Global, form: &Lin) -> Result<Option<Lin>, AllocError>
    ensures { IfOk result (λ found. found ≡ checked form.now) }
{
    if form.is_within_limits() {
        Ok(Some(form.copy(alloc)?))
    } else {
        Ok(None)
    }
}

/// Whether a form is in a list.
fn has_form(forms: &[Lin], form: &Lin) -> bool
    ensures { result ≡ list_any (λ f. same_form f form.now) forms.now }
{
    for known in forms {
        if known.is_same(form) {
            return true;
        }
    }
    false
}

/// A list and one form more, but for a double and past the fourth.
fn with_new(mut forms: Forms, form: Lin) -> Result<Forms, AllocError>
    ensures { IfOk result (λ more. more ≡ with_new forms form) }
{
    if forms.as_slice().len() < MOST_FORMS && !has_form(forms.as_slice(), &form) {
        forms.push(form)?;
    }
    Ok(forms)
}

/// The same, where both are within the limits.
fn with_made(known: Option<Forms>, made: Option<Lin>) -> Result<Option<Forms>, AllocError>
    ensures { IfOk result (λ found. found ≡ with_made known made) }
{
    match (known, made) {
        (Some(forms), Some(form)) => Ok(Some(with_new(forms, form)?)),
        _ => Ok(None),
    }
}

/// A list and the sums of a form and a multiple of each of some others.
fn with_sums(
    alloc: Global,
    known: Option<Forms>,
    first: &Lin,
    factor: i64,
    seconds: &[Lin],
) -> Result<Option<Forms>, AllocError>
    ensures { IfOk result (λ found. found ≡ fold with_made known (map (λ b. combined first.now factor b) seconds.now)) }
{
    let mut sums = known;
    for second in seconds {
        sums = with_made(sums, combined(alloc, first, factor, second)?)?;
    }
    Ok(sums)
}

/// The sums of each form and a multiple of each of some others.
pub fn sums(
    alloc: Global,
    firsts: &[Lin],
    factor: i64,
    seconds: &[Lin],
) -> Result<Option<Forms>, AllocError>
    ensures { IfOk result (λ found. found ≡ kept (all_combined firsts.now factor seconds.now)) }
{
    let mut sums = Some(Forms::new(alloc));
    for first in firsts {
        sums = with_sums(alloc, sums, first, factor, seconds)?;
    }
    Ok(sums)
}

/// The smaller of two bounds; None is larger than every number.
pub(crate) fn smaller(first: Option<i64>, second: Option<i64>) -> Option<i64>
    ensures { result ≡ smaller first second }
{
    match (first, second) {
        (Some(a), Some(b)) => Some(a.min(b)),
        (Some(a), None) => Some(a),
        (None, b) => b,
    }
}

/// How far one form may be above another at most, and not below 0.
fn excess(alloc: Global, scope: &Scope, a: &Lin, b: &Lin) -> Result<Option<i64>, AllocError>
    ensures { IfOk result (λ found. found ≡ excess scope.now a.now b.now) }
{
    match scope.sup_of_difference(alloc, a, b)? {
        Some(bound) => Ok(Some(bound.max(0))),
        None => Ok(None),
    }
}

/// How far a form has to be moved to bound what the others bound.
fn gap(
    alloc: Global,
    scope: &Scope,
    upper: bool,
    form: &Lin,
    others: &[Lin],
) -> Result<Option<i64>, AllocError>
    ensures { IfOk result (λ found. found ≡ gap scope.now upper form.now others.now) }
{
    let mut least = None;
    for other in others {
        let distance = if upper {
            excess(alloc, scope, other, form)?
        } else {
            excess(alloc, scope, form, other)?
        };
        least = smaller(least, distance);
    }
    Ok(least)
}

/// A form moved up, as an upper bound, or down, as a lower one.
fn moved(alloc: Global, upper: bool, form: &Lin, by: i64) -> Result<Option<Lin>, AllocError>
    ensures { IfOk result (λ found. found ≡ moved upper form.now by) }
{
    let number = Lin::number(alloc, by);
    if upper {
        combined(alloc, form, 1, &number)
    } else {
        combined(alloc, form, -1, &number)
    }
}

/// A list and a form more, moved so that it bounds what the others bound; one without a bounded gap falls out.
fn with_moved_form(
    alloc: Global,
    scope: &Scope,
    upper: bool,
    known: Option<Forms>,
    form: &Lin,
    others: &[Lin],
) -> Result<Option<Forms>, AllocError>
    ensures { IfOk result (λ found. found ≡ fold with_made known (option_to_list (option_map (moved upper form.now) (gap scope.now upper form.now others.now)))) }
{
    match gap(alloc, scope, upper, form, others)? {
        Some(by) => with_made(known, moved(alloc, upper, form, by)?),
        None => Ok(known),
    }
}

/// A list and each of some forms more, moved so that it bounds what the others bound.
fn with_moved(
    alloc: Global,
    scope: &Scope,
    upper: bool,
    known: Option<Forms>,
    forms: &[Lin],
    others: &[Lin],
) -> Result<Option<Forms>, AllocError>
    ensures { IfOk result (λ found. found ≡ fold with_made known (all_moved scope.now upper forms.now others.now)) }
{
    let mut list = known;
    for form in forms {
        list = with_moved_form(alloc, scope, upper, list, form, others)?;
    }
    Ok(list)
}

/// Upper, or lower, bounds of what is bounded by one list or by the other.
pub fn union(
    alloc: Global,
    scope: &Scope,
    upper: bool,
    firsts: &[Lin],
    seconds: &[Lin],
) -> Result<Option<Forms>, AllocError>
    ensures { IfOk result (λ found. found ≡ union scope.now upper firsts.now seconds.now) }
{
    let list = with_moved(
        alloc,
        scope,
        upper,
        Some(Forms::new(alloc)),
        firsts,
        seconds,
    )?;
    with_moved(alloc, scope, upper, list, seconds, firsts)
}

/// A list and equal forms more.
fn with_copies(
    alloc: Global,
    known: Option<Forms>,
    more: &[Lin],
) -> Result<Option<Forms>, AllocError>
    ensures { IfOk result (λ found. found ≡ fold with_made known (map checked more.now)) }
{
    let mut list = known;
    for form in more {
        list = with_made(list, checked(alloc, form)?)?;
    }
    Ok(list)
}

/// The forms of a list.
pub(crate) fn kept_copies(alloc: Global, forms: &[Lin]) -> Result<Option<Forms>, AllocError>
    ensures { IfOk result (λ found. found ≡ kept (map checked forms.now)) }
{
    with_copies(alloc, Some(Forms::new(alloc)), forms)
}

/// The forms of two lists, the first one's first.
pub fn joined(alloc: Global, firsts: &[Lin], seconds: &[Lin]) -> Result<Option<Forms>, AllocError>
    ensures { IfOk result (λ found. found ≡ kept (map checked (firsts.now ++ seconds.now))) }
{
    let list = with_copies(alloc, Some(Forms::new(alloc)), firsts)?;
    with_copies(alloc, list, seconds)
}
