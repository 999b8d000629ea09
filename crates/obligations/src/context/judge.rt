//! What decides obligations, and what claims say.

ghost use Rattle.std.specs.Prelude.{◌≡◌, IfOk, map, option_copied};
ghost use Rattle.soundness.specs.Obligations.{Seated, Inside, seated, places_of, region_of};
ghost use Rattle.soundness.specs.Shown.{are_within, are_seated, shows};
ghost use Rattle.soundness.specs.Binders.View.{binders_of};
ghost use Rattle.soundness.specs.Outline.View.{outline_in};

use crate::context::facts::Facts;
use lin::Span1;
use plan::Places;
use soundness::binders::{Binder, NestTests};
use soundness::outline::Outlined;
use soundness::outline::refusals::Flaw;
use std::alloc::{AllocError, Global};

/// Which obligations are asked after.
#[derive(Clone, Copy, PartialEq, Eq, Drop)]
pub enum Part {
    /// All but that statements make their claims.
    Lines,
    /// That statements make their claims.
    Claims,
    /// Those that would be told before a flaw.
    Before(Flaw),
}

/// What decides a group's obligations, and which of them are asked after.
pub struct Judge<'j, B, T> {
    pub alloc: Global,
    pub outlined: &'j Outlined<'j>,
    pub bounds: &'j B,
    pub tests: &'j T,
    pub part: Part,
}

impl<B, T> Drop for Judge<'_, B, T> {
    fn drop(self) {
        let Judge {
            alloc: _,
            outlined: _,
            bounds: _,
            tests: _,
            part: _,
        } = self;
    }
}

/// What a claim says of a buffer.
#[derive(Clone, Copy, Drop)]
pub struct Said<'a> {
    pub buffer: u64,
    pub function: &'a str,
    pub definition: u64,
    pub region: &'a [Span1],
}

/// What a claim says. An unknown claim says that buffer 0 holds nothing.
pub fn said_by<'a>(outlined: &Outlined<'a>, claim: u64) -> Said<'a>
    ensures buffer { result.buffer ≡ ((outline_in outlined.now).claim claim).buffer }
    ensures function { result.function.now ≡ ((outline_in outlined.now).claim claim).function }
    ensures definition { result.definition ≡ ((outline_in outlined.now).claim claim).definition }
    ensures region { result.region.now ≡ ((outline_in outlined.now).claim claim).region }
{
    match outlined.claim(claim) {
        Some(claim) => Said {
            buffer: claim.buffer,
            function: claim.function.as_str(),
            definition: claim.definition,
            region: claim.region.as_slice(),
        },
        None => Said {
            buffer: 0,
            function: "",
            definition: 0,
            region: &[],
        },
    }
}

/// Whether each point of the first spans is shown to be one of the second.
pub fn are_within<B: Facts, T: NestTests>(
    judge: &Judge<'_, B, T>,
    binders: &[Binder<'_>],
    inner: &[Span1],
    outer: &[Span1],
) -> Result<bool, AllocError>
    ensures { IfOk result (λ yes. yes ≡ are_within (B.rules judge.now.bounds.now) (binders_of binders.now) inner.now outer.now) }
{
    match inner {
        [] => match outer {
            [] => Ok(true),
            [_, ..] => Ok(false),
        },
        [x, xs @ ..] => match outer {
            [] => Ok(false),
            [y, ys @ ..] => {
                if judge.bounds.is_within(judge.alloc, binders, x, y)? {
                    are_within(judge, binders, xs, ys)
                } else {
                    Ok(false)
                }
            }
        },
    }
}

/// Whether each point of the spans is shown to have a place.
fn are_seated<B: Facts, T: NestTests>(
    judge: &Judge<'_, B, T>,
    binders: &[Binder<'_>],
    spans: &[Span1],
    places: &[Places],
) -> Result<bool, AllocError>
    ensures { IfOk result (λ yes. yes ≡ are_seated (B.rules judge.now.bounds.now) (binders_of binders.now) spans.now places.now) }
{
    match spans {
        [] => match places {
            [] => Ok(true),
            [_, ..] => Ok(false),
        },
        [x, xs @ ..] => match places {
            [] => Ok(false),
            [y, ys @ ..] => {
                if judge.bounds.is_seated(judge.alloc, binders, x, y)? {
                    are_seated(judge, binders, xs, ys)
                } else {
                    Ok(false)
                }
            }
        },
    }
}

/// The same of a buffer's places, where it is in scope.
pub fn have_room<B: Facts, T: NestTests>(
    judge: &Judge<'_, B, T>,
    binders: &[Binder<'_>],
    spans: &[Span1],
    places: Option<&[Places]>,
) -> Result<bool, AllocError>
    ensures { IfOk result (λ yes. yes ≡ shows (B.rules judge.now.bounds.now) (T.nests judge.now.tests.now) (binders_of binders.now) (seated (outline_in judge.now.outlined.now) (B.rules judge.now.bounds.now) (option_copied places.entry) spans.now)) }
{
    match places {
        None => Ok(false),
        Some(places) => are_seated(judge, binders, spans, places),
    }
}
