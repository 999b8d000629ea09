//! Why a text is no scene.

ghost use Rattle.std.specs.Prelude.{◌≡◌, ◌≤◌, IfSome, IsTrue, map};
ghost use Rattle.meaning.specs.Reduction.{size, width};
ghost use Rattle.meaning.specs.Conditions.{IsRange};
ghost use Rattle.expr.specs.Statements.Text.{bound_value};
ghost use Rattle.expr.specs.Statements.View.{bound_text, domain_text, update_text};
ghost use Rattle.algo.specs.Saying.{range_said};
ghost use Rattle.algo.specs.Keeping.{DomainLimits};
ghost use Rattle.algo.specs.declared.error.AlgoError.TheVariants.{Memory};
ghost use Rattle.algo.specs.Refusal.{form_error};
ghost use Rattle.crop.specs.declared.scene_error.SceneError.TheVariants.{Text};
ghost use Rattle.crop.specs.Reductions.{HasUpdate, IsNamed, Answers};

use algo::{AlgoError, Code};
use expr::statements::{Bound, Domain, File, FormError, Statement, UpdateStatement};
use std::alloc::{AllocError, AllocFailed, Global};
use thiserror::Error;
use tree::token::Span;

/// How many points a reduction has at most.
const MAX_POINTS: u64 = 16_777_216;

/// Why a text is no scene.
#[derive(Debug, Error, Drop)]
pub enum SceneError {
    /// As of an algorithm's text, whose extents alone may be larger.
    #[error("{0}")]
    Text(AlgoError),
    /// A text that has an extent past the limit of an algorithm's has an update of this function whose reduction is past the
    /// limits, too.
    #[error("C2 {name}")]
    Reduction { name: String },
}

impl From<AllocError> for SceneError {
    ghost from_gives = { λ _ e. e ≡ Text Memory };

    fn from(_e: AllocError) -> SceneError {
        SceneError::Text(AlgoError::Memory)
    }
}

impl From<FormError> for SceneError {
    ghost from_gives = { λ e f. f ≡ Text (form_error e) };

    fn from(e: FormError) -> SceneError {
        SceneError::Text(AlgoError::from(e))
    }
}

/// Whether an end of the range that is past the limits of a reduction stands at this place.
fn is_large_range(domain: &Domain, at: Span) -> bool
    ensures { IsTrue result → ¬ IsRange (range_said (domain_text domain.now)) }
{
    let high = domain.high;
    let low = domain.low;
    (at == high.span && !high.negative && 8192 < high.number)
        || (at.start == low.span.start && low.negative && 8192 < low.number)
}

/// Whether one of the ranges at this place is past the limits.
fn has_large_range(domains: &[Domain], at: Span) -> bool
    ensures { IsTrue result → ¬ DomainLimits (map domain_text domains.now) }
{
    for domain in domains {
        if is_large_range(domain, at) {
            return true;
        }
    }
    false
}

/// The number that an end of a range says.
fn end(bound: Bound) -> i64
    ensures { result ≡ bound_value (bound_text bound) }
{
    let number = i64::from(bound.number);
    if bound.negative { -number } else { number }
}

/// How many values a reduction variable takes.
fn width(domain: &Domain) -> u64
    ensures { result ≤ width (range_said (domain_text domain.now)) }
{
    end(domain.high).abs_diff(end(domain.low)).saturating_add(1)
}

/// How many points a domain of one to three variables has, or fewer.
fn point_count(domains: &[Domain]) -> u64
    ensures { result ≤ size (map range_said (map domain_text domains.now)) }
{
    match domains {
        [first] => width(first),
        [first, second] => width(first).saturating_mul(width(second)),
        [first, second, third] => {
            width(first).saturating_mul(width(second).saturating_mul(width(third)))
        }
        _ => 0,
    }
}

/// Whether the reduction of an update is past the limits at this place: a range, or by its points the word `update`.
fn has_large_domain(update: &UpdateStatement, at: Span) -> bool
    ensures { IsTrue result → ¬ DomainLimits (update_text update.now).domains }
{
    has_large_range(&update.domains, at)
        || (at == update.word && MAX_POINTS < point_count(&update.domains))
}

/// The update whose reduction is past the limits at this place.
fn large_reduction(file: &File, at: Span) -> Option<&UpdateStatement>
    ensures { IfSome result (λ update. HasUpdate file.now update.now × ¬ DomainLimits (update_text update.now).domains) }
{
    for statement in &file.statements {
        if let Statement::Update(update) = statement {
            if has_large_domain(update, at) {
                return Some(update);
            }
        }
    }
    None
}

/// The place at which a limit is passed, if the error is that.
fn limit_place(error: &AlgoError) -> Option<Span>
    ensures { IfSome result (λ _. ¬ (error.now ≡ Memory)) }
{
    match error {
        AlgoError::Refused {
            code: Code::Limit,
            span,
        } => Some(*span),
        _ => None,
    }
}

/// The refusal that names an update's function.
fn named(update: &UpdateStatement) -> SceneError
    ensures { IsNamed update.now result }
{
    match update.name.name.clone() {
        Ok(name) => SceneError::Reduction { name },
        Err(_) => SceneError::Text(AlgoError::Memory),
    }
}

/// The error of a file whose text with 1 for each wide extent, if it has one, is refused so.
#[tactic(auto, using(crate::proofs::Large::named_answers))]
pub(crate) fn refusal(file: &File, is_wide: bool, error: AlgoError) -> SceneError
    ensures { Answers file.now error result }
{
    let Some(at) = limit_place(&error) else {
        return SceneError::Text(error);
    };
    if !is_wide {
        return SceneError::Text(error);
    }
    match large_reduction(file, at) {
        Some(update) => named(update),
        None => SceneError::Text(error),
    }
}
