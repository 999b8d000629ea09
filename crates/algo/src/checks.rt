//! What the expressions of a statement may use and keep, each condition with the place where it is broken.

ghost use Rattle.std.specs.Prelude.{◌≡◌, ◌≢◌, not, string_bytes, map, All, OnOk, IfErr, IfSome, Some, if◌then◌else◌, nat_lt, IsOk, IsNone, IsTrue, MatchOption, MatchResult};
ghost use Rattle.tree.specs.declared.expr.Expr.{Expr};
ghost use Rattle.tree.specs.Term.{Term, term_of, list_terms};
ghost use Rattle.tree.specs.Typing.{type_of};
ghost use Rattle.meaning.specs.Names.{is_among};
ghost use Rattle.meaning.specs.Conditions.{callable};
ghost use Rattle.algo.specs.Scoping.Expressions.{is_known, takes_count};
ghost use Rattle.tree.specs.declared.token.span.Span.{Span};
ghost use Rattle.algo.specs.declared.error.AlgoError.TheVariants.{Refused};
ghost use Rattle.algo.specs.Parts.{names_of, functions_of};
ghost use Rattle.algo.specs.Context.{only_input, HasType};
ghost use Rattle.algo.specs.Keeping.{UsesNames, CallsKnown, CallsCounted};
ghost use Rattle.algo.specs.Faults.{BadTypeAt, CallAt, CalledAt, UnknownAt};

use crate::error::{AlgoError, Code};
use crate::function::{Function, Port};
use crate::scoping::{Among, CallTest, first_call, first_variable, is_among, same_name};
use numeric::Ty;
use tree::token::Span;
use tree::{Expr, Names, ty_of};

/// What stands before a statement: the input, the functions so far, and the names of all that the text declares.
#[derive(Clone, Copy, Drop)]
pub(crate) struct Context<'a> {
    pub input: &'a Port,
    pub declared: &'a [String],
    pub functions: &'a [(String, Function)],
}

/// The variables that an expression may use, and what it may call: these functions and the input.
#[derive(Clone, Copy, Drop)]
pub(crate) struct Scope<'a> {
    pub variables: &'a [String],
    pub functions: &'a [(String, Function)],
    pub input: &'a Port,
}

// The type and the number of indices of what can be called by the name.
fn callable(input: &Port, functions: &[(String, Function)], name: &str) -> Option<(Ty, usize)>
    ensures { result ≡ callable (only_input input.now) (functions_of functions.now) name.now }
{
    for (known, function) in functions {
        if same_name(known.as_str(), name) {
            return Some((function.ty, function.variables.len()));
        }
    }
    if same_name(input.name.as_str(), name) {
        Some((input.shape.ty, input.shape.extents.len()))
    } else {
        None
    }
}

impl Names for Scope<'_> {
    ghost variables = { λ s name. is_among (names_of s.variables.now) name };

    ghost functions = { λ s name. callable (only_input s.input.now) (functions_of s.functions.now) name };

    fn var(&self, name: &str) -> bool {
        is_among(self.variables, name)
    }

    fn func(&self, name: &str) -> Option<(Ty, usize)> {
        callable(self.input, self.functions, name)
    }
}

/// What an expression may have to keep.
pub(crate) trait Condition {
    /// Whether the expression keeps it.
    ghost holds: { Self → Term → Type 0 };

    /// Whether the expression breaks it at this place.
    ghost broken_at: { Self → Expr → Span → Type 0 };

    /// The place where the expression breaks it.
    fn fault(&self, expr: &Expr) -> Option<Span>
        ensures holds { MatchOption result (holds self.now (term_of expr.now)) (λ _. ¬ holds self.now (term_of expr.now)) }
        ensures place { IfSome result (broken_at self.now expr.now) };
}

// The test that a call's name is declared in the text.
#[derive(Clone, Copy, Drop)]
struct Declared<'a> {
    names: &'a [String],
}

impl CallTest for Declared<'_> {
    ghost accepted = { λ t name at. is_among (names_of t.names.now) name };

    fn accepts(&self, name: &str, _at: &[Expr]) -> bool {
        is_among(self.names, name)
    }
}

/// Its variables are among these names, and what it calls is declared in the text.
#[derive(Clone, Copy, Drop)]
pub(crate) struct KnownNames<'a> {
    pub variables: &'a [String],
    pub declared: &'a [String],
}

impl Condition for KnownNames<'_> {
    ghost holds = { λ c e. UsesNames (names_of c.variables.now) (names_of c.declared.now) e };

    ghost broken_at = { λ c e at. UnknownAt (names_of c.variables.now) (names_of c.declared.now) e at };

    fn fault(&self, expr: &Expr) -> Option<Span> {
        let variable = first_variable(
            expr,
            &Among {
                names: self.variables,
            },
        );
        let call = first_call(
            expr,
            &Declared {
                names: self.declared,
            },
        );
        match (variable, call) {
            (None, None) => None,
            (Some(variable), None) => Some(variable),
            (None, Some(call)) => Some(call.name),
            (Some(variable), Some(call)) => Some(earlier(variable, call.name)),
        }
    }
}

// The place that begins first.
fn earlier(left: Span, right: Span) -> Span
    ensures { result ≡ (if nat_lt left.start right.start then left else right) }
{
    if left.start < right.start {
        left
    } else {
        right
    }
}

/// Each call is of the input or of one of these functions.
#[derive(Clone, Copy, Drop)]
pub(crate) struct KnownCalls<'a> {
    pub functions: &'a [(String, Function)],
    pub input: &'a Port,
}

impl CallTest for KnownCalls<'_> {
    ghost accepted = { λ t name at. is_known (callable (only_input t.input.now) (functions_of t.functions.now)) name at };

    fn accepts(&self, name: &str, _at: &[Expr]) -> bool {
        callable(self.input, self.functions, name).is_some()
    }
}

impl Condition for KnownCalls<'_> {
    ghost holds = { λ c e. CallsKnown (callable (only_input c.input.now) (functions_of c.functions.now)) e };

    ghost broken_at = { λ c e at. CalledAt (is_known (callable (only_input c.input.now) (functions_of c.functions.now))) e at };

    fn fault(&self, expr: &Expr) -> Option<Span> {
        Some(first_call(expr, self)?.name)
    }
}

/// Each call has the right number of indices.
#[derive(Clone, Copy, Drop)]
pub(crate) struct CountedCalls<'a> {
    pub functions: &'a [(String, Function)],
    pub input: &'a Port,
}

#[tactic(auto, using(crate::proofs::Answered::index_count_terms))]
impl CallTest for CountedCalls<'_> {
    ghost accepted = { λ t name at. takes_count (callable (only_input t.input.now) (functions_of t.functions.now)) name at };

    fn accepts(&self, name: &str, at: &[Expr]) -> bool {
        match callable(self.input, self.functions, name) {
            Some((_, count)) => count == at.len(),
            None => false,
        }
    }
}

impl Condition for CountedCalls<'_> {
    ghost holds = { λ c e. CallsCounted (callable (only_input c.input.now) (functions_of c.functions.now)) e };

    ghost broken_at = { λ c e at. CallAt (takes_count (callable (only_input c.input.now) (functions_of c.functions.now))) e at };

    fn fault(&self, expr: &Expr) -> Option<Span> {
        Some(first_call(expr, self)?.call)
    }
}

/// Ok where the expression has this type. Else the place of the smallest expression whose parts disagree, and the
/// expression's own where it has another type.
pub(crate) fn typed(expr: &Expr, scope: &Scope<'_>, ty: Ty) -> Result<(), Span>
    ensures typed { MatchResult result (λ _. HasType scope.now.variables.now scope.now.functions.now scope.now.input.now ty (term_of expr.now))
        (λ _. ¬ HasType scope.now.variables.now scope.now.functions.now scope.now.input.now ty (term_of expr.now)) }
    ensures place { IfErr result (BadTypeAt (is_among (names_of scope.now.variables.now)) (callable (only_input scope.now.input.now) (functions_of scope.now.functions.now)) ty expr.now) }
{
    match ty_of(expr, scope) {
        Ok(found) if found == ty => Ok(()),
        Ok(_) => Err(expr.span()),
        Err(error) => Err(error.span),
    }
}

/// The refusal, where there is a fault.
pub(crate) fn refuse(fault: Option<Span>, code: Code) -> Result<(), AlgoError>
    ensures ok { IsOk result → IsNone fault }
    ensures refused { IfErr result (λ e. (span : Span) × (fault ≡ Some span) × (e ≡ Refused code span)) }
{
    match fault {
        Some(span) => Err(AlgoError::Refused { code, span }),
        None => Ok(()),
    }
}
