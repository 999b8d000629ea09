//! What a stored expression may name: its variables, the input, and the functions of claims.

ghost use Rattle.std.specs.Prelude.{◌≡◌, map, slice_get};
ghost use Rattle.meaning.specs.Names.{is_among};
ghost use Rattle.algo.specs.Parts.{functions_of};
ghost use Rattle.algo.specs.View.{algorithm_of};
ghost use Rattle.soundness.specs.Given.{function_named, claim_or_none};
ghost use Rattle.soundness.specs.Outline.View.{plan_in, certificate_in, source_held};
ghost use Rattle.rules.specs.Bounding.Called.{call_of, source_call, called};

use algo::scoping::same_name;
use algo::{Algo, Function};
use indexmap::IndexMap;
use numeric::Ty;
use soundness::outline::{Outlined, Source};
use tree::Names;

/// The type and the number of indices of the function of a name.
fn function_call(functions: &IndexMap<String, Function>, name: &str) -> Option<(Ty, usize)>
    ensures { result ≡ call_of (function_named (functions_of functions.now.entries) name.now) }
{
    match functions.get(name) {
        Some(function) => Some((function.ty, function.variables.len())),
        None => None,
    }
}

/// Whether the name is one of these.
fn is_among(names: &[&str], name: &str) -> bool
    ensures { result ≡ is_among (map (λ x. x.now) names.now) name.now }
{
    for other in names {
        if same_name(other, name) {
            return true;
        }
    }
    false
}

/// The function of a claim; no name where there is no such claim.
fn claimed_function<'a>(outlined: &'a Outlined<'_>, claim: u64) -> &'a str
    ensures { result.now ≡ (claim_or_none (slice_get (certificate_in outlined.now).claims claim)).function }
{
    match outlined.claim(claim) {
        Some(claim) => claim.function.as_str(),
        None => "",
    }
}

/// The type and the number of indices of what a name means.
fn source_call(algo: &Algo, outlined: &Outlined<'_>, source: Source) -> Option<(Ty, usize)>
    ensures { result ≡ source_call (algorithm_of algo.now) (plan_in outlined.now) (certificate_in outlined.now) (source_held source) }
{
    match source {
        Source::Input => {
            let shape = &algo.input().shape;
            Some((shape.ty, shape.extents.len()))
        }
        Source::ByClaim(claim) => function_call(algo.funcs(), claimed_function(outlined, claim)),
        Source::Unknown => None,
    }
}

/// The variables of a stored expression, and what its calls are of.
#[derive(Clone, Copy, Drop)]
pub(crate) struct Called<'a> {
    pub algo: &'a Algo,
    pub outlined: &'a Outlined<'a>,
    pub variables: &'a [&'a str],
}

impl Names for Called<'_> {
    ghost variables = { λ c name. is_among (map (λ x. x.now) c.variables.now) name };

    ghost functions = { λ c name. called (algorithm_of c.algo.now) (plan_in c.outlined.now) (certificate_in c.outlined.now) name };

    fn var(&self, name: &str) -> bool {
        is_among(self.variables, name)
    }

    fn func(&self, name: &str) -> Option<(Ty, usize)> {
        source_call(self.algo, self.outlined, self.outlined.source(name))
    }
}
