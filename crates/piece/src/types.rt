//! The types of values by the names of functions.

ghost use Rattle.std.specs.Prelude.{◌≡◌};
ghost use Rattle.algo.specs.View.{algorithm_of};
ghost use Rattle.headline.specs.Work.{type_named};

use algo::Algo;
use algo::scoping::same_name;
use numeric::Ty;

/// The type of the values of a name: that of the function of this name, or else that of the input.
pub(crate) fn type_named(algo: &Algo, name: &str) -> Ty
    ensures { result ≡ type_named (algorithm_of algo.now) name.now }
{
    let functions = algo.funcs();
    for k in 0..functions.len() {
        match functions.get_index(k) {
            Some((known, function)) => {
                if same_name(known.as_str(), name) {
                    return function.ty;
                }
            }
            None => unreachable!(),
        }
    }
    algo.input().shape.ty
}
