//! Numbers and symbols among others.

ghost use Rattle.std.specs.Prelude.{◌≡◌, ◌==◌};
ghost use Rattle.std.specs.List.{list_any};
ghost use Rattle.validation.specs.Groups.Lines.{is_one_of};

use lin::Sym;

/// Whether a number is one of these.
pub(crate) fn is_among(numbers: &[u64], number: u64) -> bool
    ensures { result ≡ list_any (λ x. x == number) numbers.now }
{
    numbers.iter().any(|one| *one == number)
}

/// Whether a symbol is one of these.
pub(crate) fn is_bound(symbols: &[Sym], symbol: Sym) -> bool
    ensures { result ≡ is_one_of symbols.now symbol }
{
    symbols.iter().any(|one| *one == symbol)
}
