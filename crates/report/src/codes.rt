//! What each code of a refusal means, the smallest example that gives it, and what usually mends it.

ghost use Rattle.std.specs.Prelude.{◌≡◌};
ghost use Rattle.std.specs.Option.{is_some};
ghost use Rattle.report.specs.Codes.Codes.{is_code};

mod algorithms;
mod images;
mod plans;
mod schedules;
mod tiles;

/// The page of a code, as Markdown; there is one for each code that a refusal can have.
pub fn page(code: &str) -> Option<&'static str>
    ensures { is_some result ≡ is_code code.now }
{
    if let Some(page) = algorithms::page(code) {
        return Some(page);
    }
    if let Some(page) = schedules::page(code) {
        return Some(page);
    }
    if let Some(page) = plans::page(code) {
        return Some(page);
    }
    if let Some(page) = tiles::page(code) {
        return Some(page);
    }
    images::page(code)
}
