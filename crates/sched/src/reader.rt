//! From a text to its schedule.

ghost use Rattle.std.specs.Prelude.{◌≡◌, length, IfOk, IfErr};
ghost use Rattle.sched.specs.Schedule.{Schedule};
ghost use Rattle.sched.specs.View.{schedule_of};
ghost use Rattle.sched.specs.Grammar.{IsTextOf};
ghost use Rattle.sched.specs.Text as spec;

use crate::error::{Refusal, SchedError, Stop};
use crate::parser::file;
use crate::schedule::Sched;
use std::alloc::Global;
use tree::token::{Lexeme, Span, place, tokens};

// Where so many tokens are left: at the first of them, or at the end of the text.
fn place_left(lexemes: &[Lexeme], left: usize, end: usize) -> Span
    ensures { result ≡ spec.place_left lexemes.now left end }
{
    let (_, rest) = lexemes.split_at(lexemes.len().saturating_sub(left));
    place(rest, end)
}

// What a refusal of the tokens says of the text, which ends there.
fn fault(refusal: Refusal, lexemes: &[Lexeme], end: usize) -> SchedError
    ensures { result ≡ spec.fault refusal lexemes.now end }
{
    match refusal {
        Refusal::BadForm(left) => SchedError::BadForm(place_left(lexemes, left, end)),
        Refusal::LongName(left) => SchedError::TooLarge(place_left(lexemes, left, end)),
    }
}

impl Sched {
    /// Reads the text of a schedule. No function is looked up.
    ///
    /// # Errors
    /// In this order: `TooLarge` for a text of more than 65,536 bytes, at those from there on; `BadToken` at the first
    /// bytes that are no token; then what is met first while the tokens are read: `BadForm` where they do not go on as
    /// the grammar says (an unknown word, or the word of a directive that the compiler has not, stands there itself),
    /// and `TooLarge` at a name of more than 16 bytes. `Memory` where memory runs out.
    pub fn read(alloc: Global, text: &str) -> Result<Sched, SchedError>
        ensures found { IfOk result (λ s. IsTextOf text.now (schedule_of s)) }
        // It stands for nothing else.
        ensures only { IfOk result (λ s. (other : Schedule) → IsTextOf text.now other → other ≡ schedule_of s) }
        ensures refused { IfErr result (λ e. spec.IsRefused text.now e) }
    {
        let lexemes = tokens(alloc, text)?;
        match file(alloc, &lexemes) {
            Ok(found) => Ok(found),
            Err(Stop::Memory) => Err(SchedError::Memory),
            Err(Stop::Refused(refusal)) => Err(fault(refusal, &lexemes, text.len())),
        }
    }
}
