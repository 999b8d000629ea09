//! The canonical text of an algorithm.

ghost use Rattle.std.specs.Prelude.{◌≡◌, ◌≤◌, IfOk, IfErr, length, string_bytes};
ghost use Rattle.tree.specs.Token.Lexical.{max_text};
ghost use Rattle.algo.specs.View.{algorithm_of};
ghost use Rattle.algo.specs.Refusal.{IsAlgorithmText};
ghost use Rattle.printer.specs.Written as spec;

use crate::error::WriteError;
use crate::statements::algorithm_tokens;
use crate::text::text_of;
use algo::Algo;
use std::alloc::Global;

/// The most bytes of a text.
const MAX_TEXT: usize = 65_536;

/// The canonical text of an algorithm: a line a statement, brackets only where the grammar wants them, a type behind each
/// literal but those of i32. It is read as the algorithm again.
///
/// # Errors
/// `TooLong` where the canonical text has more than 65,536 bytes; `Memory` where memory runs out.
#[tactic(auto, using(crate::proofs::Again::written_again))]
pub fn write(alloc: Global, algo: &Algo) -> Result<String, WriteError>
    ensures canonical { IfOk result (λ text. string_bytes text ≡ spec.canonical_text (algorithm_of algo.now)) }
    ensures again { IfOk result (λ text. IsAlgorithmText (string_bytes text) (algorithm_of algo.now)) }
    ensures short { IfOk result (λ text. length (string_bytes text) ≤ max_text) }
    ensures refused { IfErr result (spec.IsNotWritten (algorithm_of algo.now)) }
{
    algo.is_well_formed();
    algo.is_read();
    let tokens = algorithm_tokens(alloc, algo)?;
    let text = text_of(alloc, &tokens)?;
    if text.len() > MAX_TEXT {
        return Err(WriteError::TooLong);
    }
    Ok(text)
}
