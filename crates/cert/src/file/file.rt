//! Plan files.

ghost use Rattle.std.specs.Prelude.{IfOk, IfErr};
ghost use Rattle.plan.specs.View.{plan_of};
ghost use Rattle.plan.specs.Certificate.Certificate.{certificate_of};
ghost use Rattle.cert.specs.File.File.{IsFileOf, IsRefusedFile};

use crate::file::cut::cut;
use nest::laws::lines_are_counted;
use plan::Plan;
use plan::certificate::Cert;
use spelling::lines::TextError;
use std::alloc::Global;

/// Reads a plan file: the plan, and behind it the certificate from the first line `cert` on. Lines are counted from 1
/// through the whole file.
///
/// # Errors
/// `Form` and `Limit` with the first line that is not as it is written for any plan and certificate, or at which the text
/// ends too early; `Memory` where memory runs out.
pub fn read(alloc: Global, text: &str) -> Result<(Plan, Cert), TextError>
    ensures said { IfOk result (λ file. IsFileOf text.now (plan_of file.0) (certificate_of file.1)) }
    ensures refused { IfErr result (IsRefusedFile text.now) }
{
    lines_are_counted();
    let (front, back) = cut(text);
    let plan = nest::read(alloc, front)?;
    let cert = crate::read(alloc, back, plan.certificate_line() as usize)?;
    Ok((plan, cert))
}
