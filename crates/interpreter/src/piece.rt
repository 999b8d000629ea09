//! What a piece goes by.

ghost use Rattle.std.specs.Prelude.{◌≡◌};
ghost use Rattle.meaning.specs.Image.View.{AreExtents};
ghost use Rattle.interpreter.specs.Raster.{AreExtents-prop};

use crate::line_codes::LineCode;
use crate::sizes::Size;
use crate::symbols::Symbols;
use meaning::image::Image;
use plan::certificate::Cert;
use plan::{Group, Plan};

/// What a piece goes by: its plan and certificate, the input, its group with that group's number, and how many
/// coordinates the group's buffers have.
#[derive(Clone, Copy, Drop)]
pub(crate) struct Piece<'a> {
    pub plan: &'a Plan,
    pub cert: &'a Cert,
    pub image: &'a Image,
    pub group: &'a Group,
    pub number: usize,
    pub sizes: &'a [Size],
    /// The codes of the group's lines.
    pub codes: &'a [LineCode],
    /// Whether the input's name means no claim.
    pub is_plain: bool,
    /// No symbol at all, for forms that are constants.
    pub constants: &'a Symbols,
    pub ghost same: { image.now.extents.items ≡ plan.now.input.extents.items },
    pub ghost raster: { AreExtents image.now.extents.items } by { AreExtents-prop image.now.extents.items },
}
