//! The command that draws which piece owns each pixel.

ghost use Rattle.std.specs.Prelude.{◌⊎◌, IfErr, IfOk, OnOk, option_map};
ghost use Rattle.algo.specs.View.{algorithm_of, IsFor};
ghost use Rattle.checked_plan.specs.View.{algorithm_checked};
ghost use Rattle.commands.specs.Asked.{draw_asked};
ghost use Rattle.commands.specs.Draws.{HasOrder, IsDone, IsDrawingFile, IsNoOrderFile, IsOrderFile, IsRefused, IsUnordered};
ghost use Rattle.commands.specs.Files.{SameFiles};
ghost use Rattle.commands.specs.Pictures.{IsOfDevice};
ghost use Rattle.commands.specs.Sources.{IsDrawingOf, IsDrawingPut, IsDrawingUnput, IsUndrawn};

use crate::device::{Files, put_file};
use crate::picture::algorithm_file;
use crate::pipeline::{Fault, State, replay};
use crate::plan_command::plan_in;
use crate::replay::order_file;
use crate::request::DrawRequest;
use algo::{Algo, Inputs};
use checked_plan::Checked;
use meaning::image::{Image, Samples};
use report::drawing::{Cells, draw};
use std::alloc::{AllocError, Global};
use std::thread::Threads;

/// An input of an algorithm that is 0 everywhere.
fn black(alloc: Global, algo: &Algo) -> Result<Inputs, AllocError>
    ensures { IfOk result (IsFor algo.now) }
{
    let shape = algo.input().shape.copy(alloc)?;
    let image = Image {
        ty: shape.ty,
        samples: Samples::Bytes(vec![in alloc; 0; shape.sample_count()]?),
        extents: shape.extents,
    };
    match Inputs::new(algo, image) {
        Ok(inputs) => Ok(inputs),
        Err(_) => unreachable!(),
    }
}

/// The crew after an order of steps. How far it has come does not rest on the input's samples.
fn crew_after<F: Files>(
    alloc: Global,
    files: &mut F,
    checked: &Checked<'_>,
    name: &str,
) -> Result<State, Fault>
    ensures same { SameFiles (F.contents files.old) (F.contents files.new) }
    ensures ordered { OnOk result (IsOrderFile (F.contents files.old) name.now) }
    ensures refused { IfErr result (IsNoOrderFile (F.contents files.old) name.now) }
{
    let order = order_file(alloc, files, name)?;
    let inputs = black(alloc, checked.algo())?;
    Ok(replay(alloc, checked, &inputs, order.as_slice())?)
}

/// The image file of a drawing.
fn drawing_file(
    alloc: Global,
    checked: &Checked<'_>,
    crew: Option<Cells<'_>>,
) -> Result<Vec<u8>, AllocError>
    ensures { IfOk result (λ file. IsDrawingFile (algorithm_checked checked.now) file.items) }
{
    let image = draw(alloc, checked, crew)?;
    let mut file = Vec::new(alloc);
    match pnm::write(&mut file, &image) {
        Ok(()) => Ok(file),
        // A vector takes all bytes while there is memory.
        Err(_) => Err(AllocError),
    }
}

/// The crew after an order, where one is named.
fn crew_asked<F: Files>(
    alloc: Global,
    files: &mut F,
    checked: &Checked<'_>,
    order: Option<&str>,
) -> Result<Option<State>, Fault>
    ensures same { SameFiles (F.contents files.old) (F.contents files.new) }
    ensures ordered { OnOk result (HasOrder (F.contents files.old) (option_map (λ name. name.now) order.entry)) }
    ensures refused { IfErr result (IsUnordered (F.contents files.old) (option_map (λ name. name.now) order.entry)) }
{
    match order {
        None => Ok(None),
        Some(name) => Ok(Some(crew_after(alloc, files, checked, name)?)),
    }
}

/// The cells of a crew.
fn cells_of(crew: Option<&State>) -> Option<Cells<'_>> {
    match crew {
        Some(state) => Some(state.cells()),
        None => None,
    }
}

/// The image file of a checked plan's drawing, after an order where one is named.
fn drawn<F: Files>(
    alloc: Global,
    files: &mut F,
    checked: &Checked<'_>,
    order: Option<&str>,
) -> Result<Vec<u8>, Fault>
    ensures same { SameFiles (F.contents files.old) (F.contents files.new) }
    ensures ordered { OnOk result (HasOrder (F.contents files.old) (option_map (λ name. name.now) order.entry)) }
    ensures drawn { IfOk result (λ file. IsDrawingFile (algorithm_checked checked.now) file.items) }
    ensures refused { IfErr result (λ fault. IsOfDevice fault ⊎ IsUnordered (F.contents files.old) (option_map (λ name. name.now) order.entry) fault) }
{
    let crew = crew_asked(alloc, files, checked, order)?;
    Ok(drawing_file(alloc, checked, cells_of(crew.as_ref()))?)
}

/// The image file of the drawing that is asked for, of a plan of an algorithm.
fn drawing_of<T: Threads + Sync, F: Files>(
    rt: &T,
    alloc: Global,
    files: &mut F,
    algo: &Algo,
    request: &DrawRequest<'_>,
) -> Result<Vec<u8>, Fault>
    ensures same { SameFiles (F.contents files.old) (F.contents files.new) }
    ensures drawn { IfOk result (λ file. IsDrawingOf (F.contents files.old) (draw_asked request.now) (algorithm_of algo.now) file.items) }
    ensures refused { IfErr result (IsUndrawn (F.contents files.old) (draw_asked request.now) (algorithm_of algo.now)) }
{
    let checked = plan_in(rt, alloc, files, algo, request.check.plan)?;
    drawn(alloc, files, &checked, request.order)
}

/// Writes this drawing, after everything else has succeeded.
fn put_drawing<T: Threads + Sync, F: Files>(
    rt: &T,
    alloc: Global,
    files: &mut F,
    algo: &Algo,
    request: &DrawRequest<'_>,
) -> Result<(), Fault>
    ensures done { OnOk result (IsDrawingPut (F.contents files.old) (F.contents files.new) (draw_asked request.now) (algorithm_of algo.now)) }
    ensures refused { IfErr result (IsDrawingUnput (F.contents files.old) (F.contents files.new) (draw_asked request.now) (algorithm_of algo.now)) }
{
    let file = drawing_of(rt, alloc, files, algo, request)?;
    put_file(files, request.output, file.as_slice())
}

/// Draws which piece owns each pixel of the output of the plan of a file, which is checked first, and after an order of
/// workers' steps how far they have come. The drawing is written last, after everything else has succeeded.
///
/// # Errors
/// The first refusal: of the algorithm's text, of the plan file, and of the order; a text that is not UTF-8 is one of the
/// device.
pub fn draw_command<T: Threads + Sync, F: Files>(
    rt: &T,
    alloc: Global,
    files: &mut F,
    request: &DrawRequest<'_>,
) -> Result<(), Fault>
    ensures done { OnOk result (IsDone (F.contents files.old) (F.contents files.new) (draw_asked request.now)) }
    ensures refused { IfErr result (IsRefused (F.contents files.old) (F.contents files.new) (draw_asked request.now)) }
{
    let algo = algorithm_file(alloc, files, request.check.algorithm)?;
    put_drawing(rt, alloc, files, &algo, request)
}
