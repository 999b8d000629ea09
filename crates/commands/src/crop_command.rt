//! The command that writes the algorithm of a tile.

ghost use Rattle.std.specs.Prelude.{◌≡◌, ◌⊎◌, IfErr, IfOk, OnOk, option_map, string_bytes};
ghost use Rattle.algo.specs.View.{algorithm_of};
ghost use Rattle.crop.specs.Scene.{IsSceneText, scene_of};
ghost use Rattle.commands.specs.Asked.{crop_asked};
ghost use Rattle.commands.specs.Crops.{IsDone, IsPastLimit, IsRefused, IsSceneFault, IsSceneFile, IsSceneRefused, IsTilePut, IsTileUnput, IsUncut, TextRefused};
ghost use Rattle.commands.specs.Files.{SameFiles};
ghost use Rattle.commands.specs.Formats.{IsCanonical};
ghost use Rattle.commands.specs.Pictures.{IsOfDevice};
ghost use Rattle.commands.specs.Tilings.{IsTileAt, extent_told, part_told, place_told};

use crate::device::{Files, put_file};
use crate::pipeline::Fault;
use crate::request::CropRequest;
use crate::stream::flush;
use algo::Algo;
use crop::{Rect, Scene, Stretch, crop};
use pnm::PnmError;
use printer::{WriteError, write};
use std::alloc::Global;
use std::io::{Error, Write};

/// A part of the input, as it is told: its low corner and its extents, in samples; 0 and 1 in the second place where the
/// input has one dimension.
#[derive(Clone, Copy, Drop)]
pub(crate) struct Part {
    pub x: u32,
    pub y: u32,
    pub width: u64,
    pub height: u64,
}

/// A tile: the canonical text of its algorithm, and the part of the input that it reads.
#[derive(Drop)]
pub(crate) struct Tile {
    pub text: String,
    pub part: Part,
}

/// Reads the text of an algorithm whose extents may pass the limit of a text.
fn scene_from(alloc: Global, text: &str) -> Result<Scene, Fault>
    ensures said { IfOk result (λ scene. IsSceneText text.now (scene_of scene)) }
    ensures refused { IfErr result (IsSceneRefused text.now) }
{
    Ok(Scene::read(alloc, text)?)
}

/// Reads the bytes of an algorithm file.
fn scene_in(alloc: Global, bytes: &[u8]) -> Result<Scene, Fault>
    ensures said { IfOk result (λ scene. IsSceneText bytes.now (scene_of scene)) }
    ensures refused { IfErr result (IsSceneFault bytes.now) }
{
    match str::from_utf8(bytes) {
        Ok(text) => scene_from(alloc, text),
        Err(_) => Err(Fault::Image(PnmError::Device)),
    }
}

/// Reads an algorithm file, whose extents may pass the limit of a text.
pub(crate) fn scene_file<F: Files>(alloc: Global, files: &mut F, name: &str) -> Result<Scene, Fault>
    ensures said { IfOk result (λ scene. IsSceneFile (F.contents files.old) name.now (scene_of scene)) }
    ensures refused { IfErr result (λ fault. IsOfDevice fault ⊎ TextRefused (F.contents files.old) name.now fault) }
    ensures same { SameFiles (F.contents files.old) (F.contents files.new) }
{
    let bytes = files.get(alloc, name)?;
    scene_in(alloc, bytes.as_slice())
}

/// The refusal of an algorithm whose text passes a limit.
fn past_limit(algo: &Algo) -> Fault
    ensures { IsPastLimit result }
{
    match algo.output().name.clone() {
        Ok(name) => Fault::Uncut { name },
        Err(_) => Fault::Memory,
    }
}

/// The canonical text of a tile's algorithm.
fn tile_text(alloc: Global, algo: &Algo) -> Result<String, Fault>
    ensures canonical { IfOk result (λ text. IsCanonical (algorithm_of algo.now) (string_bytes text)) }
    ensures refused { IfErr result IsPastLimit }
{
    match write(alloc, algo) {
        Ok(text) => Ok(text),
        Err(WriteError::Memory) => Err(Fault::Memory),
        Err(_) => Err(past_limit(algo)),
    }
}

/// Where a stretch begins, and how many numbers it has; 0 and 1 where there is none.
fn side_of(stretch: Option<&Stretch>) -> (u32, u64)
    ensures place { result.0 ≡ place_told (option_map (λ e. e.now) stretch.entry) }
    ensures extent { result.1 ≡ extent_told (option_map (λ e. e.now) stretch.entry) }
{
    match stretch {
        Some(stretch) => (
            stretch.low.unsigned_abs(),
            u64::from(stretch.high.abs_diff(stretch.low)) + 1,
        ),
        None => (0, 1),
    }
}

/// The part that the stretches are, channels aside.
fn part_of(stretches: &[Stretch]) -> Part
    ensures { result ≡ part_told stretches.now }
{
    let (x, width) = side_of(stretches.first());
    let (y, height) = side_of(stretches.get(1));
    Part {
        x,
        y,
        width,
        height,
    }
}

/// The tile of an algorithm at a rectangle of its output.
pub(crate) fn tile_at(alloc: Global, scene: &Scene, rect: Rect) -> Result<Tile, Fault>
    ensures tile { IfOk result (IsTileAt (scene_of scene.now) rect) }
    ensures refused { IfErr result (IsUncut (scene_of scene.now) rect) }
{
    let (cut, stretches) = crop(alloc, scene, rect)?;
    let text = tile_text(alloc, &cut)?;
    let part = part_of(stretches.as_slice());
    Ok(Tile { text, part })
}

fn write_part<W: Write>(out: &mut W, name: &str, part: Part) -> Result<(), Error> {
    writeln!(
        out,
        "{name} {} {} {} {}",
        part.x, part.y, part.width, part.height
    )
}

/// Tells which part of the input is read.
fn tell<W: Write>(out: &mut W, name: &str, part: Part) -> Result<(), Fault>
    ensures { IfErr result IsOfDevice }
{
    match write_part(out, name, part) {
        Ok(()) => flush(out),
        Err(_) => Err(Fault::Image(PnmError::Device)),
    }
}

/// The same beside a text of that name: on standard error where the text goes to standard output.
fn tell_beside<W: Write, E: Write>(
    out: &mut W,
    err: &mut E,
    output: &str,
    name: &str,
    part: Part,
) -> Result<(), Fault>
    ensures { IfErr result IsOfDevice }
{
    if output == "-" {
        tell(err, name, part)
    } else {
        tell(out, name, part)
    }
}

/// Tells the part of the tile that is asked for, and writes its text last.
fn put_tile<F: Files, W: Write, E: Write>(
    alloc: Global,
    files: &mut F,
    out: &mut W,
    err: &mut E,
    scene: &Scene,
    request: &CropRequest<'_>,
) -> Result<(), Fault>
    ensures done { OnOk result (IsTilePut (F.contents files.old) (F.contents files.new) (crop_asked request.now) (scene_of scene.now)) }
    ensures refused { IfErr result (IsTileUnput (F.contents files.old) (F.contents files.new) (crop_asked request.now) (scene_of scene.now)) }
{
    let tile = tile_at(alloc, scene, request.rect)?;
    let name = scene.algo().input().name.as_str();
    tell_beside(out, err, request.output, name, tile.part)?;
    put_file(files, request.output, tile.text.as_bytes())
}

/// Writes the canonical text of the algorithm of a tile of the output, and tells which part of the input it reads: on
/// standard error where the text itself goes to standard output. The text is written last, after everything else has
/// succeeded.
///
/// # Errors
/// The first refusal: of the algorithm's text, then C1 where the rectangle is empty or leaves the output, and C2 where the
/// tile's algorithm passes a limit of a text; a text that is not UTF-8 is one of the device.
pub fn crop_command<F: Files, W: Write, E: Write>(
    alloc: Global,
    files: &mut F,
    out: &mut W,
    err: &mut E,
    request: &CropRequest<'_>,
) -> Result<(), Fault>
    ensures done { OnOk result (IsDone (F.contents files.old) (F.contents files.new) (crop_asked request.now)) }
    ensures refused { IfErr result (IsRefused (F.contents files.old) (F.contents files.new) (crop_asked request.now)) }
{
    let scene = scene_file(alloc, files, request.algorithm)?;
    put_tile(alloc, files, out, err, &scene, request)
}
