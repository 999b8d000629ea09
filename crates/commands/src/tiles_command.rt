//! The command that cuts an algorithm into tiles.

ghost use Rattle.std.specs.Prelude.{◌≡◌, ◌++◌, Some, IfErr, IfOk, OnErr, OnOk, decimal, length, map, slice_get, string_bytes};
ghost use Rattle.crop.specs.Inside.{IsInside};
ghost use Rattle.crop.specs.Scene.{scene_of};
ghost use Rattle.crop.specs.Tiling.{IsTiling};
ghost use Rattle.commands.specs.Asked.{tiles_asked};
ghost use Rattle.commands.specs.Crops.{IsPastLimit};
ghost use Rattle.commands.specs.Pictures.{IsOfDevice};
ghost use Rattle.commands.specs.Tilings.{AllInside, AllPut, ArePut, AreTiles, IsAdded, IsCutInto, IsDone, IsRefused, IsUntiled, KeepsKinds, SameBeside};
ghost use Rattle.commands.specs.Tilings.{IsCutPut, IsCutUnput, kind_name, kinds_of, line_told, list_name};

use crate::crop_command::{Part, scene_file, tile_at};
use crate::device::Files;
use crate::pipeline::Fault;
use crate::request::TilesRequest;
use crate::stream::flush;
use crop::laws::tiles_are_mosaic;
use crop::tiling::Tiling;
use crop::{Rect, Scene};
use indexmap::IndexSet;
use itoa::Buffer;
use pnm::PnmError;
use std::alloc::{AllocError, Global};
use std::io::Write;

/// The tiles of an algorithm.
#[derive(Drop)]
struct Tiles {
    /// The texts of the tiles' algorithms, each once, in the order in which they come first.
    kinds: IndexSet<String>,
    /// A line a tile.
    list: String,
    /// How many tiles there are.
    count: u64,
    /// How many samples the largest part of the input has.
    largest: u64,
}

/// Writes a number and a text behind it.
fn put_number(list: &mut String, number: u64, behind: &str) -> Result<(), AllocError>
    ensures { OnOk result (string_bytes list.new ≡ string_bytes list.old ++ (decimal number ++ behind.now)) }
{
    list.push_str(Buffer::new().format(number))?;
    list.push_str(behind)
}

/// Writes the line of a tile: its rectangle, the part of the input that it reads, and its kind.
fn put_line(list: &mut String, rect: Rect, part: Part, kind: usize) -> Result<(), AllocError>
    ensures { OnOk result (string_bytes list.new ≡ string_bytes list.old ++ line_told rect part kind) }
{
    put_number(list, u64::from(rect.x), " ")?;
    put_number(list, u64::from(rect.y), " ")?;
    put_number(list, u64::from(rect.width), " ")?;
    put_number(list, u64::from(rect.height), " ")?;
    put_number(list, u64::from(part.x), " ")?;
    put_number(list, u64::from(part.y), " ")?;
    put_number(list, part.width, " ")?;
    put_number(list, part.height, " ")?;
    put_number(list, kind as u64, "\n")
}

/// How many channels the input has.
fn channels(scene: &Scene) -> u64 {
    match scene.input_extents().get(2) {
        Some(count) => u64::from(*count),
        None => 1,
    }
}

/// The number of a text among the kinds, to which it is added if it is new.
fn kind_of(kinds: &mut IndexSet<String>, text: String) -> Result<usize, Fault>
    ensures kind { IfOk result (λ kind. slice_get (map string_bytes kinds.new.keys) kind ≡ Some (string_bytes text)) }
    ensures kept { OnOk result (KeepsKinds (map string_bytes kinds.old.keys) (map string_bytes kinds.new.keys)) }
    ensures refused { IfErr result IsPastLimit }
{
    let Ok((kind, _)) = kinds.insert_full(text) else {
        return Err(Fault::Memory);
    };
    Ok(kind)
}

/// Adds a tile.
fn add_tile(alloc: Global, scene: &Scene, rect: Rect, tiles: &mut Tiles) -> Result<(), Fault>
    requires { IsInside (scene_of scene.now).output_extents rect }
    ensures added { OnOk result (IsAdded (scene_of scene.now) rect tiles.old tiles.new) }
    ensures refused { IfErr result IsPastLimit }
{
    let tile = tile_at(alloc, scene, rect)?;
    let part = tile.part;
    let samples = part
        .width
        .saturating_mul(part.height)
        .saturating_mul(channels(scene));
    let kind = kind_of(&mut tiles.kinds, tile.text)?;
    put_line(&mut tiles.list, rect, part, kind)?;
    tiles.count = tiles.count.saturating_add(1);
    tiles.largest = tiles.largest.max(samples);
    Ok(())
}

/// All tiles, in raster order.
fn tiles_of(alloc: Global, scene: &Scene, tiling: Tiling) -> Result<Tiles, Fault>
    requires sides { IsTiling tiling }
    requires inside { AllInside (scene_of scene.now) tiling }
    ensures tiles { IfOk result (AreTiles (scene_of scene.now) tiling) }
    ensures refused { IfErr result IsPastLimit }
{
    let mut tiles = Tiles {
        kinds: IndexSet::new(alloc),
        list: String::new(alloc),
        count: 0,
        largest: 0,
    };
    for number in 0..tiling.count() {
        add_tile(alloc, scene, tiling.rect(number), &mut tiles)?;
    }
    Ok(tiles)
}

/// All tiles of these sides.
fn tiles_sized(alloc: Global, scene: &Scene, width: u32, height: u32) -> Result<Tiles, Fault>
    ensures tiles { IfOk result (IsCutInto (scene_of scene.now) width height) }
    ensures refused { IfErr result (IsUntiled (scene_of scene.now) width height) }
{
    let Some(tiling) = Tiling::new(scene.output_extents(), width, height) else {
        return Err(Fault::Outside);
    };
    scene.is_scene();
    tiles_are_mosaic();
    tiles_of(alloc, scene, tiling)
}

/// The name of the file of a kind.
fn kind_name(alloc: Global, folder: &str, kind: usize) -> Result<String, AllocError>
    ensures { IfOk result (λ name. string_bytes name ≡ kind_name folder.now kind) }
{
    let mut name = String::new(alloc);
    name.push_str(folder)?;
    name.push_str("/")?;
    name.push_str(Buffer::new().format(kind))?;
    name.push_str(".alg")?;
    Ok(name)
}

/// The name of the list.
fn list_name(alloc: Global, folder: &str) -> Result<String, AllocError>
    ensures { IfOk result (λ name. string_bytes name ≡ list_name folder.now) }
{
    let mut name = String::new(alloc);
    name.push_str(folder)?;
    name.push_str("/list")?;
    Ok(name)
}

/// Writes the texts of the kinds.
fn put_kinds<F: Files>(
    alloc: Global,
    files: &mut F,
    folder: &str,
    kinds: &[String],
) -> Result<(), Fault>
    ensures put { OnOk result (ArePut (F.contents files.old) (F.contents files.new) folder.now (map string_bytes kinds.now)) }
    ensures others { OnErr result (SameBeside (F.contents files.old) (F.contents files.new) folder.now (length (map string_bytes kinds.now))) }
    ensures device { IfErr result IsOfDevice }
{
    for (kind, text) in kinds.iter().enumerate() {
        let name = kind_name(alloc, folder, kind)?;
        files.put(name.as_str(), text.as_bytes())?;
    }
    Ok(())
}

/// How many samples the input has.
fn sample_count(scene: &Scene) -> u64 {
    let mut samples = 1_u64;
    for extent in scene.input_extents() {
        samples = samples.saturating_mul(u64::from(*extent));
    }
    samples
}

/// Tells how many tiles and kinds there are, and how large the largest part of the input is.
fn tell<W: Write>(out: &mut W, scene: &Scene, tiles: &Tiles) -> Result<(), Fault>
    ensures { IfErr result IsOfDevice }
{
    let samples = sample_count(scene);
    let told = writeln!(
        out,
        "{} tiles {} kinds, largest part {} of {samples} samples",
        tiles.count,
        tiles.kinds.len(),
        tiles.largest,
    );
    match told {
        Ok(()) => flush(out),
        Err(_) => Err(Fault::Image(PnmError::Device)),
    }
}

/// Writes the texts of the kinds, and the list last, after it is told how many there are.
fn put_tiles<F: Files, W: Write>(
    alloc: Global,
    files: &mut F,
    out: &mut W,
    folder: &str,
    scene: &Scene,
    tiles: &Tiles,
) -> Result<(), Fault>
    ensures put { OnOk result (AllPut (F.contents files.old) (F.contents files.new) folder.now (kinds_of tiles.now) (string_bytes tiles.now.list)) }
    ensures others { OnErr result (SameBeside (F.contents files.old) (F.contents files.new) folder.now (length (kinds_of tiles.now))) }
    ensures device { IfErr result IsOfDevice }
{
    put_kinds(alloc, files, folder, tiles.kinds.as_slice())?;
    let name = list_name(alloc, folder)?;
    tell(out, scene, tiles)?;
    files.put(name.as_str(), tiles.list.as_bytes())?;
    Ok(())
}

/// Writes the texts and the list of the tiles of an algorithm, once all of them are made.
fn put_cut<F: Files, W: Write>(
    alloc: Global,
    files: &mut F,
    out: &mut W,
    scene: &Scene,
    request: &TilesRequest<'_>,
) -> Result<(), Fault>
    ensures done { OnOk result (IsCutPut (F.contents files.old) (F.contents files.new) (tiles_asked request.now) (scene_of scene.now)) }
    ensures refused { IfErr result (IsCutUnput (F.contents files.old) (F.contents files.new) (tiles_asked request.now) (scene_of scene.now)) }
{
    let tiles = tiles_sized(alloc, scene, request.width, request.height)?;
    put_tiles(alloc, files, out, request.folder, scene, &tiles)
}

/// Cuts an algorithm into the algorithms of tiles. Texts that are equal are written once, each to a file of its own in the
/// folder, and the list of the tiles last, after everything else has succeeded.
///
/// # Errors
/// The first refusal: of the algorithm's text, then C1 where a side of a tile is 0 or longer than the output's, and C2 where
/// a tile's algorithm passes a limit of a text; until then nothing is written. A text that is not UTF-8 is one of the device,
/// and so is a folder that has no name.
pub fn tiles_command<F: Files, W: Write>(
    alloc: Global,
    files: &mut F,
    out: &mut W,
    request: &TilesRequest<'_>,
) -> Result<(), Fault>
    ensures done { OnOk result (IsDone (F.contents files.old) (F.contents files.new) (tiles_asked request.now)) }
    ensures refused { IfErr result (IsRefused (F.contents files.old) (F.contents files.new) (tiles_asked request.now)) }
{
    if request.folder.is_empty() {
        return Err(Fault::Image(PnmError::Device));
    }
    let scene = scene_file(alloc, files, request.algorithm)?;
    put_cut(alloc, files, out, &scene, request)
}
