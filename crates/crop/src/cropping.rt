//! From an algorithm and a rectangle of its output to the algorithm of the tile.

ghost use Rattle.std.specs.Prelude.{◌≡◌, ◌↔◌, ◌+◌, ◌≤◌, IfOk, IfErr, IsTrue, Err, length};
ghost use Rattle.algo.specs.View.{algorithm_of};
ghost use Rattle.crop.specs.declared.error.CropError.TheVariants.{Outside};
ghost use Rattle.crop.specs.Cutting.{AreParts, algorithm_cut};
ghost use Rattle.crop.specs.View.{cut_of};
ghost use Rattle.crop.specs.Scene.{scene_of};
ghost use Rattle.crop.specs.Tile.{box_of, IsTileOf};
ghost use Rattle.crop.specs.Inside.{IsWithin, IsInside, AreRising};
ghost use Rattle.crop.specs.Mosaic.{CutsPictures};
ghost use Rattle.crop.specs.Rebuilt.{IsKept};

use crate::asking::{Asked, all_asked};
use crate::boxes::{extents_of, origin_of, part_of, tile_of};
use crate::closing::is_kept;
use crate::cut::{Cut, Kept, Stretch};
use crate::cutting::functions_cut;
use crate::error::CropError;
use crate::lookup::lows;
use crate::rebuilding::is_rebuilt;
use crate::scene::Scene;
use crate::text::{Written, text_of};
use algo::{Algo, AlgoError, Function};
use std::alloc::{AllocError, Global};

/// A rectangle of the output, in samples: `width` by `height` at `x`, `y`. An output of one dimension has `y` 0 and
/// `height` 1; channels are never cut.
#[derive(Clone, Copy, PartialEq, Eq, Drop)]
pub struct Rect {
    pub x: u32,
    pub y: u32,
    pub width: u32,
    pub height: u32,
}

/// The most that an extent in an algorithm's text may be.
const MOST_EXTENT: u32 = 8192;

/// The most bytes of an algorithm's text.
const MOST_BYTES: usize = 65_536;

// Whether so many samples from one on, one or more, lie within the extent.
fn is_within(from: u32, count: u32, extent: u32) -> bool
    ensures { IsTrue result ↔ IsWithin from count extent }
{
    1 <= count && from <= extent && count <= extent - from
}

// Whether the rectangle has samples and lies within the extents.
fn is_inside(extents: &[u32], rect: Rect) -> bool
    ensures { IsTrue result ↔ IsInside extents.now rect }
{
    match extents {
        [] => false,
        [width] => is_within(rect.x, rect.width, *width) && rect.y == 0 && rect.height == 1,
        [width, height, ..] => {
            is_within(rect.x, rect.width, *width) && is_within(rect.y, rect.height, *height)
        }
    }
}

// The refusal that tells the name.
fn limit(name: &String) -> CropError
    ensures { result ≡ Outside → ⊥ }
{
    match name.clone() {
        Ok(name) => CropError::Limit { name },
        Err(_) => CropError::Memory,
    }
}

// What is kept of a function: its region, and its low corner as the origin to which it is moved, for the output the tile's.
fn kept_at(
    alloc: Global,
    region: Vec<Stretch>,
    is_output: bool,
    tile: &[Stretch],
) -> Result<Kept, AllocError> {
    let origin = if is_output {
        lows(alloc, tile)?
    } else {
        origin_of(alloc, &region)?
    };
    Ok(Kept { region, origin })
}

// What is kept of each function.
fn kept_of(
    alloc: Global,
    algo: &Algo,
    regions: Vec<Option<Vec<Stretch>>>,
    tile: &[Stretch],
) -> Result<Vec<Option<Kept>>, AllocError> {
    let output = algo.funcs().get_index_of(&algo.output().name);
    let mut kept = Vec::new(alloc);
    for region in regions {
        let is_output = output == Some(kept.len());
        kept.push(match region {
            Some(region) => Some(kept_at(alloc, region, is_output, tile)?),
            None => None,
        })?;
    }
    Ok(kept)
}

// The first cell of the input, which is asked for where nothing is.
fn first_cell(alloc: Global, count: usize) -> Result<Vec<Stretch>, AllocError> {
    let mut cell = Vec::new(alloc);
    for _place in 0..count {
        cell.push(Stretch { low: 0, high: 0 })?;
    }
    Ok(cell)
}

// What is cut of the scene for the rectangle.
fn cut_of(alloc: Global, scene: &Scene, rect: Rect) -> Result<Cut, CropError>
    requires { IsInside (scene_of scene.now).output_extents rect }
    ensures tile { IfOk result (λ cut. (cut_of cut).tile ≡ box_of (scene_of scene.now).output_extents rect) }
    ensures parts { IfOk result (λ cut. AreParts (scene_of scene.now).input_extents (cut_of cut).asked (cut_of cut).part) }
    ensures inside { IfErr result (λ e. e ≡ Outside → ⊥) }
{
    scene.is_scene();
    let algo = scene.algo();
    let tile = tile_of(alloc, scene.output_extents(), rect)?;
    let Asked { functions, input } = all_asked(alloc, algo, &tile)?;
    let input = match input {
        Some(input) => input,
        None => first_cell(alloc, scene.input_extents().len())?,
    };
    let Some(part) = part_of(alloc, &input, scene.input_extents())? else {
        return Err(limit(&algo.output().name));
    };
    Ok(Cut {
        kept: kept_of(alloc, algo, functions, &tile)?,
        asked: input,
        part,
        tile,
    })
}

// The name of what stands at a place of the text: the input, a function, or the output.
fn name_at<'a>(
    algo: &'a Algo,
    functions: &'a [(String, Function)],
    ends: &[usize],
    place: usize,
) -> &'a String {
    let before = ends.iter().filter(|end| **end <= place).count();
    let Some(number) = before.checked_sub(1) else {
        return &algo.input().name;
    };
    match functions.get(number) {
        Some((name, _)) => name,
        None => &algo.output().name,
    }
}

// The algorithm that is read from the text.
fn read_text(
    alloc: Global,
    algo: &Algo,
    functions: &[(String, Function)],
    written: &Written,
) -> Result<Algo, CropError>
    ensures { IfErr result (λ e. e ≡ Outside → ⊥) }
{
    if written.text.len() > MOST_BYTES {
        return Err(limit(&algo.output().name));
    }
    match Algo::read(alloc, written.text.as_str()) {
        Ok(read) => Ok(read),
        Err(AlgoError::Memory) => Err(CropError::Memory),
        Err(AlgoError::Refused { span, .. }) => {
            Err(limit(name_at(algo, functions, &written.ends, span.start)))
        }
    }
}

// Whether an extent is past the limit.
fn is_wide(extents: &[u32]) -> bool {
    for extent in extents {
        if *extent > MOST_EXTENT {
            return true;
        }
    }
    false
}

// The cut algorithm, read from its text.
fn read_tile(alloc: Global, algo: &Algo, cut: &Cut) -> Result<Algo, CropError>
    requires each { length (cut_of cut.now).kept ≡ length (algorithm_of algo.now).functions }
    requires part { AreRising (cut_of cut.now).part }
    requires tile { AreRising (cut_of cut.now).tile }
    ensures cut { IfOk result (λ read. algorithm_of read ≡ algorithm_cut (algorithm_of algo.now) (cut_of cut.now)) }
    ensures inside { IfErr result (λ e. e ≡ Outside → ⊥) }
{
    let functions = functions_cut(alloc, algo, cut)?;
    let input_extents = extents_of(alloc, &cut.part)?;
    let output_extents = extents_of(alloc, &cut.tile)?;
    if is_wide(&input_extents) {
        return Err(limit(&algo.input().name));
    }
    let written = text_of(alloc, algo, &input_extents, &functions, &output_extents)?;
    let read = read_text(alloc, algo, &functions, &written)?;
    if is_rebuilt(&read, algo, &input_extents, &functions, &output_extents) {
        Ok(read)
    } else {
        Err(limit(&algo.output().name))
    }
}

// The cut algorithm, where what is kept is closed.
fn closed_tile(alloc: Global, algo: &Algo, cut: &Cut) -> Result<Algo, CropError>
    requires part { AreRising (cut_of cut.now).part }
    requires tile { AreRising (cut_of cut.now).tile }
    ensures cut { IfOk result (λ read. algorithm_of read ≡ algorithm_cut (algorithm_of algo.now) (cut_of cut.now)) }
    ensures kept { IfOk result (λ _. IsKept (algorithm_of algo.now) (cut_of cut.now)) }
    ensures inside { IfErr result (λ e. e ≡ Outside → ⊥) }
{
    if !is_kept(alloc, algo, cut)? {
        return Err(limit(&algo.output().name));
    }
    read_tile(alloc, algo, cut)
}

// The algorithm of the tile of a rectangle that lies in the output, and the part of the input that it reads.
fn tile_inside(alloc: Global, scene: &Scene, rect: Rect) -> Result<(Algo, Vec<Stretch>), CropError>
    requires { IsInside (scene_of scene.now).output_extents rect }
    ensures tile { IfOk result (λ r. IsTileOf (scene_of scene.now) rect (algorithm_of r.0) r.1.items) }
    ensures inside { IfErr result (λ e. e ≡ Outside → ⊥) }
{
    scene.is_scene();
    let cut = cut_of(alloc, scene, rect)?;
    let tile = closed_tile(alloc, scene.algo(), &cut)?;
    Ok((tile, cut.part))
}

/// The algorithm of a tile of the output, and the part of the input that it reads, a stretch a dimension.
///
/// # Errors
/// `Outside` where the rectangle is empty or leaves the output's extents; `Limit` where the tile's algorithm passes a limit
/// of an algorithm's text, or where bounds that it takes pass the limits of linear forms; `Memory` where memory runs out.
pub fn crop(alloc: Global, scene: &Scene, rect: Rect) -> Result<(Algo, Vec<Stretch>), CropError>
    // The algorithm is that of the tile, on the part of the input that is told.
    ensures law { IfOk result (λ r. IsTileOf (scene_of scene.now) rect (algorithm_of r.0) r.1.items) }
    // Of each image, its picture on that part is the picture of the whole, cut to the rectangle.
    ensures pictures { IfOk result (λ r. CutsPictures (scene_of scene.now) rect (algorithm_of r.0) r.1.items) }
    ensures outside { result ≡ Err Outside ↔ (IsInside (scene_of scene.now).output_extents rect → ⊥) }
{
    if !is_inside(scene.output_extents(), rect) {
        return Err(CropError::Outside);
    }
    scene.is_scene();
    tile_inside(alloc, scene, rect)
}
