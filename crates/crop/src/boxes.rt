//! Boxes: tiles of the output, parts of the input, their origins and extents.

ghost use Rattle.std.specs.Prelude.{◌≡◌, ◌+◌, ◌++◌, ◌≤◌, IfOk, OnOk, IfSome};
ghost use Rattle.crop.specs.declared.cut.Stretch.{Stretch};
ghost use Rattle.crop.specs.Cutting.{extent_of, extents_of, IsPart, AreParts};
ghost use Rattle.crop.specs.Tile.{stretch_from, channels_whole, box_of};
ghost use Rattle.crop.specs.Inside.{IsSmall, AreSmall, IsSmallRect, IsRising, AreRising};

use crate::cropping::Rect;
use crate::cut::Stretch;
use std::alloc::{AllocError, Global};

/// From how many points in a dimension on a function stays where it is: twice the limit of an extent.
const MANY: i64 = 16_384;

// So many numbers from one on.
fn stretch_from(from: u32, count: u32) -> Stretch
    requires some { 1 ≤ count }
    requires small { from + count ≤ 2147483648 }
    ensures { result ≡ stretch_from from count }
{
    Stretch {
        low: from as i32,
        high: (from + (count - 1)) as i32,
    }
}

// All channels, each extent from its first number to its last.
fn put_channels(tile: &mut Vec<Stretch>, channels: &[u32]) -> Result<(), AllocError>
    requires { AreSmall channels.now }
    ensures { OnOk result (tile.new.items ≡ tile.old.items ++ channels_whole channels.now) }
{
    match channels {
        [] => Ok(()),
        [channel, channels @ ..] => {
            tile.push(stretch_from(0, *channel))?;
            put_channels(tile, channels)
        }
    }
}

/// A rectangle of an output of these extents as a box, with all channels.
pub(crate) fn tile_of(
    alloc: Global,
    extents: &[u32],
    rect: Rect,
) -> Result<Vec<Stretch>, AllocError>
    requires rect { IsSmallRect rect }
    requires extents { AreSmall extents.now }
    ensures { IfOk result (λ tile. tile.items ≡ box_of extents.now rect) }
{
    let mut tile = Vec::new(alloc);
    match extents {
        [] => Ok(tile),
        [_] => {
            tile.push(stretch_from(rect.x, rect.width))?;
            Ok(tile)
        }
        [_, _, channels @ ..] => {
            tile.push(stretch_from(rect.x, rect.width))?;
            tile.push(stretch_from(rect.y, rect.height))?;
            put_channels(&mut tile, channels)?;
            Ok(tile)
        }
    }
}

// The part of the input in one dimension: what is asked for cut to the extent, and where nothing is left the first cell.
fn part_side(asked: Stretch, extent: u32) -> Stretch
    requires { IsSmall extent }
    ensures { IsPart extent asked result }
{
    let last = (extent - 1) as i32;
    let low = asked.low.max(0);
    let high = asked.high.min(last);
    if low <= high {
        Stretch { low, high }
    } else {
        Stretch { low: 0, high: 0 }
    }
}

// All of the input in one dimension, whatever is asked for.
fn whole_side(extent: u32) -> Stretch
    requires { IsSmall extent }
    ensures { (asked : Stretch) → IsPart extent asked result }
{
    Stretch {
        low: 0,
        high: (extent - 1) as i32,
    }
}

// The part in one dimension, by its place: channels are whole.
fn part_at(place: usize, asked: Stretch, extent: u32) -> Stretch
    requires { IsSmall extent }
    ensures { IsPart extent asked result }
{
    if place < 2 {
        part_side(asked, extent)
    } else {
        whole_side(extent)
    }
}

/// The part of an input of these extents, with all channels; none where another number of dimensions is asked for.
pub(crate) fn part_of(
    alloc: Global,
    asked: &[Stretch],
    extents: &[u32],
) -> Result<Option<Vec<Stretch>>, AllocError>
    requires { AreSmall extents.now }
    ensures { IfOk result (λ found. IfSome found (λ part. AreParts extents.now asked.now part.items)) }
{
    if asked.len() != extents.len() {
        return Ok(None);
    }
    let mut part = Vec::new(alloc);
    for (place, extent) in extents.iter().enumerate() {
        part.push(part_at(place, asked[place], *extent))?;
    }
    Ok(Some(part))
}

/// The low corner; 0 in a dimension with many points.
pub(crate) fn origin_of(alloc: Global, region: &[Stretch]) -> Result<Vec<i32>, AllocError> {
    let mut origin = Vec::new(alloc);
    for stretch in region {
        let is_wide = i64::from(stretch.high) - i64::from(stretch.low) >= MANY - 1;
        origin.push(if is_wide { 0 } else { stretch.low })?;
    }
    Ok(origin)
}

// How many numbers a stretch has.
fn extent_of(stretch: Stretch) -> u32
    requires { IsRising stretch }
    ensures { result ≡ extent_of stretch }
{
    (stretch.high - stretch.low) as u32 + 1
}

// The extents of a box, behind others.
fn put_extents(found: &mut Vec<u32>, stretches: &[Stretch]) -> Result<(), AllocError>
    requires { AreRising stretches.now }
    ensures { OnOk result (found.new.items ≡ found.old.items ++ extents_of stretches.now) }
{
    match stretches {
        [] => Ok(()),
        [stretch, stretches @ ..] => {
            found.push(extent_of(*stretch))?;
            put_extents(found, stretches)
        }
    }
}

/// The extents of a box.
pub(crate) fn extents_of(alloc: Global, stretches: &[Stretch]) -> Result<Vec<u32>, AllocError>
    requires { AreRising stretches.now }
    ensures { IfOk result (λ found. found.items ≡ extents_of stretches.now) }
{
    let mut found = Vec::new(alloc);
    put_extents(&mut found, stretches)?;
    Ok(found)
}
