//! The rectangles into which an output is cut.

ghost use Rattle.std.specs.Prelude.{◌≡◌, ◌<◌, ◌*◌, IfSome};
ghost use Rattle.crop.specs.Tiling.{IsTiling, TilesArePartition, rect_at, side_count, side_length, tile_count, tiling_of};

use crate::cropping::Rect;

/// An output that is cut into tiles of one size: in raster order from the top left corner, those of the last column narrower
/// and those of the last row lower where the sides don't divide.
#[derive(Clone, Copy, PartialEq, Eq, Drop)]
pub struct Tiling {
    width: u32,
    height: u32,
    tile_width: u32,
    tile_height: u32,
}

/// How many tiles lie side by side.
fn side_count(extent: u32, tile: u32) -> u64
    requires { 0 < tile }
    ensures { result ≡ side_count extent tile }
{
    (u64::from(extent) + u64::from(tile) - 1) / u64::from(tile)
}

/// Where the tile of this place begins on its side, and how long it is.
fn side_at(extent: u32, tile: u32, place: u64) -> (u32, u32)
    requires { place < side_count extent tile }
    ensures from { result.0 ≡ place * tile }
    ensures length { result.1 ≡ side_length extent tile (place * tile) }
{
    let from = place * u64::from(tile);
    let left = u64::from(extent) - from;
    (from as u32, left.min(u64::from(tile)) as u32)
}

impl Tiling {
    /// The tiles, so many samples wide and high, of an output of these extents, which has a height of 1 where it has one
    /// dimension. `None` where a side of a tile is 0 or longer than the output's.
    pub fn new(extents: &[u32], tile_width: u32, tile_height: u32) -> Option<Tiling>
        ensures tiles { result ≡ tiling_of extents.now tile_width tile_height }
        ensures sides { IfSome result IsTiling }
    {
        let width = *extents.first()?;
        let height = match extents.get(1) {
            Some(height) => *height,
            None => 1,
        };
        if tile_width == 0 || tile_width > width || tile_height == 0 || tile_height > height {
            return None;
        }
        Some(Tiling {
            width,
            height,
            tile_width,
            tile_height,
        })
    }

    /// How many tiles there are.
    pub fn count(self) -> u64
        requires { IsTiling self }
        ensures { result ≡ tile_count self }
    {
        side_count(self.width, self.tile_width) * side_count(self.height, self.tile_height)
    }

    /// The rectangle of the tile of this number, counted from 0 in raster order.
    pub fn rect(self, number: u64) -> Rect
        requires sides { IsTiling self }
        requires known { number < tile_count self }
        ensures { result ≡ rect_at self number }
    {
        let columns = side_count(self.width, self.tile_width);
        let (x, width) = side_at(self.width, self.tile_width, number % columns);
        let (y, height) = side_at(self.height, self.tile_height, number / columns);
        Rect {
            x,
            y,
            width,
            height,
        }
    }
}

/// The tiles are a partition of the output: each sample lies in one of them, and in no other.
pub fn tiles_are_partition()
    ensures { TilesArePartition }
{}
