//! How many samples an image has along each dimension.

ghost use Rattle.std.specs.Prelude.{◌≡◌, ◌↔◌, IsTrue, pos, negsuc, MatchOption, ◌≤◌, ◌<◌, [], ◌∷◌, true, false};
ghost use Rattle.meaning.specs.Image.View.{AreExtents, IsExtent};
ghost use Rattle.meaning.specs.Image.Raster.{is_within, place};

// Whether a width or a height is one that an image can have.
fn is_extent(extent: u32) -> bool
    ensures { IsTrue result ↔ IsExtent extent }
{
    (1..=8192).contains(&extent)
}

/// Whether an image can have these extents.
pub(crate) fn are_extents(extents: &[u32]) -> bool
    ensures { IsTrue result ↔ AreExtents extents.now }
{
    match extents {
        [width] => is_extent(*width),
        [width, height] => is_extent(*width) && is_extent(*height),
        [width, height, colours] => is_extent(*width) && is_extent(*height) && *colours == 3,
        _ => false,
    }
}

// The coordinate, where it lies within the extent.
fn within(extent: u32, at: i64) -> Option<usize>
    ensures { MatchOption result (is_within (extent ∷ []) (at ∷ []) ≡ false) (λ n. (at ≡ pos n) × (n < extent)) }
{
    if 0 <= at && at < i64::from(extent) {
        Some(at as usize)
    } else {
        None
    }
}

// Where the sample stands in a raster of pixels with colours, if the point lies on it.
fn place_of_colour(width: u32, height: u32, colours: u32, x: i64, y: i64, z: i64) -> Option<usize>
    requires { AreExtents (width ∷ height ∷ colours ∷ []) }
    ensures { MatchOption result (is_within (width ∷ height ∷ colours ∷ []) (x ∷ y ∷ z ∷ []) ≡ false)
        (λ n. (is_within (width ∷ height ∷ colours ∷ []) (x ∷ y ∷ z ∷ []) ≡ true) × (n ≡ place (width ∷ height ∷ colours ∷ []) (x ∷ y ∷ z ∷ []))) }
{
    let x = within(width, x)?;
    let y = within(height, y)?;
    let z = within(colours, z)?;
    Some((y * width as usize + x) * colours as usize + z)
}

/// Where the point's sample stands in the raster, if the point lies on the extents.
pub(crate) fn place_of(extents: &[u32], at: &[i64]) -> Option<usize>
    requires { AreExtents extents.now }
    ensures { MatchOption result (is_within extents.now at.now ≡ false) (λ n. (is_within extents.now at.now ≡ true) × (n ≡ place extents.now at.now)) }
{
    match (extents, at) {
        ([width], [x]) => within(*width, *x),
        ([width, height], [x, y]) => {
            let x = within(*width, *x)?;
            let y = within(*height, *y)?;
            Some(y * *width as usize + x)
        }
        ([width, height, colours], [x, y, z]) => {
            place_of_colour(*width, *height, *colours, *x, *y, *z)
        }
        _ => None,
    }
}
