//! Which sizes have a text that is read as that size.

ghost use Rattle.std.specs.Prelude.{◌≡◌};
ghost use Rattle.spelling.specs.Sizes.Sizes as spec;

/// Sizes are below this.
const SIZE_BOUND: u64 = 1 << 63;

/// Whether the size takes at most 63 bits.
pub fn fits_size(size: u64) -> bool
    ensures { result ≡ spec.fits_size size }
{
    size < SIZE_BOUND
}

/// Whether each size takes at most 63 bits.
pub fn fits_sizes(sizes: &[u64]) -> bool
    ensures { result ≡ spec.fits_sizes sizes.now }
{
    sizes.iter().all(|size| fits_size(*size))
}
