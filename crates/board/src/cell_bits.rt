//! The bits of values, as a piece gives them.

ghost use Rattle.std.specs.Prelude.{◌≡◌, ◌<◌, length, slice_index};
ghost use Rattle.board.specs.CellBits.{bits_in};

/// The bits of values of 32 bits, side by side. What goes over many of them takes the two kinds apart once a row, so that a loop is
/// over one kind.
#[derive(Clone, Copy, Drop)]
pub enum CellBits<'a> {
    /// In one byte each, where no other bit is set.
    Bytes(&'a [u8]),
    /// In words of 32 bits.
    Words(&'a [u32]),
}

impl CellBits<'_> {
    /// How many values there are.
    pub fn len(self) -> usize
        ensures { result ≡ length (bits_in self.entry) }
    {
        match self {
            CellBits::Bytes(bytes) => bytes.len(),
            CellBits::Words(words) => words.len(),
        }
    }

    /// The bits of one value.
    #[inline(always)]
    pub fn at(self, place: usize) -> u32
        requires { place < length (bits_in self) }
        ensures { result ≡ slice_index (bits_in self.entry) place }
    {
        match self {
            CellBits::Bytes(bytes) => u32::from(bytes[place]),
            CellBits::Words(words) => words[place],
        }
    }
}
