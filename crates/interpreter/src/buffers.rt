//! The private memory of a piece: buffers of places, each of which holds a value or is unset.
//!
//! A buffer has so many places for each coordinate: some from an origin on, or some that are used again and again. All
//! its places lie in raster order, the first coordinate fastest. A place has a mark, a byte that says whether it is set and of which
//! type, and the value's number: in a byte as long as the buffer has held values of `u8` alone, so that a place takes 2 bytes, and in a
//! word of 32 bits from then on, so that it takes 6: the byte stays. A number that does not fit its type, which none is in a plan that
//! was accepted, stands apart. The memory for words and for such numbers is reserved and not touched before.

mod buffer;
mod held;
mod limit;
mod marks;
mod memory;
mod place_bits;
mod raster;
mod rising;
mod room;
mod setting;
mod spot;
mod stretch;
mod turning;
mod words;

pub(crate) use held::{Held, held_window, place_held};
pub use limit::Limit;
pub(crate) use marks::{Mark, narrow_mark, narrow_type};
pub use memory::Buffers;
pub(crate) use memory::larger;
pub use room::{Room, Rooms};
pub(crate) use spot::Spot;
