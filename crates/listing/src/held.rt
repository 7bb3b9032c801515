// How a listing is held.
ghost use Rattle.std.specs.Prelude.{◌≤◌, length};

use arrayvec::ArrayVec;

// The longest listing has fewer: a heading, and 32 lines of at most six comparisons of at most 19 bytes each.
pub(crate) const MOST_BYTES: usize = 4096;

// The text of a listing, held without memory of its own.
#[derive(Drop)]
pub struct Listing {
    pub(crate) text: ArrayVec<u8, MOST_BYTES>,
    // Whether a comparison stands on the last line already. Each function that adds other text
    // tells that it stays as it was: a type cannot tell it.
    pub(crate) begun: bool,
    // The vector says so only to those who open it.
    ghost within: { length text.items ≤ 4096 },
}
