// How a domain is held.
ghost use Rattle.std.specs.Prelude.{◌≤◌, vec_len, vec_capacity};

use crate::shapes::Orthotope;

// How many boxes a domain may have.
pub const MAX_BOXES: usize = 32;

// A list of boxes: a choice of limits is in the domain if it lies in one of them. All memory is taken when it is made. A formula
// is held in the same way; a type for both would need a contract for each method of a vector that they use.
#[derive(Drop)]
pub struct Domain<S> {
    pub(crate) boxes: Vec<Orthotope<S>>,
    ghost few: { vec_len boxes ≤ 32 },
    ghost room: { 32 ≤ vec_capacity boxes },
}

// A box would have been one too many.
#[derive(Clone, Copy, PartialEq, Eq, Debug)]
pub struct Full;
