// Solving: the lists of all parts, from the last point down to the one asked for.
ghost use Rattle.std.specs.Prelude.{◌≡◌, vec_len};

use crate::labels::Scratch;
use domain::Domain;

mod rows;

// The places of all lists. All memory is taken when it is made.
#[derive(Drop)]
pub struct Solver<S> {
    here: Vec<Domain<S>>,
    next: Vec<Domain<S>>,
    scratch: Scratch<S>,
    ghost level: { vec_len here ≡ 24 },
    ghost whole: { vec_len next ≡ 24 },
}

// Why there is no list.
#[derive(Clone, Copy, PartialEq, Eq, Debug)]
pub enum SolveFault {
    // The formula has no parts.
    Blank,
    // The recording has no such point.
    NoPoint,
    // The list of this part at this point would have had one box too many.
    Full { point: usize, part: usize },
}
