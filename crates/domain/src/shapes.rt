// How a box is held.
use crate::sides::Interval;

// A box: what each limit may be, whatever the others are. The field calls it an orthotope.
// Not an array of sides: the clone that is derived of one was tried, and is not proved where the kind of mark is open.
#[derive(Clone, Copy)]
pub struct Orthotope<S> {
    pub p: Interval<S>,
    pub q: Interval<S>,
    pub r: Interval<S>,
}

// One mark for each limit.
#[derive(Clone, Copy, PartialEq, Eq, Debug)]
pub struct Choice<S> {
    pub p: S,
    pub q: S,
    pub r: S,
}
