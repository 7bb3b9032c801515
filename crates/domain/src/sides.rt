// How an interval is held.
use scale::Cut;

// What one limit may be: the marks between two cuts.
#[derive(Clone, Copy)]
pub struct Interval<S> {
    pub lower: Cut<S>,
    pub upper: Cut<S>,
}
