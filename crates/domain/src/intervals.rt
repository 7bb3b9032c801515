// Intervals: one side of a box.
ghost use Rattle.std.specs.Prelude.{◌≡◌, Decides};
ghost use Rattle.scale.specs.Cuts.{Between};
ghost use Rattle.domain.specs.Sides.{later_cut, earlier_cut, empty_side, contains_side, overlap_side, full_side};

use crate::sides::Interval;
use scale::{Cut, Scale, lies_between};

// The later of two cuts, here and below by `is_before`: a scale need not have the standard order, so cuts have none either.
fn later<S: Scale>(a: Cut<S>, b: Cut<S>) -> Cut<S>
    ensures { result ≡ later_cut S.rank a b }
{
    if a.is_before(b) { b } else { a }
}

// The earlier of two cuts.
fn earlier<S: Scale>(a: Cut<S>, b: Cut<S>) -> Cut<S>
    ensures { result ≡ earlier_cut S.rank a b }
{
    if b.is_before(a) { b } else { a }
}

impl<S: Scale> Interval<S> {
    // Every mark.
    pub fn full() -> Interval<S>
        ensures { result ≡ full_side }
    {
        Interval {
            lower: Cut::LowerEnd,
            upper: Cut::UpperEnd,
        }
    }

    // Whether the lower cut is not before the upper one. Between cuts in order there may still be no mark.
    pub fn is_empty(self) -> bool
        ensures { result ≡ empty_side S.rank self }
    {
        !self.lower.is_before(self.upper)
    }

    // Whether the lower cut is no later and the upper cut no earlier than the other's.
    pub fn contains(self, other: Interval<S>) -> bool
        ensures { result ≡ contains_side S.rank self other }
    {
        !other.lower.is_before(self.lower) && !self.upper.is_before(other.upper)
    }

    // The later lower cut and the earlier upper cut.
    pub fn overlap(self, other: Interval<S>) -> Interval<S>
        ensures { result ≡ overlap_side S.rank self other }
    {
        Interval {
            lower: later(self.lower, other.lower),
            upper: earlier(self.upper, other.upper),
        }
    }

    // Whether a mark lies in it.
    pub fn holds(self, mark: S) -> bool
        ensures { Decides result (Between S.rank self.lower self.upper mark) }
    {
        lies_between(mark, self.lower, self.upper)
    }
}
