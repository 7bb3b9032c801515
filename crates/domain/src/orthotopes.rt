// Boxes: containment and overlap, side by side.
ghost use Rattle.std.specs.Prelude.{◌≡◌, slice_set};
ghost use Rattle.formula.specs.Parts.{limit_index};
ghost use Rattle.domain.specs.Boxes.{sides_of, full_box, empty_box, contains_box, overlap_box};

use crate::shapes::Orthotope;
use crate::sides::Interval;
use formula::LimitName;
use scale::Scale;

impl<S: Scale> Orthotope<S> {
    // Every choice of limits.
    pub fn full() -> Orthotope<S>
        ensures { sides_of result ≡ full_box }
    {
        Orthotope {
            p: Interval::full(),
            q: Interval::full(),
            r: Interval::full(),
        }
    }

    // The box that bounds one limit and leaves the others free.
    pub fn bounding(limit: LimitName, side: Interval<S>) -> Orthotope<S>
        ensures { sides_of result ≡ slice_set full_box (limit_index limit) side }
    {
        let mut bounds = Orthotope::full();
        match limit {
            LimitName::P => bounds.p = side,
            LimitName::Q => bounds.q = side,
            LimitName::R => bounds.r = side,
        }
        bounds
    }

    // Whether some side is empty.
    pub fn is_empty(&self) -> bool
        ensures { result ≡ empty_box S.rank (sides_of self.now) }
    {
        self.p.is_empty() || self.q.is_empty() || self.r.is_empty()
    }

    // Whether each side contains the other's.
    pub fn contains(&self, other: &Orthotope<S>) -> bool
        ensures { result ≡ contains_box S.rank (sides_of self.now) (sides_of other.now) }
    {
        self.p.contains(other.p) && self.q.contains(other.q) && self.r.contains(other.r)
    }

    // What lies in both.
    pub fn overlap(&self, other: &Orthotope<S>) -> Orthotope<S>
        ensures { sides_of result ≡ overlap_box S.rank (sides_of self.now) (sides_of other.now) }
    {
        Orthotope {
            p: self.p.overlap(other.p),
            q: self.q.overlap(other.q),
            r: self.r.overlap(other.r),
        }
    }
}
