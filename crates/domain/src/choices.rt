// Choices of limits: whether a domain covers one, and which one it offers.
ghost use Rattle.std.specs.Prelude.{◌≡◌, Decides};
ghost use Rattle.domain.specs.Boxes.{sides_of};
ghost use Rattle.domain.specs.Covering.{Covered, In};
ghost use Rattle.domain.specs.Listed.{boxes_of, sides_in};
ghost use Rattle.domain.specs.Picking.{Finds, chosen, first_picked, marks_of, picks_of};

use crate::lists::Domain;
use crate::shapes::{Choice, Orthotope};
use crate::sides::Interval;
use scale::Scale;

impl<S: Scale> Interval<S> {
    // The mark that the scale picks in it, if there is one.
    pub fn pick(self) -> Option<S>
        ensures { result ≡ S.picked self.lower self.upper }
    {
        S::pick(self.lower, self.upper)
    }
}

impl<S: Scale> Orthotope<S> {
    // Whether each mark lies in its side.
    pub fn holds(&self, choice: Choice<S>) -> bool
        ensures { Decides result (In S.rank (marks_of choice) (sides_of self.now)) }
    {
        self.p.holds(choice.p) && self.q.holds(choice.q) && self.r.holds(choice.r)
    }

    // The pick of each side, where all three have one.
    pub fn pick(&self) -> Option<Choice<S>>
        ensures { chosen result ≡ picks_of S.picked (sides_of self.now) }
    {
        let p = self.p.pick()?;
        let q = self.q.pick()?;
        let r = self.r.pick()?;
        Some(Choice { p, q, r })
    }
}

impl<S: Scale> Domain<S> {
    // Whether the marks lie together in one box.
    pub fn covers(&self, choice: Choice<S>) -> bool
        ensures { Decides result (Covered S.rank (marks_of choice) (boxes_of self.now)) }
    {
        some_holds(self.boxes(), choice)
    }

    // The picks of the first box that has them.
    pub fn find(&self) -> Option<Choice<S>>
        ensures value { chosen result ≡ first_picked S.picked (boxes_of self.now) }
        ensures found { Finds S.rank 3 (boxes_of self.now) (chosen result) }
    {
        first_picks(self.boxes())
    }
}

// `any` and `find_map` were tried: of a closure over an open kind of mark the check knows only what it states, which `holds` and
// `pick` state already.
fn some_holds<S: Scale>(boxes: &[Orthotope<S>], choice: Choice<S>) -> bool
    ensures { Decides result (Covered S.rank (marks_of choice) (sides_in boxes.now)) }
{
    for b in boxes {
        if b.holds(choice) {
            return true;
        }
    }
    false
}

fn first_picks<S: Scale>(boxes: &[Orthotope<S>]) -> Option<Choice<S>>
    ensures value { chosen result ≡ first_picked S.picked (sides_in boxes.now) }
    ensures found { Finds S.rank 3 (sides_in boxes.now) (chosen result) }
{
    for b in boxes {
        let marks = b.pick();
        if marks.is_some() {
            return marks;
        }
    }
    None
}
