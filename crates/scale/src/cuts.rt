// A cut is a place between marks, or an end of the scale. Limits are bounded by cuts, so that no bound needs a mark of its own.
ghost use Rattle.std.specs.Prelude.{◌≡◌, Decides, nat_lt};
ghost use Rattle.scale.specs.Cuts.{place, Between};

use crate::scales::Scale;

// Cuts are compared by hand, through `is_before` of the scale. The derived order was tried, with a cut as an end or a mark with a
// side: it asks every kind of mark for `Ord`, and each cut took half as much memory again.
#[derive(Clone, Copy, PartialEq, Eq)]
pub enum Cut<S> {
    LowerEnd,
    Below(S),
    Above(S),
    UpperEnd,
}

impl<S: Scale> Cut<S> {
    pub fn is_before(self, other: Cut<S>) -> bool
        ensures { result ≡ nat_lt (place S.rank self) (place S.rank other) }
    {
        match (self, other) {
            (_, Cut::LowerEnd) => false,
            (Cut::LowerEnd, _) => true,
            (Cut::UpperEnd, _) => false,
            (_, Cut::UpperEnd) => true,
            (Cut::Below(m), Cut::Below(n)) => m.is_before(n),
            (Cut::Above(m), Cut::Above(n)) => m.is_before(n),
            (Cut::Above(m), Cut::Below(n)) => m.is_before(n),
            (Cut::Below(m), Cut::Above(n)) => !n.is_before(m),
        }
    }
}

// Whether a mark lies between two cuts.
pub fn lies_between<S: Scale>(mark: S, lower: Cut<S>, upper: Cut<S>) -> bool
    ensures { Decides result (Between S.rank lower upper mark) }
{
    !Cut::Below(mark).is_before(lower) && !upper.is_before(Cut::Above(mark))
}
