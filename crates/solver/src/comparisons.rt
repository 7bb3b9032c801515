// What one comparison says of a limit, or of two marks.
ghost use Rattle.std.specs.Prelude.{◌≡◌};
ghost use Rattle.solver.specs.Comparisons.{side_of, meets};

use domain::Interval;
use formula::Comparator;
use scale::{Cut, Scale};

// The limits for which a mark compares so with the limit.
pub fn bounded_by<S: Scale>(mark: S, comparator: Comparator) -> Interval<S>
    ensures { result ≡ side_of comparator mark }
{
    let (lower, upper) = match comparator {
        Comparator::Less => (Cut::Above(mark), Cut::UpperEnd),
        Comparator::Greater => (Cut::LowerEnd, Cut::Below(mark)),
        Comparator::AtMost => (Cut::Below(mark), Cut::UpperEnd),
        Comparator::AtLeast => (Cut::LowerEnd, Cut::Above(mark)),
    };
    Interval { lower, upper }
}

// Whether a mark compares so with another.
pub fn compares<S: Scale>(mark: S, comparator: Comparator, other: S) -> bool
    ensures { result ≡ meets S.rank mark comparator other }
{
    match comparator {
        Comparator::Less => mark.is_before(other),
        Comparator::Greater => other.is_before(mark),
        Comparator::AtMost => !other.is_before(mark),
        Comparator::AtLeast => !mark.is_before(other),
    }
}
