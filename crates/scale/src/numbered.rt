// Scales whose marks are whole numbers in a row share one pick.
ghost use Rattle.std.specs.Prelude.{◌≡◌, ℤ};
ghost use Rattle.scale.specs.Numbered.{edge, picked_number};
ghost use Rattle.scale.specs.declared.numbered.Row.{Row};

use crate::cuts::Cut;

// The marks' numbers run from `least` to just below `past`.
#[derive(Clone, Copy)]
pub struct Row {
    pub least: i32,
    pub past: i64,
    pub rest: i32,
}

pub trait Numbered: Copy {
    const ROW: Row;

    ghost ROW: { Row };

    ghost number: { Self → ℤ };

    fn to_number(self) -> i32
        ensures { result ≡ number self };
}

// The number of the first mark behind a cut.
fn edge_of<S: Numbered>(cut: Cut<S>) -> i64
    ensures { result ≡ edge S.number S.ROW cut }
{
    match cut {
        Cut::LowerEnd => S::ROW.least as i64,
        Cut::Below(m) => m.to_number() as i64,
        Cut::Above(m) => m.to_number() as i64 + 1,
        Cut::UpperEnd => S::ROW.past,
    }
}

// The first number behind the lower cut, or the last before the upper one if the lower is an end.
pub fn pick_number<S: Numbered>(lower: Cut<S>, upper: Cut<S>) -> Option<i64>
    ensures { result ≡ picked_number S.number S.ROW lower upper }
{
    let first = edge_of(lower);
    let past = edge_of(upper);
    if first >= past {
        return None;
    }
    match (lower, upper) {
        (Cut::LowerEnd, Cut::UpperEnd) => Some(S::ROW.rest as i64),
        (Cut::LowerEnd, _) => Some(past - 1),
        _ => Some(first),
    }
}
