// Boxes of limits, and lists of them: the domain on which a rule is true.
#![tactic(auto)]

mod choices;
mod domains;
mod intervals;
mod laws;
mod lists;
mod orthotopes;
mod shapes;
mod sides;

pub use laws::lists_cover;
pub use lists::{Domain, Full, MAX_BOXES};
pub use shapes::{Choice, Orthotope};
pub use sides::Interval;
