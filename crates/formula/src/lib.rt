// Formulas: what a rule says, as a list of parts.
#![tactic(auto)]

mod formulas;
mod parts;

pub use formulas::{Formula, MAX_PARTS, Misplaced};
pub use parts::{BinaryOperator, Comparator, Conversion, LimitName, Operand, Part, UnaryOperator};
