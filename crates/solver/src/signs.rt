// The sign of each part: a part under an odd number of negations is turned. Signs stand beside the parts and not in them, since
// an operator hands its own down by number, and a solve leaves the formula as it is.
ghost use Rattle.std.specs.Prelude.{◌≡◌, ◌≤◌, length};
ghost use Rattle.formula.specs.Formulas.{parts_of};
ghost use Rattle.formula.specs.Orders.{reach};
ghost use Rattle.solver.specs.Signs.{handed, part_signs};

use formula::{BinaryOperator, Formula, MAX_PARTS, Part, UnaryOperator};

// What an operator at this number makes of its operands' signs.
fn pass_down<K: Copy>(part: Part<K>, turned: bool, signs: &mut [bool])
    requires { reach part ≤ length signs.old }
    ensures { signs.new ≡ handed part turned signs.old }
{
    match part {
        Part::Comparison { .. } => {}
        Part::Unary {
            operator: UnaryOperator::Not,
            operand,
        } => signs[operand] = !turned,
        Part::Unary { operand, .. } => signs[operand] = turned,
        Part::Binary {
            operator: BinaryOperator::Implies,
            left,
            right,
        } => {
            signs[left] = !turned;
            signs[right] = turned;
        }
        Part::Binary { left, right, .. } => {
            signs[left] = turned;
            signs[right] = turned;
        }
    }
}

// The whole formula is not turned, and each operator hands its sign down.
pub(crate) fn signs_of<K: Copy>(formula: &Formula<K>) -> [bool; MAX_PARTS]
    ensures { result ≡ part_signs (parts_of formula.now) }
{
    let mut signs = [false; MAX_PARTS];
    for (number, part) in formula.parts().iter().enumerate().rev() {
        pass_down(*part, signs[number], &mut signs);
    }
    signs
}
