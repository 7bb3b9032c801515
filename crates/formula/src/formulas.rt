// A formula as the list of its parts, numbered from 0: left operand, right operand, then operator. The last part is the
// whole formula, and a formula without parts is blank.
ghost use Rattle.std.specs.Prelude.{◌≤◌, vec_len, vec_capacity};
ghost use Rattle.formula.specs.Orders.{Ordered};

use crate::parts::Part;

mod methods;

// The most parts that a formula can have.
pub const MAX_PARTS: usize = 24;

// All memory is taken when a formula is made, so no later change can want for it. A tree of boxes would take it part by part,
// and the numbers of parts are promised: refusals tell them. It has ghost fields and no model, so that all who hold a formula
// know of its parts that they are few and in order.
#[derive(Drop)]
pub struct Formula<K> {
    parts: Vec<Part<K>>,
    ghost few: { vec_len parts ≤ 24 },
    ghost room: { 24 ≤ vec_capacity parts },
    ghost ordered: { Ordered parts.items },
}

// Why a part was not taken: there is no room for one more, or an operand does not come before the part.
#[derive(Clone, Copy, PartialEq, Eq, Debug)]
pub struct Misplaced;
