// A rule: blank when it is made, and then the formula of whatever text it last took.
ghost use Rattle.formula.specs.Assembly.{Whole};
ghost use Rattle.formula.specs.Formulas.{parts_of};

mod texts;

use formula::Formula;
use reader::Run;

// All memory is taken when a rule is made. `draft` and `fresh` are room to work in; nothing is told of them.
#[derive(Drop)]
pub struct Rule {
    formula: Formula<u32>,
    fresh: Formula<u32>,
    draft: Formula<Run>,
    ghost whole: { Whole (parts_of formula) },
}
