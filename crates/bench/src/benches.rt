// How a bench is held.
ghost use Rattle.formula.specs.Assembly.{Whole};
ghost use Rattle.formula.specs.Formulas.{parts_of};
ghost use Rattle.domain.specs.Listed.{boxes_of};
ghost use Rattle.bench.specs.Fresh.{Fresh};

use domain::Domain;
use formula::Formula;
use recording::Recording;
use solver::Solver;

// A recording with the rule that is set on it and the list of the solve that stands, which is never older than either. All
// memory is taken when it is made.
#[derive(Drop)]
pub struct Bench<R: Recording> {
    pub(crate) recording: R,
    pub(crate) formula: Formula<R::Mark>,
    pub(crate) fresh: Formula<R::Mark>,
    pub(crate) solver: Solver<R::Mark>,
    pub(crate) standing: Domain<R::Mark>,
    // The point of the solve that stands. The list keeps its memory while none does, so the two are no Option of both.
    pub(crate) solved: Option<usize>,
    ghost whole: { Whole (parts_of formula) },
    ghost stands: { Fresh R.Mark.rank (R.meaning recording) (parts_of formula) solved (boxes_of standing) },
}
