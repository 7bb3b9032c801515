// The lists of all parts at one point, and the walk over the points.
ghost use Rattle.std.specs.Prelude.{◌≡◌, ◌<◌, ◌≤◌, [], length, replicate, IfOk, OnErr, vec_len};
ghost use Rattle.solver.specs.Complete.{Completes};
ghost use Rattle.solver.specs.Derived.{RowEnds, Solves, row_from, told};
ghost use Rattle.domain.specs.Listed.{boxes_of};
ghost use Rattle.formula.specs.Formulas.{parts_of};
ghost use Rattle.solver.specs.Labels.{Idle, Settles, labelled, row_of};
ghost use Rattle.solver.specs.Steps.{span};

use crate::labels::Scratch;
use crate::signs::signs_of;
use crate::solvers::{SolveFault, Solver};
use crate::steps::{Step, step_at};
use domain::{Domain, Full};
use formula::{Formula, MAX_PARTS};
use recording::Recording;
use scale::Scale;
use std::alloc::{AllocError, Global};

// As many empty domains as a formula can have parts.
fn row<S: Scale>(heap: Global) -> Result<Vec<Domain<S>>, AllocError>
    ensures { IfOk result (λ v. (vec_len v ≡ 24) × (row_of v ≡ replicate 24 [])) }
{
    let mut domains = Vec::with_capacity(heap, MAX_PARTS)?;
    for _made in 0..MAX_PARTS {
        domains.push_reserved(Domain::new(heap)?);
    }
    Ok(domains)
}

impl<S: Scale> Solver<S> {
    // No part has a box yet.
    pub fn new(heap: Global) -> Result<Solver<S>, AllocError>
        ensures { IfOk result (λ s. Idle s) }
    {
        let here = row(heap)?;
        let next = row(heap)?;
        let work = Domain::new(heap)?;
        let spare = Domain::new(heap)?;
        Ok(Solver {
            here,
            next,
            scratch: Scratch { work, spare },
        })
    }

    // The list of one part at a point goes to its place. Refused where it would have had a box too many.
    fn settle(&mut self, step: Step<S>, number: usize) -> Result<(), Full>
        requires span { span step ≤ number }
        requires number { number < 24 }
        ensures settled { Settles result (row_of self.old.here) number (labelled S.rank (row_of self.old.here) (row_of self.old.next) number step) (row_of self.new.here) }
        ensures same { self.new.next ≡ self.old.next }
    {
        self.scratch
            .label(step, number, self.here.as_slice(), self.next.as_slice())?;
        std::mem::swap(&mut self.here[number], &mut self.scratch.work);
        Ok(())
    }

    // The lists of all parts at a point, upwards. Refused at the part whose list would have had a box too many.
    fn settle_point<R: Recording<Mark = S>>(
        &mut self,
        recording: &R,
        point: usize,
        formula: &Formula<S>,
        signs: &[bool; MAX_PARTS],
    ) -> Result<(), SolveFault>
        ensures settled { RowEnds result (length (parts_of formula.now)) (row_of self.new.here) (told point (row_from S.rank (R.meaning recording.now).mark (R.meaning recording.now).points signs.now point (row_of self.old.next) (parts_of formula.now) [])) }
        ensures same { self.new.next ≡ self.old.next }
    {
        for (number, part) in formula.parts().iter().enumerate() {
            let step = step_at(recording, point, *part, signs[number]);
            let Ok(()) = self.settle(step, number) else {
                return Err(SolveFault::Full {
                    point,
                    part: number,
                });
            };
        }
        Ok(())
    }

    // The list of the formula at a point, and how many boxes it has. A refusal leaves the answer as it was.
    pub fn solve<R: Recording<Mark = S>>(
        &mut self,
        recording: &R,
        formula: &Formula<S>,
        point: usize,
        answer: &mut Domain<S>,
    ) -> Result<usize, SolveFault>
        ensures derived { Solves S.rank (R.meaning recording.now).mark (R.meaning recording.now).points (parts_of formula.now) result point (boxes_of answer.old) (boxes_of answer.new) }
        ensures kept { OnErr result (boxes_of answer.new ≡ boxes_of answer.old) }
        ensures complete { Completes S.rank (R.meaning recording.now).mark (R.meaning recording.now).points (parts_of formula.now) result point (boxes_of answer.new) }
    {
        if formula.is_blank() {
            return Err(SolveFault::Blank);
        }
        let points = recording.points();
        if point >= points {
            return Err(SolveFault::NoPoint);
        }
        let signs = signs_of(formula);
        for at in (point..points).rev() {
            self.settle_point(recording, at, formula, &signs)?;
            std::mem::swap(&mut self.here, &mut self.next);
        }
        std::mem::swap(answer, &mut self.next[formula.len() - 1]);
        Ok(answer.len())
    }
}
