// The label of one part: its list of boxes at a point.
ghost use Rattle.std.specs.Prelude.{◌≡◌, ◌<◌, ◌≤◌, length};
ghost use Rattle.domain.specs.Added.{and_then, joined, met};
ghost use Rattle.solver.specs.Labels.{foreseen, labelled, lists_in, Ends};
ghost use Rattle.domain.specs.Listed.{boxes_of, reached};
ghost use Rattle.solver.specs.Steps.{outlook_span, span};

use crate::steps::{Outlook, Step};
use domain::{Domain, Full, Orthotope};
use scale::Scale;

// Where the list of a part is worked out. The rows `here` and `next`, of which one is changed in between, are lent to each call
// and not kept: a struct of the two would be made again each time.
#[derive(Drop)]
pub(crate) struct Scratch<S> {
    pub(crate) work: Domain<S>,
    pub(crate) spare: Domain<S>,
}

impl<S: Scale> Scratch<S> {
    // The right holds here, or the left does and it all holds at the next point.
    fn until(&mut self, left: &Domain<S>, right: &Domain<S>, next: &Domain<S>) -> Result<(), Full>
        ensures { Ends result (boxes_of self.new.work) (and_then (met S.rank (boxes_of next.now) (boxes_of left.now)) (λ held. joined S.rank (boxes_of right.now) held)) }
    {
        self.spare.meet(next, left)?;
        self.work.unite(right, &self.spare)
    }

    // Both hold here, or the left does and it all holds at the next point.
    fn weak_until(
        &mut self,
        left: &Domain<S>,
        right: &Domain<S>,
        next: &Domain<S>,
    ) -> Result<(), Full>
        ensures { Ends result (boxes_of self.new.work) (and_then (met S.rank (boxes_of left.now) (boxes_of right.now)) (λ both. and_then (met S.rank (boxes_of next.now) (boxes_of left.now)) (λ held. joined S.rank both held))) }
    {
        self.work.meet(left, right)?;
        self.spare.meet(next, left)?;
        self.work.join(&self.spare)
    }

    // What a part says of the points to come, from its own list at the next point.
    fn label_ahead(
        &mut self,
        outlook: Outlook,
        number: usize,
        here: &[Domain<S>],
        next: &[Domain<S>],
    ) -> Result<(), Full>
        requires span { outlook_span outlook ≤ length here.now }
        requires level { length next.now ≡ length here.now }
        requires number { number < length next.now }
        ensures { Ends result (boxes_of self.new.work) (foreseen S.rank (lists_in here.now) (lists_in next.now) number outlook) }
    {
        match outlook {
            Outlook::Next(a) => {
                self.work.copy_from(&next[a]);
                Ok(())
            }
            Outlook::Eventually(a) => self.work.unite(&here[a], &next[number]),
            Outlook::Always(a) => self.work.meet(&here[a], &next[number]),
            Outlook::Until { left, right } => self.until(&here[left], &here[right], &next[number]),
            Outlook::WeakUntil { left, right } => {
                self.weak_until(&here[left], &here[right], &next[number])
            }
        }
    }

    // The list of one part at a point.
    pub(crate) fn label(
        &mut self,
        step: Step<S>,
        number: usize,
        here: &[Domain<S>],
        next: &[Domain<S>],
    ) -> Result<(), Full>
        requires span { span step ≤ length here.now }
        requires level { length next.now ≡ length here.now }
        requires number { number < length next.now }
        ensures { Ends result (boxes_of self.new.work) (labelled S.rank (lists_in here.now) (lists_in next.now) number step) }
    {
        match step {
            Step::Bound(limit, side) => self.work.become_box(Orthotope::bounding(limit, side)),
            Step::Everything => self.work.become_box(Orthotope::full()),
            Step::Nothing => self.work.clear(),
            Step::Same(a) => self.work.copy_from(&here[a]),
            Step::Join(left, right) => return self.work.unite(&here[left], &here[right]),
            Step::Meet(left, right) => return self.work.meet(&here[left], &here[right]),
            Step::Later(outlook) => return self.label_ahead(outlook, number, here, next),
        }
        Ok(())
    }
}
