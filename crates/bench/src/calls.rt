// The calls of a bench. Those with a law leave their work to a function without, so that the law is shown once for all exits.
ghost use Rattle.std.specs.Prelude.{◌≡◌, ◌≤◌, [], length, true, is_some, IfOk, MatchResult, None, OnErr};
ghost use Rattle.formula.specs.Formulas.{parts_of};
ghost use Rattle.domain.specs.Listed.{boxes_of};
ghost use Rattle.rule.specs.Rules.{rule_parts};
ghost use Rattle.bench.specs.Printed.{Prints};
ghost use Rattle.bench.specs.Laws.{SetLaw, SolveLaw};
ghost use Rattle.bench.specs.Sets.{Sets};
ghost use Rattle.bench.specs.Solved.{Solved};

use crate::benches::Bench;
use crate::faults::BenchFault;
use crate::settings::fit_parts;
use domain::Domain;
use formula::Formula;
use listing::Listing;
use recording::Recording;
use rule::Rule;
use solver::Solver;
use std::alloc::{AllocError, Global};

impl<R: Recording> Bench<R> {
    // A bench with no rule, unsolved.
    pub fn new(heap: Global, recording: R) -> Result<Bench<R>, AllocError>
    where
        R: Drop,
        ensures { IfOk result (λ b. (b.recording ≡ recording) × (parts_of b.formula ≡ []) × (b.solved ≡ None)) }
    {
        let formula = Formula::new(heap)?;
        let fresh = Formula::new(heap)?;
        let solver = Solver::new(heap)?;
        let standing = Domain::new(heap)?;
        Ok(Bench {
            recording,
            formula,
            fresh,
            solver,
            standing,
            solved: None,
        })
    }

    // Takes a rule over. Each part is checked; a refused rule leaves the one before in force.
    pub fn set(&mut self, rule: Rule) -> Result<(), BenchFault>
        ensures rule { Sets R.Mark.named (R.meaning self.old.recording).channels (rule_parts rule) result (parts_of self.old.formula) (parts_of self.new.formula) self.old.solved self.new.solved }
        ensures recording { self.new.recording ≡ self.old.recording }
        ensures standing { self.new.standing ≡ self.old.standing }
        ensures law { SetLaw R.Mark.rank R.meaning R.Mark.named self.old (rule_parts rule) result self.new }
    {
        self.put_in_force(rule)
    }

    fn put_in_force(&mut self, rule: Rule) -> Result<(), BenchFault>
        ensures rule { Sets R.Mark.named (R.meaning self.old.recording).channels (rule_parts rule) result (parts_of self.old.formula) (parts_of self.new.formula) self.old.solved self.new.solved }
        ensures recording { self.new.recording ≡ self.old.recording }
        ensures standing { self.new.standing ≡ self.old.standing }
    {
        if rule.is_blank() {
            return Err(BenchFault::NoRule);
        }
        fit_parts(rule.formula(), self.recording.channels(), &mut self.fresh)?;
        std::mem::swap(&mut self.formula, &mut self.fresh);
        self.solved = None;
        Ok(())
    }

    // Solves the rule at a point, and answers how many boxes there are.
    pub fn solve(&mut self, point: usize) -> Result<usize, BenchFault>
        ensures list { Solved R.Mark.rank (R.meaning self.old.recording) (parts_of self.old.formula) result point (boxes_of self.old.standing) (boxes_of self.new.standing) self.old.solved self.new.solved }
        ensures recording { self.new.recording ≡ self.old.recording }
        ensures rule { self.new.formula ≡ self.old.formula }
        ensures law { SolveLaw R.Mark.rank R.meaning self.old point result self.new }
    {
        self.work_out(point)
    }

    fn work_out(&mut self, point: usize) -> Result<usize, BenchFault>
        ensures list { Solved R.Mark.rank (R.meaning self.old.recording) (parts_of self.old.formula) result point (boxes_of self.old.standing) (boxes_of self.new.standing) self.old.solved self.new.solved }
        ensures recording { self.new.recording ≡ self.old.recording }
        ensures rule { self.new.formula ≡ self.old.formula }
    {
        let count = self
            .solver
            .solve(&self.recording, &self.formula, point, &mut self.standing)?;
        self.solved = Some(point);
        Ok(count)
    }

    // Writes the listing of the solve that stands to the front of the output, and answers its length.
    pub fn print(&self, output: &mut [u8]) -> Result<usize, BenchFault>
        ensures prints { Prints R.Mark.text result self.now.solved (boxes_of self.now.standing) output.old output.new }
        ensures bound { IfOk result (λ n. n ≤ length output.old) }
        ensures refused { OnErr result (output.new ≡ output.old) }
    {
        Ok(Listing::of(self.solved_list()?).print(output)?)
    }
}
