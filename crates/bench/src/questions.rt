// What a solved bench is asked: whether limits keep the rule, and for limits that do. As with its other calls, the law of each
// is shown once for all exits of a function without.
ghost use Rattle.std.specs.Prelude.{◌≡◌, IsSome, MatchResult};
ghost use Rattle.domain.specs.Listed.{boxes_of};
ghost use Rattle.bench.specs.Asks.{Asks, Finds, Named, three_named};
ghost use Rattle.bench.specs.Laws.{AskLaw, FindLaw};

use crate::benches::Bench;
use crate::faults::BenchFault;
use crate::settings::named_mark;
use domain::{Choice, Domain};
use recording::{Recording, TapeFault};
use scale::Scale;

// The choice of three codes.
fn named_choice<S: Scale>(p: u32, q: u32, r: u32) -> Result<Choice<S>, TapeFault>
    ensures { Named (three_named S.named p q r) result }
{
    let p = named_mark(p)?;
    let q = named_mark(q)?;
    let r = named_mark(r)?;
    Ok(Choice { p, q, r })
}

impl<R: Recording> Bench<R> {
    // The list of the solve that stands.
    pub(crate) fn solved_list(&self) -> Result<&Domain<R::Mark>, BenchFault>
        ensures { MatchResult result (λ list. (IsSome self.now.solved) × (list.now ≡ self.now.standing)) (λ e. (e ≡ BenchFault.Unsolved) × (self.now.solved ≡ None)) }
    {
        if self.solved.is_none() {
            return Err(BenchFault::Unsolved);
        }
        Ok(&self.standing)
    }

    // Whether the rule is true with these limits, given as codes.
    pub fn ask(&self, p: u32, q: u32, r: u32) -> Result<bool, BenchFault>
        ensures list { Asks R.Mark.rank self.now.solved (boxes_of self.now.standing) (three_named R.Mark.named p q r) result }
        ensures law { AskLaw R.Mark.rank R.meaning R.Mark.named self.now p q r result }
    {
        self.lie_together(p, q, r)
    }

    // Whether the marks of three codes lie together in one box of the list that stands.
    fn lie_together(&self, p: u32, q: u32, r: u32) -> Result<bool, BenchFault>
        ensures { Asks R.Mark.rank self.now.solved (boxes_of self.now.standing) (three_named R.Mark.named p q r) result }
    {
        let list = self.solved_list()?;
        Ok(list.covers(named_choice(p, q, r)?))
    }

    // Limits with which the rule is true, as codes, if there are any.
    pub fn find(&self) -> Result<Option<(u32, u32, u32)>, BenchFault>
        ensures list { Finds R.Mark.code R.Mark.picked self.now.solved (boxes_of self.now.standing) result }
        ensures law { FindLaw R.Mark.rank R.meaning R.Mark.code self.now result }
    {
        self.first_picks()
    }

    // The codes of the picks of the first box that has them.
    fn first_picks(&self) -> Result<Option<(u32, u32, u32)>, BenchFault>
        ensures { Finds R.Mark.code R.Mark.picked self.now.solved (boxes_of self.now.standing) result }
    {
        let picks = self.solved_list()?.find();
        Ok(picks.map(|choice| (choice.p.to_code(), choice.q.to_code(), choice.r.to_code())))
    }
}
