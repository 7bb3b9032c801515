// How a part's list at a point is made, once the part's sign is taken into account.
ghost use Rattle.std.specs.Prelude.{◌≡◌};
ghost use Rattle.solver.specs.Steps.{binary_step, comparison_step, last_step, settled, step_for, step_of, step_under_sign, unary_step};

use crate::comparisons::{bounded_by, compares};
use domain::Interval;
use formula::{BinaryOperator, Comparator, LimitName, Operand, Part, UnaryOperator};
use recording::Recording;
use scale::Scale;

// What a part says of this point alone. Numbers are those of lower parts, whose lists are joined or met.
// A value and not a closure, since contracts say which step it is.
#[derive(Clone, Copy)]
pub enum Step<S> {
    // One box, which bounds one limit.
    Bound(LimitName, Interval<S>),
    // The full box.
    Everything,
    // No box.
    Nothing,
    Same(usize),
    Join(usize, usize),
    Meet(usize, usize),
    Later(Outlook),
}

// What a part says of the points to come.
#[derive(Clone, Copy)]
pub enum Outlook {
    Next(usize),
    Eventually(usize),
    Always(usize),
    Until { left: usize, right: usize },
    WeakUntil { left: usize, right: usize },
}

impl Outlook {
    // The part whose list it takes at the last point, which repeats for ever.
    pub fn at_last(self) -> usize
        ensures { result ≡ last_step self }
    {
        match self {
            Outlook::Next(operand) => operand,
            Outlook::Eventually(operand) => operand,
            Outlook::Always(operand) => operand,
            Outlook::Until { right, .. } => right,
            Outlook::WeakUntil { left, .. } => left,
        }
    }
}

impl<S: Scale> Step<S> {
    // The step at the last point, where what is to come is what is here.
    pub fn at_last(self) -> Step<S>
        ensures { result ≡ settled self }
    {
        match self {
            Step::Later(outlook) => Step::Same(outlook.at_last()),
            other => other,
        }
    }
}

// A turned part says the opposite, so a turned comparison takes the opposite comparator.
fn under_sign(comparator: Comparator, turned: bool) -> Comparator
    ensures { result ≡ step_under_sign turned comparator }
{
    if turned {
        comparator.opposite()
    } else {
        comparator
    }
}

// What two marks, or a mark and a limit, say at one point.
fn comparison_step<R: Recording>(
    recording: &R,
    point: usize,
    channel: usize,
    comparator: Comparator,
    operand: Operand<R::Mark>,
) -> Step<R::Mark>
    ensures { result ≡ comparison_step R.Mark.rank ((R.meaning recording.now).mark point) channel comparator operand }
{
    let mark = recording.mark(point, channel);
    let holds = match operand {
        Operand::Limit(limit) => return Step::Bound(limit, bounded_by(mark, comparator)),
        Operand::Channel(other) => compares(mark, comparator, recording.mark(point, other)),
        Operand::Constant(constant) => compares(mark, comparator, constant),
    };
    if holds {
        Step::Everything
    } else {
        Step::Nothing
    }
}

// The operand of a negation is turned in the place of the part.
fn unary_step<S>(operator: UnaryOperator, operand: usize, turned: bool) -> Step<S>
    ensures { result ≡ unary_step turned operator operand }
{
    match (operator, turned) {
        (UnaryOperator::Not, _) => Step::Same(operand),
        (UnaryOperator::Next, _) => Step::Later(Outlook::Next(operand)),
        (UnaryOperator::Finally, false) | (UnaryOperator::Globally, true) => {
            Step::Later(Outlook::Eventually(operand))
        }
        (UnaryOperator::Globally, false) | (UnaryOperator::Finally, true) => {
            Step::Later(Outlook::Always(operand))
        }
    }
}

// The left operand of an implication is turned the other way. The dual of until is weak until with its sides exchanged, and
// the other way round.
fn binary_step<S>(operator: BinaryOperator, left: usize, right: usize, turned: bool) -> Step<S>
    ensures { result ≡ binary_step turned operator left right }
{
    match (operator, turned) {
        (BinaryOperator::And, false) | (BinaryOperator::Or | BinaryOperator::Implies, true) => {
            Step::Meet(left, right)
        }
        (BinaryOperator::Or | BinaryOperator::Implies, false) | (BinaryOperator::And, true) => {
            Step::Join(left, right)
        }
        (BinaryOperator::Until, false) => Step::Later(Outlook::Until { left, right }),
        (BinaryOperator::Until, true) => Step::Later(Outlook::WeakUntil {
            left: right,
            right: left,
        }),
        (BinaryOperator::WeakUntil, false) => Step::Later(Outlook::WeakUntil { left, right }),
        (BinaryOperator::WeakUntil, true) => Step::Later(Outlook::Until {
            left: right,
            right: left,
        }),
    }
}

// How the list of a part is made, by its kind and sign.
pub fn step_of<R: Recording>(
    recording: &R,
    point: usize,
    part: Part<R::Mark>,
    turned: bool,
) -> Step<R::Mark>
    ensures { result ≡ step_of R.Mark.rank ((R.meaning recording.now).mark point) turned part }
{
    match part {
        Part::Comparison {
            channel,
            comparator,
            operand,
        } => {
            let comparator = under_sign(comparator, turned);
            comparison_step(recording, point, channel, comparator, operand)
        }
        Part::Unary { operator, operand } => unary_step(operator, operand, turned),
        Part::Binary {
            operator,
            left,
            right,
        } => binary_step(operator, left, right, turned),
    }
}

// The step at a point, which may be the last.
pub fn step_at<R: Recording>(
    recording: &R,
    point: usize,
    part: Part<R::Mark>,
    turned: bool,
) -> Step<R::Mark>
    ensures { result ≡ step_for R.Mark.rank (R.meaning recording.now).mark (R.meaning recording.now).points point turned part }
{
    let step = step_of(recording, point, part, turned);
    if point.checked_add(1) == Some(recording.points()) {
        step.at_last()
    } else {
        step
    }
}
