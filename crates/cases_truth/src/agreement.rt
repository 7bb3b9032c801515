// The solver's list against truth, on every choice of a small grid.
use crate::dice::Dice;
use crate::truths::{Marks, POINTS, Truths};
use domain::{Choice, Domain};
use formula::{MAX_PARTS, Part};
use recording::Tape;
use rows::{Row, RowTape};
use scale::Reading;
use solver::Solver;
use std::alloc::{AllocError, Global};
use std::test::Fail;

const FORMULAS: u32 = 400;

// The grid of limits reaches one mark beyond those of the recordings on both sides.
const LOWEST: i32 = -1;

const PAST_HIGHEST: i32 = 5;

fn tape_of_four(heap: Global) -> Result<RowTape<Reading>, AllocError> {
    let mut rows = Vec::new(heap);
    for _ in 0..POINTS {
        rows.push(Row::blank())?;
    }
    let mut tape = RowTape::new(rows);
    for tick in 0..4u32 {
        let _ = tape.add(tick);
    }
    Ok(tape)
}

// New marks for the first three channels, on the tape and in the table.
fn shuffle(dice: &mut Dice, tape: &mut RowTape<Reading>, marks: &mut Marks) {
    for (point, reads) in marks.iter_mut().enumerate() {
        *reads = [dice.small(), dice.small(), dice.small()];
        for (channel, value) in reads.iter().enumerate() {
            let _ = tape.amend(point, channel, Reading::new(*value));
        }
    }
}

// A list that a formula was solved to at a point.
#[derive(Drop)]
struct Solved<'a> {
    domain: &'a Domain<Reading>,
    parts: &'a [Part<Reading>],
    marks: Marks,
    point: usize,
}

impl Solved<'_> {
    // Whether list and truth agree on one choice of limits.
    fn agrees(&self, limits: [i32; 3]) -> bool {
        let mut truths = Truths {
            rows: [[false; POINTS]; MAX_PARTS],
            marks: self.marks,
            limits,
        };
        truths.fill(self.parts);
        let [p, q, r] = limits.map(Reading::new);
        let covered = self.domain.covers(Choice { p, q, r });
        covered == truths.at(self.parts.len().saturating_sub(1), self.point)
    }

    fn agrees_for(&self, p: i32, q: i32) -> bool {
        (LOWEST..PAST_HIGHEST).all(|r| self.agrees([p, q, r]))
    }

    // On every choice of the grid.
    fn agrees_everywhere(&self) -> bool {
        (LOWEST..PAST_HIGHEST).all(|p| (LOWEST..PAST_HIGHEST).all(|q| self.agrees_for(p, q)))
    }
}

#[test]
fn lists_agree_with_truth(rt: HostRuntime) -> Result<(), Fail> {
    let heap = rt.alloc();
    let mut dice = Dice { state: 20 };
    let mut tape = tape_of_four(heap)?;
    let mut marks: Marks = [[0; 3]; POINTS];
    let mut solver = Solver::new(heap)?;
    let mut domain = Domain::new(heap)?;
    let mut solved = 0u32;
    for _ in 0..FORMULAS {
        shuffle(&mut dice, &mut tape, &mut marks);
        let formula = dice.formula(heap)?;
        let point = dice.roll(4) as usize;
        if solver.solve(&tape, &formula, point, &mut domain).is_ok() {
            let solved_to = Solved {
                domain: &domain,
                parts: formula.parts(),
                marks,
                point,
            };
            assert!(rt; solved_to.agrees_everywhere());
            solved = solved.saturating_add(1);
        }
    }
    // Hardly any of the formulas needs a box too many.
    assert!(rt; solved > 380);
    Ok(())
}
