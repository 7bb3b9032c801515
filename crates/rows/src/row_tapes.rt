// The row tape: four given channels of any scale, kept in rows that are handed in and given back.
ghost use Rattle.std.specs.Prelude.{◌≡◌, ℕ, ◌-◌, ◌<◌, ◌≤◌, take, MatchOption, vec_len, slice_index_or};
ghost use Rattle.recording.specs.Changes.{Added, Amended, Withdrawn};
ghost use Rattle.rows.specs.Rows.{RowsLeft, TicksFit, TicksRise, blank, mark_in, rowed};
ghost use Rattle.std.proofs.Common.{rules};

use crate::rows::Row;
use recording::{MOST_POINTS, Recording, Tape, TapeFault};
use scale::Scale;

const CHANNELS: usize = 4;

impl<S: Scale> Row<S> {
    // A row where nothing was recorded.
    pub fn blank() -> Row<S>
        ensures { result ≡ blank S.resting }
    {
        let rest = S::rest();
        Row {
            tick: 0,
            c0: rest,
            c1: rest,
            c2: rest,
            c3: rest,
        }
    }

    // The mark of a channel, by its name, and rest for a channel that no row has.
    fn mark(self, channel: usize) -> S
        ensures { result ≡ mark_in S.resting self channel }
    {
        match channel {
            0 => self.c0,
            1 => self.c1,
            2 => self.c2,
            3 => self.c3,
            _ => S::rest(),
        }
    }
}

#[derive(Drop)]
pub struct RowTape<S> {
    rows: Vec<Row<S>>,
    // The first rows are the points; not the length of `rows`, which are all given back.
    points: usize,
    ghost within: { points ≤ vec_len rows },
    ghost few: { points ≤ 2048 },
    ghost fit: { TicksFit rows.items points },
    ghost rising: { TicksRise rows.items points },
}

impl<S> RowTape<S> {
    // An empty tape, with room for a point in each of these rows, though no more than 2048.
    pub fn new(rows: Vec<Row<S>>) -> RowTape<S>
        ensures rows { result.rows ≡ rows }
        ensures points { result.points ≡ 0 }
    {
        RowTape { rows, points: 0 }
    }

    // The rows that are points.
    fn used(&self) -> &[Row<S>]
        ensures { result.now ≡ take self.now.points self.now.rows.items }
    {
        &self.rows[..self.points]
    }

    // The rows that were handed in, as the tape left them.
    pub fn into_rows(self) -> Vec<Row<S>>
        ensures { result ≡ self.rows }
    {
        let RowTape { rows, points: _ } = self;
        rows
    }
}

impl<S: Scale> Recording for RowTape<S> {
    type Mark = S;

    ghost meaning = { λ s. rowed S.resting s.rows.items s.points };

    ghost sound = { Prim.search rules };

    fn points(&self) -> usize {
        self.points
    }

    fn capacity(&self) -> usize {
        self.rows.len().min(MOST_POINTS)
    }

    fn channels(&self) -> usize {
        CHANNELS
    }

    fn is_given(&self, channel: usize) -> bool {
        channel < CHANNELS
    }

    fn tick(&self, point: usize) -> u32 {
        self.used().get(point).map_or(0, |row| row.tick)
    }

    fn mark(&self, point: usize, channel: usize) -> S {
        self.used()
            .get(point)
            .map_or(S::rest(), |row| row.mark(channel))
    }
}

impl<S: Scale> RowTape<S> {
    // The row of the last point, if there is one.
    fn last(&self) -> Option<Row<S>>
        ensures { MatchOption result (self.now.points ≡ 0) (λ row. (0 < self.now.points) × (row ≡ slice_index_or self.now.rows.items (self.now.points - 1) (blank S.resting))) }
    {
        self.used().last().copied()
    }
}

// That no change touches the rows behind the points is told by each: it is of before and after, and no type can tell it.
impl<S: Scale> Tape for RowTape<S> {
    fn add(&mut self, tick: u32) -> Result<(), TapeFault>
        ensures change { Added S.resting (rowed S.resting self.old.rows.items self.old.points) tick result (rowed S.resting self.new.rows.items self.new.points) }
        ensures left { RowsLeft self.old.rows.items self.new.rows.items self.new.points }
    {
        if self.points == self.capacity() {
            return Err(TapeFault::Full);
        }
        let last = self.last();
        if last.is_some_and(|row| tick <= row.tick) {
            return Err(TapeFault::TickNotLater);
        }
        let row = Row {
            tick,
            ..last.unwrap_or(Row::blank())
        };
        self.rows[self.points] = row;
        self.points += 1;
        Ok(())
    }

    fn amend(&mut self, point: usize, channel: usize, mark: S) -> Result<(), TapeFault>
        ensures change { Amended (rowed S.resting self.old.rows.items self.old.points) point channel mark result (rowed S.resting self.new.rows.items self.new.points) }
        ensures left { RowsLeft self.old.rows.items self.new.rows.items self.new.points }
    {
        if point >= self.points {
            return Err(TapeFault::NoPoint);
        }
        let row = &mut self.rows[point];
        match channel {
            0 => row.c0 = mark,
            1 => row.c1 = mark,
            2 => row.c2 = mark,
            3 => row.c3 = mark,
            _ => return Err(TapeFault::NoChannel),
        }
        Ok(())
    }

    fn withdraw(&mut self) -> Result<(), TapeFault>
        ensures change { Withdrawn (rowed S.resting self.old.rows.items self.old.points) result (rowed S.resting self.new.rows.items self.new.points) }
        ensures left { RowsLeft self.old.rows.items self.new.rows.items self.new.points }
    {
        if self.points == 0 {
            return Err(TapeFault::NoPoint);
        }
        self.points -= 1;
        Ok(())
    }
}
