// Changes of the tape that a bench stands on. An accepted one leaves the bench unsolved. As with its other calls, the law of each
// is shown once for all exits of a function without, and what a call leaves as it was is told by each: a type cannot tell it.
ghost use Rattle.std.specs.Prelude.{◌≡◌};
ghost use Rattle.recording.specs.Changes.{Added, Withdrawn};
ghost use Rattle.bench.specs.Changes.{Changes, CodeAmended, Placed};
ghost use Rattle.bench.specs.Laws.{ChangeLaw};

use crate::benches::Bench;
use crate::faults::BenchFault;
use crate::settings::{check_channel, named_mark};
use recording::{Recording, Tape, TapeFault};

// Whether a mark of the recording can be amended.
fn check_place<R: Recording>(recording: &R, point: usize, channel: usize) -> Result<(), TapeFault>
    ensures { Placed R.Mark.named (R.meaning recording.now) point channel 0 result }
{
    if point >= recording.points() {
        return Err(TapeFault::NoPoint);
    }
    check_channel(channel, recording.channels())?;
    if !recording.is_given(channel) {
        return Err(TapeFault::NotGiven);
    }
    Ok(())
}

// Puts the mark of a code in the place of a given one.
fn amend_by_code<R: Tape>(
    tape: &mut R,
    point: usize,
    channel: usize,
    code: u32,
) -> Result<(), TapeFault>
    ensures { CodeAmended R.Mark.named (R.meaning tape.old) point channel code result (R.meaning tape.new) }
{
    check_place(tape, point, channel)?;
    let mark = named_mark(code)?;
    tape.amend(point, channel, mark)
}

impl<R: Tape> Bench<R> {
    // Appends a point that repeats the given marks of the last one.
    pub fn add(&mut self, tick: u32) -> Result<(), BenchFault>
        ensures tape { Changes (λ a. Added R.Mark.resting (R.meaning self.old.recording) tick a (R.meaning self.new.recording)) result self.old.solved self.new.solved }
        ensures rule { self.new.formula ≡ self.old.formula }
        ensures standing { self.new.standing ≡ self.old.standing }
        ensures law { ChangeLaw R.Mark.rank R.meaning (λ m a n. Added R.Mark.resting m tick a n) self.old result self.new }
    {
        self.add_point(tick)
    }

    fn add_point(&mut self, tick: u32) -> Result<(), BenchFault>
        ensures tape { Changes (λ a. Added R.Mark.resting (R.meaning self.old.recording) tick a (R.meaning self.new.recording)) result self.old.solved self.new.solved }
        ensures rule { self.new.formula ≡ self.old.formula }
        ensures standing { self.new.standing ≡ self.old.standing }
    {
        self.recording.add(tick)?;
        self.solved = None;
        Ok(())
    }

    // Puts the mark of a code in the place of a given one.
    pub fn amend(&mut self, point: usize, channel: usize, code: u32) -> Result<(), BenchFault>
        ensures tape { Changes (λ a. CodeAmended R.Mark.named (R.meaning self.old.recording) point channel code a (R.meaning self.new.recording)) result self.old.solved self.new.solved }
        ensures rule { self.new.formula ≡ self.old.formula }
        ensures standing { self.new.standing ≡ self.old.standing }
        ensures law { ChangeLaw R.Mark.rank R.meaning (λ m a n. CodeAmended R.Mark.named m point channel code a n) self.old result self.new }
    {
        self.amend_mark(point, channel, code)
    }

    fn amend_mark(&mut self, point: usize, channel: usize, code: u32) -> Result<(), BenchFault>
        ensures tape { Changes (λ a. CodeAmended R.Mark.named (R.meaning self.old.recording) point channel code a (R.meaning self.new.recording)) result self.old.solved self.new.solved }
        ensures rule { self.new.formula ≡ self.old.formula }
        ensures standing { self.new.standing ≡ self.old.standing }
    {
        amend_by_code(&mut self.recording, point, channel, code)?;
        self.solved = None;
        Ok(())
    }

    // Takes the last point away.
    pub fn withdraw(&mut self) -> Result<(), BenchFault>
        ensures tape { Changes (λ a. Withdrawn (R.meaning self.old.recording) a (R.meaning self.new.recording)) result self.old.solved self.new.solved }
        ensures rule { self.new.formula ≡ self.old.formula }
        ensures standing { self.new.standing ≡ self.old.standing }
        ensures law { ChangeLaw R.Mark.rank R.meaning (λ m a n. Withdrawn m a n) self.old result self.new }
    {
        self.withdraw_point()
    }

    fn withdraw_point(&mut self) -> Result<(), BenchFault>
        ensures tape { Changes (λ a. Withdrawn (R.meaning self.old.recording) a (R.meaning self.new.recording)) result self.old.solved self.new.solved }
        ensures rule { self.new.formula ≡ self.old.formula }
        ensures standing { self.new.standing ≡ self.old.standing }
    {
        self.recording.withdraw()?;
        self.solved = None;
        Ok(())
    }
}
