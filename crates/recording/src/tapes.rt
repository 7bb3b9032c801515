// A tape is a recording that also takes changes.
ghost use Rattle.recording.specs.Changes.{Added, Amended, Withdrawn};

use crate::faults::TapeFault;
use crate::recordings::Recording;

pub trait Tape: Recording {
    // Appends a point that repeats the given marks of the last one.
    fn add(&mut self, tick: u32) -> Result<(), TapeFault>
        ensures { Added Self.Mark.resting (Self.meaning self.old) tick result (Self.meaning self.new) };

    // Puts another mark in the place of a given one.
    fn amend(&mut self, point: usize, channel: usize, mark: Self::Mark) -> Result<(), TapeFault>
        ensures { Amended (Self.meaning self.old) point channel mark result (Self.meaning self.new) };

    // Takes the last point away.
    fn withdraw(&mut self) -> Result<(), TapeFault>
        ensures { Withdrawn (Self.meaning self.old) result (Self.meaning self.new) };
}
