// Layers over a recording, each of which works out one channel more from what is told below.
ghost use Rattle.std.specs.Prelude.{◌≡◌, ℕ};
ghost use Rattle.recording.specs.Changes.{Added, Amended, Withdrawn};
ghost use Rattle.recording.specs.Meaning.{Meaning};
ghost use Rattle.layers.specs.Layers.{SameLayer, shows_added, takes, told_by};
ghost use Rattle.std.proofs.Common.{rules};

use recording::{MOST_CHANNELS, Recording, Tape, TapeFault};
use scale::Scale;

// A way to work out a mark at each point of a recording.
pub trait Working<S: Scale> {
    ghost worked: { Self → Meaning S → ℕ → S };

    fn work<R: Recording<Mark = S>>(&self, below: &R, point: usize) -> S
        ensures { result ≡ worked self.now (R.meaning below.now) point };
}

#[derive(Drop)]
pub struct Layer<R, W> {
    pub(crate) below: R,
    pub(crate) working: W,
    // The number of the added channel is kept, so that a question at another one goes below at once.
    pub(crate) number: usize,
}

// Whether a recording of so many channels takes one more, of this number.
fn takes(channels: usize, number: usize) -> bool
    ensures { result ≡ takes channels number }
{
    channels < MOST_CHANNELS && number == channels
}

impl<R: Recording, W> Layer<R, W> {
    // The layer over this recording, whose channel has the next number. As the makers of peaks and differences do, it tells
    // which recording it holds, a value, of which no type can tell it; and the number: a ghost field that tells it would ask of
    // all who name a layer that it is over a recording.
    pub fn over(below: R, working: W) -> Layer<R, W>
        ensures below { result.below ≡ below }
        ensures working { result.working ≡ working }
        ensures number { result.number ≡ (R.meaning below).channels }
    {
        let number = below.channels();
        Layer {
            below,
            working,
            number,
        }
    }

    pub fn below(&self) -> &R
        ensures { result.now ≡ self.now.below }
    {
        &self.below
    }

    fn is_added(&self, channel: usize) -> bool
        ensures { result ≡ shows_added self.now.number (R.meaning self.now.below) channel }
    {
        channel == self.number && takes(self.below.channels(), self.number)
    }
}

impl<R, W: Drop> Layer<R, W> {
    // The recording that the layer was over.
    pub fn into_below(self) -> R
        ensures { result ≡ self.below }
    {
        let Layer {
            below,
            working: _,
            number: _,
        } = self;
        below
    }
}

impl<R: Recording, W: Working<R::Mark>> Recording for Layer<R, W> {
    type Mark = R::Mark;

    ghost meaning = { told_by R.Mark.resting R.meaning W.worked };

    ghost sound = { Prim.search rules };

    fn points(&self) -> usize {
        self.below.points()
    }

    fn capacity(&self) -> usize {
        self.below.capacity()
    }

    fn channels(&self) -> usize {
        let channels = self.below.channels();
        if takes(channels, self.number) {
            channels + 1
        } else {
            channels
        }
    }

    fn is_given(&self, channel: usize) -> bool {
        self.below.is_given(channel)
    }

    fn tick(&self, point: usize) -> u32 {
        self.below.tick(point)
    }

    fn mark(&self, point: usize, channel: usize) -> R::Mark {
        if !self.is_added(channel) {
            self.below.mark(point, channel)
        } else if point < self.points() {
            self.working.work(&self.below, point)
        } else {
            R::Mark::rest()
        }
    }
}

// That a change leaves the layer the same is told by each: it is of before and after, and no type can tell it.
impl<R: Tape, W: Working<R::Mark>> Tape for Layer<R, W> {
    fn add(&mut self, tick: u32) -> Result<(), TapeFault>
        ensures change { Added R.Mark.resting (told_by R.Mark.resting R.meaning W.worked self.old) tick result (told_by R.Mark.resting R.meaning W.worked self.new) }
        ensures same { SameLayer self.old self.new }
    {
        self.below.add(tick)
    }

    // Below, the added channel would be refused as none at all.
    fn amend(&mut self, point: usize, channel: usize, mark: R::Mark) -> Result<(), TapeFault>
        ensures change { Amended (told_by R.Mark.resting R.meaning W.worked self.old) point channel mark result (told_by R.Mark.resting R.meaning W.worked self.new) }
        ensures same { SameLayer self.old self.new }
    {
        if self.is_added(channel) && point < self.points() {
            return Err(TapeFault::NotGiven);
        }
        self.below.amend(point, channel, mark)
    }

    fn withdraw(&mut self) -> Result<(), TapeFault>
        ensures change { Withdrawn (told_by R.Mark.resting R.meaning W.worked self.old) result (told_by R.Mark.resting R.meaning W.worked self.new) }
        ensures same { SameLayer self.old self.new }
    {
        self.below.withdraw()
    }
}
