// The peak layer, over any recording: the last in order of a channel's marks so far.
ghost use Rattle.std.specs.Prelude.{◌≡◌};
ghost use Rattle.layers.specs.Layers.{told_by};
ghost use Rattle.layers.specs.Peaks.{PeakOver, later, peak_of};

use crate::layers::{Layer, Working};
use recording::Recording;
use scale::Scale;

// The channel whose peak is worked out. The type says how, so peaks and differences have one each, and no more in common.
#[derive(Clone, Copy)]
pub struct PeakOf {
    channel: usize,
}

pub type Peak<R> = Layer<R, PeakOf>;

// The later in order of two marks, by `is_before`: a scale need not have the standard order.
fn later<S: Scale>(a: S, b: S) -> S
    ensures { result ≡ later S.rank a b }
{
    if a.is_before(b) { b } else { a }
}

impl<S: Scale> Working<S> for PeakOf {
    ghost worked = { λ s. peak_of S.rank s.channel };

    fn work<R: Recording<Mark = S>>(&self, below: &R, point: usize) -> S {
        let mut peak = below.mark(0, self.channel);
        for before in 0..point {
            peak = later(peak, below.mark(before + 1, self.channel));
        }
        peak
    }
}

impl PeakOf {
    fn at(channel: usize) -> PeakOf
        ensures { result.channel ≡ channel }
    {
        PeakOf { channel }
    }
}

impl<R: Recording> Layer<R, PeakOf> {
    // The peak of this channel over the recording.
    pub fn new(below: R, channel: usize) -> Peak<R>
        ensures below { result.below ≡ below }
        ensures channel { result.working.channel ≡ channel }
        ensures number { result.number ≡ (R.meaning below).channels }
        ensures peak { PeakOver R.Mark.rank R.Mark.resting channel (R.meaning below) (told_by R.Mark.resting R.meaning (λ s. peak_of R.Mark.rank s.channel) result) }
    {
        Layer::over(below, PeakOf::at(channel))
    }
}
