// The difference layer, over any recording of readings: how much a channel changes from each point to the next.
ghost use Rattle.std.specs.Prelude.{◌≡◌, pos, ◌-ℤ◌};
ghost use Rattle.std.specs.Int.{saturate_to_bits};
ghost use Rattle.scale.specs.Readings.{held, value_of};
ghost use Rattle.layers.specs.Differences.{DifferenceOver, difference_of};
ghost use Rattle.layers.specs.Layers.{told_by};

use crate::layers::{Layer, Working};
use recording::Recording;
use scale::{Reading, Scale};

// The channel whose differences are worked out. The type says how, as that of a peak does.
#[derive(Clone, Copy)]
pub struct DifferenceOf {
    channel: usize,
}

pub type Difference<R> = Layer<R, DifferenceOf>;

fn held_difference(a: i32, b: i32) -> i32
    ensures { result ≡ saturate_to_bits 31 (a -ℤ b) }
{
    a.saturating_sub(b)
}

fn minus(a: Reading, b: Reading) -> Reading
    ensures { result ≡ held (value_of a -ℤ value_of b) }
{
    Reading::new(held_difference(a.to_i32(), b.to_i32()))
}

impl Working<Reading> for DifferenceOf {
    ghost worked = { λ s. difference_of s.channel };

    fn work<R: Recording<Mark = Reading>>(&self, below: &R, point: usize) -> Reading {
        if point.saturating_add(1) < below.points() {
            minus(
                below.mark(point + 1, self.channel),
                below.mark(point, self.channel),
            )
        } else {
            Reading::rest()
        }
    }
}

impl DifferenceOf {
    fn at(channel: usize) -> DifferenceOf
        ensures { result.channel ≡ channel }
    {
        DifferenceOf { channel }
    }
}

impl<R: Recording<Mark = Reading>> Layer<R, DifferenceOf> {
    // The differences of this channel over the recording.
    pub fn new(below: R, channel: usize) -> Difference<R>
        ensures below { result.below ≡ below }
        ensures channel { result.working.channel ≡ channel }
        ensures number { result.number ≡ (R.meaning below).channels }
        ensures differences { DifferenceOver channel (R.meaning below) (told_by (held (pos 0)) R.meaning (λ s. difference_of s.channel) result) }
    {
        Layer::over(below, DifferenceOf::at(channel))
    }
}
