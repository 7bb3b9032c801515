// What can be asked of a recording, whatever holds its marks.
ghost use Rattle.std.specs.Prelude.{◌≡◌};
ghost use Rattle.recording.specs.Meaning.{Meaning, Sound};

use scale::Scale;

// No recording has more points.
pub const MOST_POINTS: usize = 2048;

// No recording has more channels.
pub const MOST_CHANNELS: usize = 16;

pub trait Recording {
    type Mark: Scale;

    // What the recording tells.
    ghost meaning: { Self → Meaning Self.Mark };

    fn points(&self) -> usize
        ensures { result ≡ (meaning self.now).points };

    // How many points there can ever be.
    fn capacity(&self) -> usize
        ensures { result ≡ (meaning self.now).capacity };

    fn channels(&self) -> usize
        ensures { result ≡ (meaning self.now).channels };

    // Whether the marks of the channel were put in, and not worked out from others.
    fn is_given(&self, channel: usize) -> bool
        ensures { result ≡ (meaning self.now).given channel };

    fn tick(&self, point: usize) -> u32
        ensures { result ≡ (meaning self.now).tick point };

    fn mark(&self, point: usize, channel: usize) -> Self::Mark
        ensures { result ≡ (meaning self.now).mark point channel };

    // No value of the type tells anything else than a sound recording.
    ghost sound: { (s : Self) → Sound Self.Mark.resting (meaning s) };
}
