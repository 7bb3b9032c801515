// A scale is a kind of mark with a strict total order.
// Its conversions are methods of its own: under TryFrom, Display and FromStr each kind would state code and text twice.
ghost use Rattle.std.specs.Prelude.{◌≡◌, ℕ, ◌^◌, ◌<◌, List, Option, MatchOption, ◌≢◌, nat_lt};
ghost use Rattle.scale.specs.declared.cuts.Cut.{Cut};
ghost use Rattle.scale.specs.Marks.{Apart, Names, RunText};
ghost use Rattle.scale.specs.Cuts.{Picks};
ghost use Rattle.scale.specs.Words.{bytes_of};

use crate::cuts::Cut;
use crate::held::Word;

pub trait Scale: Copy {
    // The place of a mark in the order.
    ghost rank: { Self → ℕ };

    // The number that stands for a mark outside the program.
    ghost code: { Self → ℕ };

    // The mark of a code, if there is one.
    ghost named: { ℕ → Option Self };

    // The text of a mark.
    ghost text: { Self → List ℕ };

    // The mark that stands where nothing was recorded.
    ghost resting: { Self };

    // The mark that the scale picks between two cuts.
    ghost picked: { Cut Self → Cut Self → Option Self };

    // Whether this mark is before the other.
    fn is_before(self, other: Self) -> bool
        ensures { result ≡ nat_lt (rank self) (rank other) };

    fn to_code(self) -> u32
        ensures { result ≡ code self };

    fn of_code(number: u32) -> Option<Self>
        ensures { result ≡ named number };

    fn rest() -> Self
        ensures { result ≡ resting };

    fn to_text(self) -> Word
        ensures { bytes_of result ≡ text self };

    // The mark that has this text, and none where no mark has it.
    fn of_text(run: &[u8]) -> Option<Self>
        ensures { MatchOption result ((m : Self) → text m ≢ run.now) (λ m. text m ≡ run.now) };

    fn pick(lower: Cut<Self>, upper: Cut<Self>) -> Option<Self>
        ensures { result ≡ picked lower upper };

    ghost ranks_apart: { Apart rank };

    ghost ranks_fit: { (m : Self) → rank m < 2 ^ 32 };

    ghost codes_fit: { (m : Self) → code m < 2 ^ 32 };

    ghost codes_name: { Names code named };

    ghost texts_apart: { Apart text };

    ghost texts_run: { (m : Self) → RunText (text m) };

    ghost picks: { (l u : Cut Self) → Picks rank l u (picked l u) };
}
