// Single bytes under the cursor, and what is refused at them.
ghost use Rattle.std.specs.Prelude.{◌≡◌, ◌<◌, ◌⊎◌, [], ◌∷◌, length, MatchBool, MatchOption, MatchResult};
ghost use Rattle.reader.specs.Cursors.{Ahead, Meets, Passes};

use crate::readers::Cursor;
use formula::MAX_PARTS;
use text::TextFault;

impl Cursor<'_> {
    // The next byte, or none at the text's end.
    pub fn peek(&self) -> Option<u8>
        ensures { MatchOption result (self.now.at ≡ length self.now.text.now) (Ahead self.now) }
    {
        self.text.get(self.at).copied()
    }

    // Passes the next byte, which is `byte`.
    pub(crate) fn pass(&mut self, byte: u8)
        requires { Ahead self.old byte }
        ensures { Passes self.old self.new (byte ∷ []) 0 }
    {
        self.at += 1;
    }

    // Refuses what stands under the cursor as fitting no rule.
    pub fn misfit(&self) -> TextFault
        ensures { result ≡ TextFault.Form self.now.at }
    {
        TextFault::Form { place: self.at }
    }

    // Passes the next byte if it is the given one, and answers whether it was.
    pub fn takes(&mut self, byte: u8) -> bool
        ensures { MatchBool result (Ahead self.old byte × Passes self.old self.new (byte ∷ []) 0) ((self.new ≡ self.old) × (Ahead self.old byte → ⊥)) }
    {
        match self.peek() {
            Some(next) if next == byte => {
                self.pass(byte);
                true
            }
            _ => false,
        }
    }

    // Passes the next byte, which has to be the given one.
    pub fn expect(&mut self, byte: u8) -> Result<(), TextFault>
        ensures { MatchResult result (λ _. Ahead self.old byte × Passes self.old self.new (byte ∷ []) 0) (λ e. (e ≡ TextFault.Form self.old.at) × (Ahead self.old byte → ⊥)) }
    {
        if self.takes(byte) {
            Ok(())
        } else {
            Err(self.misfit())
        }
    }

    // Counts a part that is met under the cursor.
    pub fn meet(&mut self) -> Result<(), TextFault>
        ensures { MatchResult result (λ _. Meets self.old self.new) (λ e. (e ≡ TextFault.Parts self.old.at) × (self.old.met ≡ 24)) }
    {
        if self.met == MAX_PARTS {
            return Err(TextFault::Parts { place: self.at });
        }
        self.met += 1;
        Ok(())
    }

    // Passes an opening bracket, of which `left` may still be opened.
    pub fn open(&mut self, left: usize) -> Result<(), TextFault>
        ensures { MatchResult result (λ _. Passes self.old self.new (40 ∷ []) 0 × (0 < left)) (λ e. ((e ≡ TextFault.Form self.old.at) × (Ahead self.old 40 → ⊥)) ⊎ ((e ≡ TextFault.Brackets self.old.at) × Ahead self.old 40 × (left ≡ 0))) }
    {
        let place = self.at;
        self.expect(b'(')?;
        if left == 0 {
            return Err(TextFault::Brackets { place });
        }
        Ok(())
    }

    // Refuses whatever is left of the text.
    pub fn finish(&self) -> Result<(), TextFault>
        ensures { MatchResult result (λ _. self.now.at ≡ length self.now.text.now) (λ e. (e ≡ TextFault.Form self.now.at) × (self.now.at < length self.now.text.now)) }
    {
        match self.peek() {
            Some(_) => Err(self.misfit()),
            None => Ok(()),
        }
    }
}
