// Making a formula, reading its parts and adding to them.
ghost use Rattle.std.specs.Prelude.{◌≡◌, ◌<◌, ◌≤◌, [], ◌∷◌, ◌++◌, length, IfOk, MatchResult, ◌==◌};
ghost use Rattle.formula.specs.Formulas.{parts_of};
ghost use Rattle.formula.specs.Orders.{Fits, Ordered};

use crate::formulas::{Formula, MAX_PARTS, Misplaced};
use crate::parts::Part;
use std::alloc::{AllocError, Global};

impl<K: Copy> Formula<K> {
    // A blank formula, with the memory for every part that it can have.
    pub fn new(heap: Global) -> Result<Formula<K>, AllocError>
        ensures { IfOk result (λ f. parts_of f ≡ []) }
    {
        let parts = Vec::with_capacity(heap, MAX_PARTS)?;
        Ok(Formula { parts })
    }

    pub fn len(&self) -> usize
        ensures { result ≡ length (parts_of self.now) }
    {
        self.parts.len()
    }

    pub fn is_blank(&self) -> bool
        ensures { result ≡ (length (parts_of self.now) == 0) }
    {
        self.parts.is_empty()
    }

    pub fn parts(&self) -> &[Part<K>]
        ensures value { result.now ≡ parts_of self.now }
        ensures few { length result.now ≤ 24 }
        ensures ordered { Ordered result.now }
    {
        self.parts.as_slice()
    }

    pub fn clear(&mut self)
        ensures { parts_of self.new ≡ [] }
    {
        self.parts.clear();
    }

    // Adds a part after the others, and answers its number. A refused part leaves the formula as it was.
    pub fn push(&mut self, part: Part<K>) -> Result<usize, Misplaced>
        ensures { MatchResult result (λ number. Fits part (parts_of self.old) × (parts_of self.new ≡ parts_of self.old ++ part ∷ []) × (number ≡ length (parts_of self.old))) (λ _. (Fits part (parts_of self.old) → ⊥) × (parts_of self.new ≡ parts_of self.old)) }
    {
        let number = self.len();
        if number == MAX_PARTS || !part.comes_after(number) {
            return Err(Misplaced);
        }
        self.parts.push_reserved(part);
        Ok(number)
    }
}
