// Domains: adding a box, join and meet, up to the bound.
ghost use Rattle.std.specs.Prelude.{◌≡◌, ◌≤◌, [], ◌∷◌, map, length, IfOk, vec_len, nat_lt, not};
ghost use Rattle.domain.specs.Boxes.{contains_box, overlap_box, sides_of};
ghost use Rattle.domain.specs.Added.{some_contains, outside, added, joined, met};
ghost use Rattle.domain.specs.Listed.{boxes_of, reached, sides_in};

use crate::lists::{Domain, Full, MAX_BOXES};
use crate::shapes::Orthotope;
use scale::Scale;
use std::alloc::{AllocError, Global};

impl<S: Scale> Domain<S> {
    // A domain with no box.
    pub fn new(heap: Global) -> Result<Domain<S>, AllocError>
        ensures { IfOk result (λ d. boxes_of d ≡ []) }
    {
        let boxes = Vec::with_capacity(heap, MAX_BOXES)?;
        Ok(Domain { boxes })
    }

    pub fn len(&self) -> usize
        ensures value { result ≡ length (boxes_of self.now) }
        ensures bound { result ≤ 32 }
    {
        self.boxes().len()
    }

    pub fn boxes(&self) -> &[Orthotope<S>]
        ensures value { sides_in result.now ≡ boxes_of self.now }
        ensures few { length result.now ≤ 32 }
    {
        self.boxes.as_slice()
    }

    pub fn clear(&mut self)
        ensures { boxes_of self.new ≡ [] }
    {
        self.boxes.truncate(0);
    }

    // Takes over the boxes of another domain.
    pub fn copy_from(&mut self, other: &Domain<S>)
        ensures { boxes_of self.new ≡ boxes_of other.now }
    {
        self.become_list(other.boxes());
    }

    // Becomes the list of the boxes given, for which there is room. `extend_from_slice` was tried: it asks for room first, takes
    // twice as long for one box, and a host in C would have to bring `rattle_realloc`.
    fn become_list(&mut self, boxes: &[Orthotope<S>])
        requires { length boxes.now ≤ 32 }
        ensures { boxes_of self.new ≡ sides_in boxes.now }
    {
        self.boxes.clear();
        for each in boxes {
            self.boxes.push_reserved(*each);
        }
    }

    // Becomes the one box given.
    pub fn become_box(&mut self, only: Orthotope<S>)
        ensures { boxes_of self.new ≡ sides_of only ∷ [] }
    {
        self.boxes.clear();
        self.boxes.push_reserved(only);
    }

    // Whether some box contains this one. `any` was tried: of a closure over an
    // open kind of mark the check knows only what it states, which `contains` states already.
    fn has_container(&self, inner: &Orthotope<S>) -> bool
        ensures { result ≡ some_contains S.rank (boxes_of self.now) (sides_of inner.now) }
    {
        for b in self.boxes.iter() {
            if b.contains(inner) {
                return true;
            }
        }
        false
    }

    // Lets the boxes go that this one contains.
    fn drop_contained(&mut self, outer: &Orthotope<S>)
        ensures { boxes_of self.new ≡ outside S.rank (sides_of outer.now) (boxes_of self.old) }
    {
        self.boxes.retain(
            |each| -> bool
                ensures { result ≡ not (contains_box S.rank (sides_of outer.entry.now) (sides_of each.now)) }
            { !outer.contains(each) },
        );
    }

    // Whether one box more is not too many.
    fn has_room(&self) -> bool
        ensures { result ≡ nat_lt (vec_len self.now.boxes) 32 }
    {
        self.boxes.len() < MAX_BOXES
    }

    // Adds a box: an empty or contained one is skipped, the ones that it contains leave, and it goes to the end.
    pub fn add(&mut self, b: Orthotope<S>) -> Result<(), Full>
        ensures { reached result (boxes_of self.new) ≡ added S.rank (boxes_of self.old) (sides_of b) }
    {
        if b.is_empty() || self.has_container(&b) {
            return Ok(());
        }
        self.drop_contained(&b);
        if !self.has_room() {
            return Err(Full);
        }
        self.boxes.push_reserved(b);
        Ok(())
    }

    // Adds each box of another domain, in order.
    pub fn join(&mut self, other: &Domain<S>) -> Result<(), Full>
        ensures { reached result (boxes_of self.new) ≡ joined S.rank (boxes_of self.old) (boxes_of other.now) }
    {
        self.add_all(other.boxes())
    }

    // Adds each box given, in order.
    fn add_all(&mut self, boxes: &[Orthotope<S>]) -> Result<(), Full>
        ensures { reached result (boxes_of self.new) ≡ joined S.rank (boxes_of self.old) (sides_in boxes.now) }
    {
        for b in boxes {
            self.add(*b)?;
        }
        Ok(())
    }

    // Becomes the left boxes with each box of the right added, in order.
    pub fn unite(&mut self, left: &Domain<S>, right: &Domain<S>) -> Result<(), Full>
        ensures { reached result (boxes_of self.new) ≡ joined S.rank (boxes_of left.now) (boxes_of right.now) }
    {
        self.copy_from(left);
        self.join(right)
    }

    // Becomes the overlaps of each box of the left with each of the right, in order.
    pub fn meet(&mut self, left: &Domain<S>, right: &Domain<S>) -> Result<(), Full>
        ensures { reached result (boxes_of self.new) ≡ met S.rank (boxes_of left.now) (boxes_of right.now) }
    {
        self.boxes.clear();
        for each in left.boxes.iter() {
            self.add_overlaps(each, right)?;
        }
        Ok(())
    }

    // Adds the overlap of one box with each of a domain's, in order.
    fn add_overlaps(&mut self, one: &Orthotope<S>, boxes: &Domain<S>) -> Result<(), Full>
        ensures { reached result (boxes_of self.new) ≡ joined S.rank (boxes_of self.old) (map (overlap_box S.rank (sides_of one.now)) (boxes_of boxes.now)) }
    {
        for each in boxes.boxes.iter() {
            self.add(one.overlap(each))?;
        }
        Ok(())
    }
}
