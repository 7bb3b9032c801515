// The lines of a listing. They are pushed and not formatted, since `write!` does not promise that there was room.
ghost use Rattle.std.specs.Prelude.{◌≡◌};
ghost use Rattle.domain.specs.Boxes.{sides_of};
ghost use Rattle.domain.specs.Listed.{boxes_of, sides_in};
ghost use Rattle.listing.specs.Growing.{bounded, boxed, compared, ended, headed, lined, separated, sided};
ghost use Rattle.listing.specs.Held.{state_of, text_of};
ghost use Rattle.listing.specs.Listings.{listing_text, names};

use crate::held::Listing;
use domain::{Domain, Interval, Orthotope};
use scale::{Cut, Scale, Word};

impl Listing {
    // The heading of this many boxes.
    fn push_heading(&mut self, count: u32)
        ensures text { text_of self.new ≡ headed (text_of self.old) count }
        ensures begun { self.new.begun ≡ self.old.begun }
    {
        let digits = Word::decimal(count);
        self.push(b"boxes ");
        self.push(digits.as_bytes());
        self.push(b"\n");
    }

    // A comma, unless the comparison to come is the first of its line.
    fn separate(&mut self)
        ensures text { text_of self.new ≡ separated (state_of self.old) }
        ensures begun { self.new.begun ≡ self.old.begun }
    {
        if self.begun {
            self.push(b",");
        }
    }

    fn push_comparison<S: Scale>(&mut self, name: &[u8], sign: &[u8], mark: S)
        ensures { state_of self.new ≡ compared S.text (state_of self.old) name.now sign.now mark }
    {
        let word = mark.to_text();
        self.separate();
        self.push(name);
        self.push(sign);
        self.push(word.as_bytes());
        self.begun = true;
    }

    // A comparison with a cut's mark, by the sign for the side on which the cut is; an end of the scale says nothing.
    fn push_bound<S: Scale>(&mut self, name: &[u8], cut: Cut<S>, below: &[u8], above: &[u8])
        ensures { state_of self.new ≡ bounded S.text below.now above.now (state_of self.old) name.now cut }
    {
        match cut {
            Cut::Below(mark) => self.push_comparison(name, below, mark),
            Cut::Above(mark) => self.push_comparison(name, above, mark),
            Cut::LowerEnd | Cut::UpperEnd => {}
        }
    }

    // What one limit may be: nothing, one comparison or two.
    fn push_side<S: Scale>(&mut self, name: &[u8], side: Interval<S>)
        ensures { state_of self.new ≡ sided S.text (state_of self.old) name.now side }
    {
        self.push_bound(name, side.lower, b">=", b">");
        self.push_bound(name, side.upper, b"<", b"<=");
    }

    fn end_line(&mut self)
        ensures { state_of self.new ≡ ended (state_of self.old) }
    {
        if !self.begun {
            self.push(b"any");
        }
        self.push(b"\n");
        self.begun = false;
    }

    // One line.
    fn push_box<S: Scale>(&mut self, b: &Orthotope<S>)
        ensures { state_of self.new ≡ ended (boxed S.text (state_of self.old) names (sides_of b.now)) }
    {
        self.push_side(b"p", b.p);
        self.push_side(b"q", b.q);
        self.push_side(b"r", b.r);
        self.end_line();
    }

    fn push_boxes<S: Scale>(&mut self, boxes: &[Orthotope<S>])
        ensures { state_of self.new ≡ lined S.text (state_of self.old) (sides_in boxes.now) }
    {
        for b in boxes {
            self.push_box(b);
        }
    }

    // The listing of a domain.
    pub fn of<S: Scale>(domain: &Domain<S>) -> Listing
        ensures { text_of result ≡ listing_text S.text (boxes_of domain.now) }
    {
        let mut listing = Listing::blank();
        listing.push_heading(domain.len() as u32);
        listing.push_boxes(domain.boxes());
        listing
    }
}
