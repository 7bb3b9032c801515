// A listing's text, to which bytes are added at the end.
ghost use Rattle.std.specs.Prelude.{◌≡◌, false, []};
ghost use Rattle.listing.specs.Held.{behind, state_of, text_of};

use crate::held::Listing;
use arrayvec::ArrayVec;

impl Listing {
    // No text yet.
    pub(crate) fn blank() -> Listing
        ensures { state_of result ≡ ([], false) }
    {
        Listing {
            text: ArrayVec::new(),
            begun: false,
        }
    }

    pub fn as_bytes(&self) -> &[u8]
        ensures { result.now ≡ text_of self.now }
    {
        self.text.as_slice()
    }

    // More text, as much of it as there is room for.
    pub(crate) fn push(&mut self, bytes: &[u8])
        ensures text { text_of self.new ≡ behind (text_of self.old) bytes.now }
        ensures begun { self.new.begun ≡ self.old.begun }
    {
        let count = bytes.len().min(self.text.remaining_capacity());
        let _ = self.text.try_extend_from_slice(&bytes[..count]);
    }
}
