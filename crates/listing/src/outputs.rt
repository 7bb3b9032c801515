// Writing to an output that somebody else owns.
ghost use Rattle.std.specs.Prelude.{◌≡◌};
ghost use Rattle.listing.specs.Held.{text_of};
ghost use Rattle.listing.specs.Written.{Fronts, Puts};

use crate::held::Listing;

// An output is shorter than what is to be written to it.
#[derive(Clone, Copy, PartialEq, Eq, Debug)]
pub struct NoRoom {
    pub needed: usize,
}

// Writes bytes from a place on and answers where they end. Refused, with nothing written, where there is no room for all.
pub fn put(out: &mut [u8], at: usize, bytes: &[u8]) -> Result<usize, NoRoom>
    ensures { Puts out.old at bytes.now result out.new }
{
    let end = at.saturating_add(bytes.len());
    if out.len() < end {
        return Err(NoRoom { needed: end });
    }
    out[at..end].copy_from_slice(bytes);
    Ok(end)
}

impl Listing {
    // Writes the listing to the front of an output and answers its length, or leaves it and says how long the listing is.
    pub fn print(&self, out: &mut [u8]) -> Result<usize, NoRoom>
        ensures { Fronts (text_of self.now) result out.old out.new }
    {
        put(out, 0, self.as_bytes())
    }
}
