// The listing of a domain: its text, made whole and then written to an output.
#![tactic(auto)]

mod held;
mod laws;
mod listings;
mod outputs;
mod texts;

pub use held::Listing;
pub use laws::listings_differ;
pub use outputs::{NoRoom, put};
