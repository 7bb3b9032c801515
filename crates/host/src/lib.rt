// The library for hosts in other languages: one call from a rule and records to the listing.
#![tactic(auto)]

mod calls;
mod faults;

pub use calls::{stop_limits, stop_limits_refusal};
pub use faults::HostFault;
