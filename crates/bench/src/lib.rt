// The bench: a rule and a recording brought together, solved, and told as a listing.
#![tactic(auto)]

mod benches;
mod calls;
mod changes;
mod faults;
mod questions;
mod settings;

pub use benches::Bench;
pub use faults::BenchFault;
