// Layers: a recording with one channel more, worked out from the channels below.
#![tactic(auto)]

mod differences;
mod layers;
mod peaks;

pub use differences::{Difference, DifferenceOf};
pub use layers::{Layer, Working};
pub use peaks::{Peak, PeakOf};
