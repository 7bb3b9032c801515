// Recordings and tapes: what can be told of marks at points in time, and changed.
#![tactic(auto)]

mod faults;
mod recordings;
mod tapes;

pub use faults::{RecordsFault, TapeFault};
pub use recordings::{MOST_CHANNELS, MOST_POINTS, Recording};
pub use tapes::Tape;
