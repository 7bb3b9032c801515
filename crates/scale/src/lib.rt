// Kinds of mark and the order of their cuts: what recordings hold and what limits are made of.
#![tactic(auto)]

mod cuts;
mod faults;
mod held;
mod numbered;
mod readings;
mod scales;
mod stages;
mod values;
mod words;

pub use cuts::{Cut, lies_between};
pub use faults::{Layer, ScaleFault};
pub use held::Word;
pub use scales::Scale;
pub use stages::Stage;
pub use values::Reading;
