// What is refused in the text of a rule.
#![tactic(auto)]

mod faults;

pub use faults::TextFault;
