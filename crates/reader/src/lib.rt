// The plain reading of a rule's text, which knows of no scale: constants stay places in the text.
#![tactic(auto)]

mod appending;
mod readers;

pub use readers::{Run, read_text};
