// Rules over a recording: the formula that a text spells, with the codes of a scale's marks for its constants.
#![tactic(auto)]

mod codings;
mod rules;

pub use rules::Rule;
