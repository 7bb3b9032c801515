// Solving a formula over a recording: the list of boxes on which it is true at a point.
#![tactic(auto)]

mod comparisons;
mod labels;
mod signs;
mod solvers;
mod steps;

pub use solvers::{SolveFault, Solver};
