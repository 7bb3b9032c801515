// The row tape: a recording of four given channels that takes changes.
#![tactic(auto)]

mod row_tapes;
mod rows;

pub use row_tapes::RowTape;
pub use rows::Row;
