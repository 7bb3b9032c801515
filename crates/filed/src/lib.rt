// The filed recording: records as they lie in memory, checked and shown as a recording.
#![tactic(auto)]

mod checks;
mod files;
mod records;

pub use checks::check_records;
pub use files::FiledRecording;
