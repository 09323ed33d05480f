//! How commands end: their answers with status and message, reading input files, printing, the line on standard error.
//!
//! What holds with each answer of a command is one record for all of them (`specs/Holds.antt`).
#![tactic(auto)]

pub mod ends;
pub mod input;
pub mod labels;
pub mod printing;
pub mod reporting;

pub use ends::{CallFault, CallRule, End, Refusal, WordFault, WordRule};
pub use input::{IMAGE_LIMIT, OBJECT_LIMIT, UNIT_LIMIT, read_input};
pub use printing::print;
pub use reporting::{report, report_memory};
