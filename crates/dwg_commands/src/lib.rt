//! What each command answers, and what that is for a drawing: the words of the command line, what they and the input ask for, the
//! outcome, and how it is sent to output and notes.
#![tactic(auto)]

mod appdata;
mod audit;
mod carry;
mod certificates;
mod drawings;
mod job;
mod laws;
mod made;
mod outcome;
mod pending;
mod printed_output;
mod recover;
mod running;
mod sections;
mod sending;
mod status;
mod words;

pub use job::{Job, Stop, job_for};
pub use laws::{outcome_laws, status_laws};
pub use outcome::Outcome;
pub use running::run_job;
pub use status::Status;
pub use words::{Command, read_words};
