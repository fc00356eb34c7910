//! The program: from the bytes of a source to the bytes of a sink.
#![tactic(auto)]

mod answers;
mod input;
mod kind_names;
pub mod log_laws;
mod made_laws;
mod program;
mod replies;
pub mod run_laws;
mod simulation;
mod statuses;
mod verdicts;

pub use answers::{answer, generated};
pub use hx_words::{RunMode, Task};
pub use kind_names::{desc_kind_name, script_kind_name};
pub use program::{run, run_script, start};
pub use replies::{Reply, refuse_description, refuse_script};
pub use statuses::{MOST_BYTES, MOST_LINE, Status};
pub use verdicts::judged;
