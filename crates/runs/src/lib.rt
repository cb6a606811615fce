//! A run of a program as a table: files are read one after another, and one reply is made of their contents and
//! written. Nothing here knows what commands, documents or limits there are.
#![tactic(auto)]

mod answer;
mod laws;
mod one_file;
mod process;
mod program;
mod reading;
mod reply;
mod role;
mod status;

pub use answer::{Answer, Finding};
pub use laws::{
    every_question_is_answered, missing_files_are_faults, one_reply, one_status, one_text,
};
pub use one_file::{FileQuery, reply_of_file};
pub use process::run_program;
pub use program::{Program, run};
pub use reading::read;
pub use reply::{Reply, deliver};
pub use role::Role;
pub use status::Status;
