//! The command `dsv`: from its arguments, its files and its output to an answer and the answer's
//! text.
#![tactic(auto)]

mod cascade_words;
mod cascades;
mod check;
mod command;
mod controllers;
mod emission;
mod forms;
mod gain;
mod in_words;
mod jobs;
mod law;
mod loops;
mod offers;
mod os_files;
mod proposers;
mod questions;
mod requests;
mod roots;
mod run_task;
mod run_tasks;
mod sets;
mod simulation;
mod states;
mod timing;
mod told;
mod turns;

pub use command::{Done, run};
pub use dsv_lyapunov::{FormProposer, SumProposer};
pub use dsv_report::{Answer, CertificateFault, Stop, WhichFile};
pub use dsv_template::{BoxProposer, InvariantProposer};
pub use forms::{FormAnswer, decide};
pub use law::{
    jobs_are_decided, refusals_come_exactly, told_files_have_one_answer, verdicts_speak_of_code,
    written_certificates_are_accepted,
};
pub use os_files::{OsFiles, OsOut};
pub use proposers::{Proposers, run_with_built_in};
pub use sets::{SetAnswer, seek_set};
