//! The command line: the arguments are read by clap, and what they give is the request.
#![tactic(auto)]

mod arguments;
mod code_names;
mod faults;
mod finding;
mod generation;
mod inputs;
mod kind;
mod law;
mod limits;
mod marks;
mod options;
mod parts;
mod question;
mod reasons;
mod request;
mod section_names;
mod table;
mod values;

pub use generation::Generation;
pub use inputs::{Inputs, MOST_INPUTS, find_input};
pub use kind::Kind;
pub use law::{faults_are_found, parts_are_read, requests_are_read};
pub use limits::{MOST_CONFLICTS, MOST_CONTROLLERS, MOST_SAMPLES};
pub use parts::{Key, Part};
pub use question::{Budget, RootQuestion, RunQuestion};
pub use reasons::Reason;
pub use request::{Line, read_line};
pub use section_names::{MOST_LATER, SectionNames};
pub use table::{Job, JobFiles, Request, Task};
