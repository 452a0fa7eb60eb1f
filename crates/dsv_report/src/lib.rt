//! What the command answers, or why it has no answer, and the text of each.
#![tactic(auto)]

mod answers;
mod cascades;
mod certificates;
mod ellipsoids;
mod forms;
mod fragments;
mod gains;
mod headings;
mod lines;
mod loops;
mod output;
mod reasons;
mod refusals;
mod report;
mod states;
mod stop;
mod stops;
mod tables;
mod tallies;
mod verdict;

pub use answers::{Answer, OutputError};
pub use headings::Heading;
pub use output::put_output;
pub use reasons::put_reason;
pub use report::status_of;
pub use stop::{CertificateFault, InputsFault, Stop, WhichFile};
pub use verdict::Verdict;
