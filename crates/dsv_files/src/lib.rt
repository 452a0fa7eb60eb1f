//! The files that a job names: what each has by its kind, and what keeps it from that.
#![tactic(auto)]

mod controller_file;
mod digests;
mod evidence;
mod file_bytes;
mod inputs_file;
mod plant_file;
mod section_files;
mod state_file;
mod texts;
mod titles;

pub use digests::{Digests, FileDigest};
pub use evidence::{Evidence, read_certificate, read_evidence};
pub use section_files::{SectionFiles, push_item};
pub use texts::{Said, Texts, read_texts};
