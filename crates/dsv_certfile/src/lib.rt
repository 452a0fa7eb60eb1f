//! Certificates as text: what is claimed of a controller, and the log, the invariant, the gain with
//! its box, the form or the polynomial that shows it. Texts that offer an ellipsoid, too.
#![tactic(auto, using(dsv_algebra::proofs::Casts::casts))]

mod certificate;
mod ellipsoid;
mod ellipsoid_reader;
mod ellipsoid_writer;
mod falls;
mod fault;
mod invariant;
mod job;
mod keyword;
mod kind;
mod law;
mod limits;
mod lines;
mod numbers;
mod output;
mod pieces;
mod places;
mod reader;
mod roundoff_reader;
mod steps;
mod table_reader;
mod writer;

pub use certificate::Certificate;
pub use ellipsoid::Ellipsoid;
pub use ellipsoid_reader::read_ellipsoid;
pub use ellipsoid_writer::write_ellipsoid;
pub use fault::{CertRefusal, CheckFault, TextFault, TextRefusal};
pub use job::{CertWords, CertifiedJob, Size};
pub use law::{certificates_are_read, ellipsoids_are_read};
pub use limits::{
    MOST_BOX_RANGES, MOST_COEFFICIENTS, MOST_GAIN_DEPTH, MOST_JOB_SAMPLES, MOST_SQUARES,
    NARROW_WORD_BITS,
};
pub use reader::read;
pub use writer::{
    write, write_error, write_falls, write_gain, write_hints, write_invariant, write_table,
};
