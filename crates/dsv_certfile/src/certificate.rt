// Certificates.
ghost use Rattle.std.specs.Prelude.{◌≡◌};
ghost use Rattle.dsv_certfile.specs.Texts.{job_of};

use crate::job::CertifiedJob;
use dsv_base::Items;
use dsv_forms::Falls;
use dsv_hints::Log;
use dsv_integer::Numeral;
use dsv_roundoff::RoundoffOffer;
use dsv_template::{Candidate, ThreeLogs};

/// What is claimed of a controller, and what shows it.
#[derive(Drop)]
pub enum Certificate {
    /// A log that refutes the formula that some run breaks the property.
    Hints {
        job: CertifiedJob,
        log: Log,
    },
    /// A set of registers that no run leaves, and the logs that refute that a sentence of it is
    /// broken.
    Invariant {
        job: CertifiedJob,
        candidate: Candidate,
        logs: ThreeLogs,
    },
    /// How many samples after any words in the registers the ranges of all exact values are words:
    /// 0 to `MOST_GAIN_DEPTH`. Where an offer is there, it shows how far outputs are from those of
    /// exact runs, too.
    Gain {
        job: CertifiedJob,
        depth: u32,
        offer: Option<RoundoffOffer>,
    },
    /// A form that falls along each trajectory of the polynomial.
    Falls {
        job: CertifiedJob,
        offer: Falls,
    },
    /// The coefficients of the polynomial whose table shows that all its roots are inside the unit
    /// circle, the one of its highest power first: 1 to `MOST_COEFFICIENTS`.
    Table {
        job: CertifiedJob,
        coefficients: Items<Numeral>,
    },
}

impl Certificate {
    /// What the certificate is about.
    pub fn job(&self) -> &CertifiedJob
        ensures { result.now ≡ job_of self.now }
    {
        match self {
            Certificate::Hints { job, .. } => job,
            Certificate::Invariant { job, .. } => job,
            Certificate::Gain { job, .. } => job,
            Certificate::Falls { job, .. } => job,
            Certificate::Table { job, .. } => job,
        }
    }
}
