// Writes the answers to checks of certificates, with no memory.
ghost use Rattle.std.specs.Prelude.{◌≡◌};
ghost use Rattle.dsv_base.specs.Taking.{Writes};
ghost use Rattle.dsv_report.specs.Certificates.{size_line, checked_job_text};
ghost use Rattle.dsv_report.specs.Certificates.{fault_name};
ghost use Rattle.dsv_report.specs.Certificates.{certificate_text, refused};

use crate::fragments::{Fragment, put_fragments};
use crate::lines::{put_number_line, put_property, put_realisation};
use crate::stop::CertificateFault;
use dsv_base::{Failed, Sink, put_all};
use dsv_certfile::{CertifiedJob, CheckFault, Size, TextFault};

/// Writes over how many samples, or that it is of the loop with a plant, up to the end of the line.
fn put_size<K: Sink>(sink: &mut K, size: Size) -> Result<(), Failed>
    ensures { Writes (K.seen sink.old) (K.seen sink.new) result (size_line size) }
{
    match size {
        Size::NoSize => put_all(sink, b"\n"),
        Size::Samples(samples) => put_number_line(sink, b" samples ", samples.into()),
        Size::Unbounded => put_all(sink, b" unbounded\n"),
        Size::OfLoop => put_all(sink, b" plant\n"),
    }
}

/// Writes the property that a certificate shows.
#[tactic(auto, unfolding(crate::specs::Certificates::accepted))]
pub(crate) fn put_checked_job<K: Sink>(sink: &mut K, job: &CertifiedJob) -> Result<(), Failed>
    ensures { Writes (K.seen sink.old) (K.seen sink.new) result (checked_job_text job.now) }
{
    put_all(sink, b"CERTIFICATE ACCEPTED\n")?;
    put_property(sink, job.property)?;
    put_realisation(sink, job.design.realisation)?;
    put_size(sink, job.size)
}

/// The code and the name of a fault.
#[tactic(auto, unfolding(crate::specs::Certificates::fault_name))]
pub(crate) fn fault_name(fault: CertificateFault) -> &'static [u8]
    ensures { result.now ≡ fault_name fault }
{
    match fault {
        CertificateFault::Text(TextFault::Version) => b" code 1 VERSION\n",
        CertificateFault::Text(TextFault::Kind) => b" code 2 KIND\n",
        CertificateFault::Text(TextFault::Number) => b" code 3 NUMBER\n",
        CertificateFault::Text(TextFault::Line) => b" code 4 LINE\n",
        CertificateFault::Text(TextFault::End) => b" code 5 END\n",
        CertificateFault::Check(CheckFault::Step) => b" code 6 STEP\n",
        CertificateFault::Check(CheckFault::Form) => b" code 7 FORM\n",
        CertificateFault::Check(CheckFault::Shape) => b" code 8 SHAPE\n",
        CertificateFault::TooLong => b" code 9 TOO_LONG\n",
        CertificateFault::Check(CheckFault::Format) => b" code 10 FORMAT\n",
        CertificateFault::Check(CheckFault::Gain) => b" code 11 GAIN\n",
        CertificateFault::Check(CheckFault::Error) => b" code 12 ERROR\n",
        CertificateFault::Check(CheckFault::Table) => b" code 13 TABLE\n",
    }
}

/// What the refusal of a certificate begins with.
#[tactic(auto, unfolding(crate::specs::Certificates::refused))]
fn refusal_heading() -> &'static [u8]
    ensures { result.now ≡ refused }
{
    b"CERTIFICATE REFUSED line "
}

/// Writes the refusal of a certificate.
pub(crate) fn put_certificate_refusal<K: Sink>(
    sink: &mut K,
    line: u64,
    fault: CertificateFault,
) -> Result<(), Failed>
    ensures { Writes (K.seen sink.old) (K.seen sink.new) result (certificate_text line fault) }
{
    put_fragments(
        sink,
        &[
            Fragment::Bytes(refusal_heading()),
            Fragment::Number(line.into()),
            Fragment::Bytes(fault_name(fault)),
        ],
    )
}
