// Writes why there is no answer, with no memory.
ghost use Rattle.std.specs.Prelude.{◌≡◌, ◌++◌};
ghost use Rattle.dsv_base.specs.Taking.{Writes};
ghost use Rattle.dsv_report.specs.Refusals.{file_text, quant_text};
ghost use Rattle.dsv_report.specs.Report.{place_text, read_fault_text, stop_status, stop_text};
ghost use Rattle.dsv_report.specs.Report.{too_long_text};

use crate::cascades::{put_cascade_refusal, put_section};
use crate::certificates::put_certificate_refusal;
use crate::ellipsoids::{put_ellipsoid_refusal, put_offer_fault};
use crate::lines::put_number_line;
use crate::loops::{put_loop_refusal, put_plant};
use crate::refusals::{
    put_file_refusal, put_input_range, put_inputs_refusal, put_quant_refusal, put_wide_code,
};
use crate::states::{put_state_quant_refusal, put_state_refusal};
use crate::stop::{Stop, WhichFile};
use dsv_base::{Failed, Sink, put_all};
use dsv_quantiser::QuantRefusal;
use dsv_reader::FileRefusal;

/// The status where there is no answer.
pub(crate) fn stop_status(stop: &Stop) -> u8
    ensures { result ≡ stop_status stop.now }
{
    match stop {
        Stop::Usage => 1,
        Stop::FileRefused { .. }
        | Stop::FileTooLong { .. }
        | Stop::QuantRefused { .. }
        | Stop::CascadeRefused(_)
        | Stop::LoopRefused(_)
        | Stop::StateRefused(_)
        | Stop::StateQuantRefused(_)
        | Stop::InputRange { .. }
        | Stop::InputsRefused(_) => 2,
        Stop::ReadFault(_) => 3,
        Stop::NoMemory => 5,
        Stop::JobSize { .. } | Stop::WideCode { .. } => 6,
        Stop::CertificateRefused { .. } | Stop::EllipsoidText(_) | Stop::EllipsoidRefused(_) => 7,
    }
}

/// Writes which file is meant, before what is said of it.
fn put_place<K: Sink>(sink: &mut K, which: WhichFile) -> Result<(), Failed>
    ensures { Writes (K.seen sink.old) (K.seen sink.new) result (place_text which) }
{
    match which {
        WhichFile::Section(section) => put_section(sink, u64::from(section)),
        WhichFile::Plant => put_plant(sink),
        WhichFile::Controller | WhichFile::Certificate | WhichFile::Inputs => put_all(sink, b""),
    }
}

/// Writes why a file is refused.
fn put_refused<K: Sink>(sink: &mut K, which: WhichFile, refusal: FileRefusal) -> Result<(), Failed>
    ensures { Writes (K.seen sink.old) (K.seen sink.new) result
        (place_text which ++ file_text refusal) }
{
    put_place(sink, which)?;
    put_file_refusal(sink, refusal)
}

/// Writes that a file is too long.
fn put_too_long<K: Sink>(sink: &mut K, which: WhichFile) -> Result<(), Failed>
    ensures { Writes (K.seen sink.old) (K.seen sink.new) result
        (place_text which ++ too_long_text) }
{
    put_place(sink, which)?;
    put_all(sink, b"FILE REFUSED 12 TOO_LONG at 65536\n")
}

/// Writes why what is in a file doesn't become words.
fn put_wordless<K: Sink>(
    sink: &mut K,
    which: WhichFile,
    refusal: QuantRefusal,
) -> Result<(), Failed>
    ensures { Writes (K.seen sink.old) (K.seen sink.new) result
        (place_text which ++ quant_text refusal) }
{
    put_place(sink, which)?;
    put_quant_refusal(sink, refusal)
}

/// Writes that a file couldn't be read.
fn put_read_fault<K: Sink>(sink: &mut K, which: WhichFile) -> Result<(), Failed>
    ensures { Writes (K.seen sink.old) (K.seen sink.new) result (read_fault_text which) }
{
    match which {
        WhichFile::Controller => put_all(sink, b"READ FAULT CONTROLLER\n"),
        WhichFile::Certificate => put_all(sink, b"READ FAULT CERTIFICATE\n"),
        WhichFile::Section(section) => {
            put_number_line(sink, b"READ FAULT SECTION ", section.into())
        }
        WhichFile::Plant => put_all(sink, b"READ FAULT PLANT\n"),
        WhichFile::Inputs => put_all(sink, b"READ FAULT INPUTS\n"),
    }
}

/// Writes why there is no answer. It takes no memory.
pub(crate) fn put_stop<K: Sink>(sink: &mut K, stop: &Stop) -> Result<(), Failed>
    ensures { Writes (K.seen sink.old) (K.seen sink.new) result (stop_text stop.now) }
{
    match stop {
        Stop::Usage => put_all(sink, b"USAGE\n"),
        Stop::FileRefused { which, refusal } => put_refused(sink, *which, *refusal),
        Stop::FileTooLong { which } => put_too_long(sink, *which),
        Stop::QuantRefused { which, refusal } => put_wordless(sink, *which, *refusal),
        Stop::CascadeRefused(refusal) => put_cascade_refusal(sink, *refusal),
        Stop::LoopRefused(refusal) => put_loop_refusal(sink, *refusal),
        Stop::StateRefused(refusal) => put_state_refusal(sink, *refusal),
        Stop::StateQuantRefused(refusal) => put_state_quant_refusal(sink, *refusal),
        Stop::InputRange { index, value } => put_input_range(sink, *index, value),
        Stop::JobSize { size } => put_number_line(sink, b"JOB SIZE ", *size),
        Stop::WideCode { value } => put_wide_code(sink, u64::from(*value)),
        Stop::CertificateRefused { line, fault } => put_certificate_refusal(sink, *line, *fault),
        Stop::EllipsoidText(refusal) => put_offer_fault(sink, refusal.line, refusal.fault),
        Stop::EllipsoidRefused(refusal) => put_ellipsoid_refusal(sink, refusal),
        Stop::ReadFault(which) => put_read_fault(sink, *which),
        Stop::InputsRefused(fault) => put_inputs_refusal(sink, *fault),
        Stop::NoMemory => put_all(sink, b"NO MEMORY\n"),
    }
}
