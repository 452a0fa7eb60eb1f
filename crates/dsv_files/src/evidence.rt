// What a task names: a certificate, an ellipsoid or inputs in a file.
ghost use Rattle.std.specs.Prelude.{[], ◌∷◌, ◌≤◌, IfOk, IfErr};
ghost use Rattle.dsv_command.specs.Views.{task_view};
ghost use Rattle.dsv_base.specs.Seen.{AreKept};
ghost use Rattle.dsv_files.specs.Digests.{AreLogged, certificate_named, named_by_task};
ghost use Rattle.dsv_files.specs.JobTexts.{HasEvidence, IsEvidenceUnread};
ghost use Rattle.dsv_files.specs.Views.{IsEvidenceFor, evidence_view};
ghost use Rattle.dsv_files.specs.Files.{a_certificate, an_ellipsoid, IsFileOf, IsUnread};

use crate::digests::{Digests, log_digest};
use crate::file_bytes::read_bytes;
use crate::inputs_file::read_inputs_file;
use dsv_base::{Files, WordList};
use dsv_certfile::{Certificate, Ellipsoid, read_ellipsoid};
use dsv_command::Task;
use dsv_report::{Stop, WhichFile};
use std::alloc::Global;

/// What a task names: nothing, or what is in the file that it names.
#[derive(Drop)]
pub enum Evidence {
    Nothing,
    Certificate(Certificate),
    Ellipsoid(Ellipsoid),
    /// Words of the controller's format, or numbers that are none; at most 65,536.
    Inputs(WordList),
}

/// The certificate in the file of this name, whose digest is added.
///
/// # Errors
///
/// The file couldn't be read ([`Stop::ReadFault`]), it has more than 64 MiB, or its first line that
/// is wrong ([`Stop::CertificateRefused`], with line 0 if it is too long); or there was no memory.
pub fn read_certificate<'a, F: Files>(
    alloc: Global,
    name: &'a str,
    files: &mut F,
    digests: &mut Digests<'a>,
) -> Result<Certificate, Stop>
    ensures spelled { IfOk result (IsFileOf a_certificate (F.seen files.old) name.now) }
    ensures digest { IfOk result (λ c. AreLogged (F.seen files.old)
        (certificate_named name.now ∷ []) digests.old digests.new) }
    ensures unread { IfErr result
        (IsUnread a_certificate (F.seen files.old) (F.seen files.new) name.now) }
    ensures kept { AreKept (F.seen files.old) (F.seen files.new) }
{
    let bytes = read_bytes(alloc, name, WhichFile::Certificate, files)?;
    let certificate = dsv_certfile::read(alloc, bytes.as_slice())?;
    log_digest(alloc, digests, name, bytes.as_slice())?;
    Ok(certificate)
}

/// The ellipsoid that the file of this name offers.
fn read_offer<'a, F: Files>(
    alloc: Global,
    name: &'a str,
    files: &mut F,
    digests: &mut Digests<'a>,
) -> Result<Ellipsoid, Stop>
    ensures offered { IfOk result (IsFileOf an_ellipsoid (F.seen files.old) name.now) }
    ensures few { IfOk result (λ offer. offer.form.d ≤ 8) }
    ensures digest { IfOk result (λ offer. AreLogged (F.seen files.old)
        (record { kind = an_ellipsoid; name = name.now } ∷ []) digests.old digests.new) }
    ensures unread { IfErr result
        (IsUnread an_ellipsoid (F.seen files.old) (F.seen files.new) name.now) }
    ensures kept { AreKept (F.seen files.old) (F.seen files.new) }
{
    let bytes = read_bytes(alloc, name, WhichFile::Certificate, files)?;
    let offer = read_ellipsoid(bytes.as_slice())?;
    log_digest(alloc, digests, name, bytes.as_slice())?;
    Ok(offer)
}

/// What a task names, if it names a file, whose digest is added then.
///
/// # Errors
///
/// Those of [`read_certificate`]; of an ellipsoid the first fault of its text
/// ([`Stop::EllipsoidText`]); of inputs the first fault of theirs, or that they have more than
/// 1 MiB ([`Stop::InputsRefused`]).
pub fn read_evidence<'a, F: Files>(
    alloc: Global,
    task: &Task<'a>,
    files: &mut F,
    digests: &mut Digests<'a>,
) -> Result<Evidence, Stop>
    ensures has { IfOk result
        (λ e. HasEvidence (F.seen files.old) (task_view task.now) (evidence_view e)) }
    ensures fits { IfOk result (λ e. IsEvidenceFor (task_view task.now) (evidence_view e)) }
    ensures digests { IfOk result (λ e. AreLogged (F.seen files.old)
        (named_by_task (task_view task.now)) digests.old digests.new) }
    ensures unread { IfErr result
        (IsEvidenceUnread (F.seen files.old) (F.seen files.new) (task_view task.now)) }
    ensures kept { AreKept (F.seen files.old) (F.seen files.new) }
{
    match task {
        Task::CheckForm(name) => Ok(Evidence::Certificate(read_certificate(
            alloc, name, files, digests,
        )?)),
        Task::CheckEllipsoid(name) => {
            Ok(Evidence::Ellipsoid(read_offer(alloc, name, files, digests)?))
        }
        Task::RunFile(name, _) | Task::EmitFileTest(_, name) => Ok(Evidence::Inputs(
            read_inputs_file(alloc, name, files, digests)?,
        )),
        _ => Ok(Evidence::Nothing),
    }
}
