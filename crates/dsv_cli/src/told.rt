// Writes the lines at the head of a text.
ghost use Rattle.std.specs.Prelude.{◌≡◌, ◌++◌, MatchBool, [], map, IfOk};
ghost use Rattle.std.specs.List.{flat_map};
ghost use Rattle.dsv_base.specs.Taking.{Writes};
ghost use Rattle.dsv_command.specs.Views.{task_view};
ghost use Rattle.dsv_files.specs.Digests.{digest_view};
ghost use Rattle.dsv_cli.specs.Stages.{texts_in, words_in};
ghost use Rattle.dsv_cli.specs.Told.{file_line, first_title, name_comment, timing_line};
ghost use Rattle.dsv_cli.specs.Told.{title_comment, titled_by, told_by, word_lines};

use crate::in_words::InWords;
use dsv_base::{Bytes, Failed, NoMemory, Sink, put_all};
use dsv_command::Task;
use dsv_files::FileDigest;
use dsv_word_lines::{
    TextSink, put_cascade_lines, put_controller_lines, put_costs, put_digest, put_state_lines,
};
use std::alloc::Global;

/// Writes the digest of a file.
fn put_file<K: Sink>(sink: &mut K, file: &FileDigest) -> Result<(), Failed>
    ensures { Writes (K.seen sink.old) (K.seen sink.new) result
        (file_line file.now) }
{
    put_digest(sink, &file.digest, file.name)
}

/// Writes the digests of files.
fn put_files<K: Sink>(sink: &mut K, digests: &[FileDigest]) -> Result<(), Failed>
    ensures { Writes (K.seen sink.old) (K.seen sink.new) result
        (flat_map file_line digests.now) }
{
    for file in digests {
        put_file(sink, file)?;
    }
    Ok(())
}

/// Writes the words of what is asked about.
fn put_words<K: Sink>(sink: &mut K, subject: &InWords) -> Result<(), Failed>
    ensures { Writes (K.seen sink.old) (K.seen sink.new) result
        (word_lines (texts_in subject.now) (words_in subject.now)) }
{
    match subject {
        InWords::Controller(controller, quantised) | InWords::Loop(controller, _, quantised) => {
            put_controller_lines(sink, controller, quantised)
        }
        InWords::Cascade(sections, cascade) | InWords::CascadeLoop(sections, _, cascade) => {
            put_cascade_lines(sink, &sections.first, cascade)
        }
        InWords::States(file, system) => put_state_lines(sink, file, system),
    }
}

/// Writes the costs that timing takes of a controller's file.
fn put_timing<K: Sink>(sink: &mut K, task: &Task, subject: &InWords) -> Result<(), Failed>
    ensures { Writes (K.seen sink.old) (K.seen sink.new) result
        (timing_line (task_view task.now) (texts_in subject.now)) }
{
    match (task, subject) {
        (Task::CheckTime, InWords::Controller(controller, _)) => put_costs(
            sink,
            controller.costs(),
        ),
        _ => put_all(sink, b""),
    }
}

/// Writes the words of what is asked about, and what timing takes of it.
fn put_subject<K: Sink>(sink: &mut K, task: &Task, subject: &InWords) -> Result<(), Failed>
    ensures { Writes (K.seen sink.old) (K.seen sink.new) result
        (word_lines (texts_in subject.now) (words_in subject.now)
        ++ timing_line (task_view task.now) (texts_in subject.now)) }
{
    put_words(sink, subject)?;
    put_timing(sink, task, subject)
}

/// Writes the lines that tell what a report is about.
fn put_told<K: Sink>(
    sink: &mut K,
    digests: &[FileDigest],
    task: &Task,
    subject: &InWords,
) -> Result<(), Failed>
    ensures { Writes (K.seen sink.old) (K.seen sink.new) result
        (told_by (map digest_view digests.now) (texts_in subject.now) (words_in subject.now)
        (task_view task.now)) }
{
    put_files(sink, digests)?;
    put_subject(sink, task, subject)
}

/// The lines that tell what a report is about.
fn told_text(
    alloc: Global,
    digests: &[FileDigest],
    task: &Task,
    subject: &InWords,
) -> Result<Bytes, NoMemory>
    ensures { IfOk result (λ lines. lines ≡ told_by (map digest_view digests.now)
        (texts_in subject.now) (words_in subject.now) (task_view task.now)) }
{
    let mut text = TextSink::new(alloc);
    match put_told(&mut text, digests, task, subject) {
        Ok(()) => Ok(text.into_bytes()),
        Err(_) => Err(NoMemory),
    }
}

/// The lines that tell what a report is about, if they are asked for, and else none.
pub(crate) fn told_lines(
    alloc: Global,
    worded: bool,
    digests: &[FileDigest],
    task: &Task,
    subject: &InWords,
) -> Result<Bytes, NoMemory>
    ensures { IfOk result (λ lines. MatchBool worded (lines ≡ told_by
        (map digest_view digests.now) (texts_in subject.now) (words_in subject.now)
        (task_view task.now)) (lines ≡ [])) }
{
    if worded {
        told_text(alloc, digests, task, subject)
    } else {
        Ok(Bytes::new(alloc))
    }
}

/// Writes a comment of C that has a name.
fn put_name<K: Sink>(sink: &mut K, name: &[u8]) -> Result<(), Failed>
    ensures { Writes (K.seen sink.old) (K.seen sink.new) result (name_comment name.now) }
{
    put_all(sink, b"/* ")?;
    put_all(sink, name)?;
    put_all(sink, b" */\n")
}

/// Writes a comment of C that has the name of a controller, if it has one.
fn put_title<K: Sink>(sink: &mut K, title: &[u8]) -> Result<(), Failed>
    ensures { Writes (K.seen sink.old) (K.seen sink.new) result (title_comment title.now) }
{
    if title.is_empty() {
        put_all(sink, b"")
    } else {
        put_name(sink, title)
    }
}

/// A comment of C that has the name that the first file gives its controller.
fn title_text(alloc: Global, digests: &[FileDigest]) -> Result<Bytes, NoMemory>
    ensures { IfOk result (λ lines. lines ≡ first_title (map digest_view digests.now)) }
{
    let mut text = TextSink::new(alloc);
    if let Some(file) = digests.first() {
        match put_title(&mut text, file.title.as_slice()) {
            Ok(()) => Ok(text.into_bytes()),
            Err(_) => Err(NoMemory),
        }
    } else {
        Ok(Bytes::new(alloc))
    }
}

/// The lines before what a task comes to that tells no words.
fn title_lines(alloc: Global, digests: &[FileDigest], task: &Task) -> Result<Bytes, NoMemory>
    ensures { IfOk result (λ lines. lines
        ≡ titled_by (map digest_view digests.now) (task_view task.now)) }
{
    match task {
        Task::EmitCode(_) | Task::EmitTest(_, _) | Task::EmitFileTest(_, _) => {
            title_text(alloc, digests)
        }
        _ => Ok(Bytes::new(alloc)),
    }
}

/// The lines at the head of a job's text: those that tell words, if they are asked for, or a
/// controller's name before C.
pub(crate) fn head_lines(
    alloc: Global,
    worded: bool,
    digests: &[FileDigest],
    task: &Task,
    subject: &InWords,
) -> Result<Bytes, NoMemory>
    ensures { IfOk result (λ lines. MatchBool worded (lines ≡ told_by
        (map digest_view digests.now) (texts_in subject.now) (words_in subject.now)
        (task_view task.now))
        (lines ≡ titled_by (map digest_view digests.now) (task_view task.now))) }
{
    if worded {
        told_text(alloc, digests, task, subject)
    } else {
        title_lines(alloc, digests, task)
    }
}
