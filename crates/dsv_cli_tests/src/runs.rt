// Runs of the command over files and a sink in memory.
use dsv_base::{Files, MemFiles, MemSink};
use dsv_cli::{
    Answer, BoxProposer, Done, FormProposer, InvariantProposer, Proposers, SumProposer, run,
};
use std::alloc::Global;

/// These words as arguments.
fn arguments(alloc: Global, words: &[&str]) -> Option<Vec<String>> {
    let mut arguments = Vec::new(alloc);
    for word in words {
        arguments.push(String::from_str(alloc, word).ok()?).ok()?;
    }
    Some(arguments)
}

/// The file of this name.
pub(crate) fn files_of(alloc: Global, name: &str, bytes: &[u8]) -> Option<MemFiles> {
    let mut files = MemFiles::new(alloc);
    files.hold(name, bytes).ok()?;
    Some(files)
}

/// What a run with these proposers comes to.
pub(crate) fn run_with<F: Files>(
    alloc: Global,
    words: &[&str],
    files: &mut F,
    sink: &mut MemSink,
    proposers: &mut Proposers,
) -> Option<Done> {
    let arguments = arguments(alloc, words)?;
    Some(run(alloc, &arguments, files, sink, proposers))
}

/// The proposers that are built in.
fn built_in(alloc: Global) -> Option<Proposers> {
    let mut sets: Vec<Box<dyn InvariantProposer>> = Vec::new(alloc);
    sets.push(Box::new(alloc, BoxProposer::new()).ok()?).ok()?;
    let mut forms: Vec<Box<dyn FormProposer>> = Vec::new(alloc);
    forms.push(Box::new(alloc, SumProposer::new()).ok()?).ok()?;
    Some(Proposers { sets, forms })
}

/// How a run ended.
#[derive(Clone, Copy)]
pub(crate) struct Ending {
    pub(crate) status: u8,
    /// Whether its answer is a form that falls.
    pub(crate) falls: bool,
}

/// How a run with the proposers that are built in ends.
pub(crate) fn ending_of<F: Files>(
    alloc: Global,
    words: &[&str],
    files: &mut F,
    sink: &mut MemSink,
) -> Option<Ending> {
    let mut proposers = built_in(alloc)?;
    let done = run_with(alloc, words, files, sink, &mut proposers)?;
    Some(Ending {
        status: done.status,
        falls: matches!(&done.outcome, Ok(Answer::Falls { .. })),
    })
}

/// The status of a run with the proposers that are built in.
pub(crate) fn status_of<F: Files>(
    alloc: Global,
    words: &[&str],
    files: &mut F,
    sink: &mut MemSink,
) -> Option<u8> {
    Some(ending_of(alloc, words, files, sink)?.status)
}
