// Faults of files and of the sink, which the command names.
use crate::runs::{Ending, ending_of, files_of, status_of};
use dsv_base::MemSink;
use std::alloc::Global;

/// The pole at 0.5.
const FILE: &[u8] =
    b"digital_system d = { .b = {1.0}, .b_size = 1, .a = {1.0, -0.5}, .a_size = 2 }; \
      implementation r = { .int_bits = 2, .frac_bits = 14, .max = 1.0, .min = -1.0 };";

/// What the command writes on it.
const TEXT: &[u8] =
    b"VERIFICATION SUCCESSFUL\nproperty STABILITY realization DFI\npolynomial 2 -1\nform 1\nfall 3\n";

const JOB: [&str; 3] = ["f", "--property", "STABILITY"];

const READ_FAULT: &[u8] = b"READ FAULT CONTROLLER\n";

/// A file is held under a name, and a fetch fails; the run ends with this status and text.
#[derive(Clone, Copy)]
struct FileFault {
    name: &'static str,
    fetch: u64,
    status: u8,
    text: &'static [u8],
}

/// The file is read by two fetches, and a third isn't made.
const FILE_FAULTS: [FileFault; 4] = [
    FileFault {
        name: "f",
        fetch: 0,
        status: 3,
        text: READ_FAULT,
    },
    FileFault {
        name: "f",
        fetch: 1,
        status: 3,
        text: READ_FAULT,
    },
    FileFault {
        name: "f",
        fetch: 2,
        status: 0,
        text: TEXT,
    },
    FileFault {
        name: "g",
        fetch: 9,
        status: 3,
        text: READ_FAULT,
    },
];

/// Whether the run names the fault of the file, or ends where there is none.
fn names_read_fault(alloc: Global, fault: &FileFault) -> Option<bool> {
    let mut files = files_of(alloc, fault.name, FILE)?;
    files.fail_at(fault.fetch).ok()?;
    let mut sink = MemSink::new(alloc, 1000).ok()?;
    let status = status_of(alloc, &JOB, &mut files, &mut sink)?;
    Some(status == fault.status && sink.bytes() == fault.text)
}

/// A put fails, or the sink has this room; so many bytes of the text are taken, and the run ends
/// with this status.
#[derive(Clone, Copy)]
struct SinkFault {
    put: u64,
    room: usize,
    taken: usize,
    status: u8,
}

const SINK_FAULTS: [SinkFault; 3] = [
    SinkFault {
        put: 0,
        room: 1000,
        taken: 0,
        status: 4,
    },
    SinkFault {
        put: 99,
        room: 10,
        taken: 10,
        status: 4,
    },
    SinkFault {
        put: 99,
        room: 89,
        taken: 89,
        status: 0,
    },
];

/// Whether the run ends with the status, its answer stays, and the sink took a prefix of the text.
fn ends_as_told(alloc: Global, fault: &SinkFault) -> Option<bool> {
    let mut files = files_of(alloc, "f", FILE)?;
    let mut sink = MemSink::new(alloc, fault.room).ok()?;
    sink.fail_at(fault.put).ok()?;
    let Ending { status, falls } = ending_of(alloc, &JOB, &mut files, &mut sink)?;
    Some(falls && status == fault.status && Some(sink.bytes()) == TEXT.get(..fault.taken))
}

/// Poles at 0.5 + 0.5i and 0.5 - 0.5i.
const TWO_POLES: &[u8] =
    b"digital_system d = { .b = {1.0}, .b_size = 1, .a = {1.0, -1.0, 0.5}, .a_size = 3 }; \
      implementation r = { .int_bits = 2, .frac_bits = 2, .max = 1.0, .min = -1.0 };";

/// What the command writes on them.
const LONGER_TEXT: &[u8] = b"VERIFICATION SUCCESSFUL\nproperty STABILITY realization DFI\n\
    polynomial 2 -2 1\nform 24 -8\nform -8 11\nfall 20 0\nfall 0 20\n";

/// How many bytes are taken where the put of this number fails: a prefix of the text, and all of it
/// where no such put is made.
fn taken_before(alloc: Global, put: u64) -> Option<usize> {
    let mut files = files_of(alloc, "f", TWO_POLES)?;
    let mut sink = MemSink::new(alloc, 1000).ok()?;
    sink.fail_at(put).ok()?;
    let Ending { status, falls } = ending_of(alloc, &JOB, &mut files, &mut sink)?;
    let taken = sink.bytes();
    let wanted = if taken == LONGER_TEXT { 0 } else { 4 };
    let is_as_told = falls && status == wanted && LONGER_TEXT.starts_with(taken);
    is_as_told.then_some(taken.len())
}

/// Whether each put fails in turn, up to the whole text, and each leaves more than the one before.
fn are_cut_short(alloc: Global) -> Option<bool> {
    let mut before = 0;
    for put in 0..=LONGER_TEXT.len() as u64 {
        let taken = taken_before(alloc, put)?;
        if put > 0 && taken <= before {
            return Some(false);
        }
        if taken == LONGER_TEXT.len() {
            return Some(put > 0);
        }
        before = taken;
    }
    Some(false)
}

#[test]
fn a_fault_of_the_file_is_named(rt: HostRuntime) {
    for fault in &FILE_FAULTS {
        assert!(rt; names_read_fault(rt.alloc(), fault) == Some(true));
    }
}

#[test]
fn a_fault_of_the_sink_leaves_a_prefix(rt: HostRuntime) {
    for fault in &SINK_FAULTS {
        assert!(rt; ends_as_told(rt.alloc(), fault) == Some(true));
    }
}

#[test]
fn each_put_that_fails_leaves_a_prefix(rt: HostRuntime) {
    assert!(rt; are_cut_short(rt.alloc()) == Some(true));
}
