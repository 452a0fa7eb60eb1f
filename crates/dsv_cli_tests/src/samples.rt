// A file as an engineer writes it, cut at each of its lengths.
use crate::runs::{files_of, status_of};
use dsv_base::MemSink;
use std::alloc::Global;

const SAMPLE: &[u8] = b"#include <dsverifier.h>
/* roll axis, wheel loop */
digital_system roll = {
\t.b = { 1.5e-1, -0.05, .25f, },
\t.b_size = 3,
\t.a = { 1.0, -0.5, 0.125 },
\t.a_size = 3,
\t.sample_time = 0.001
};
implementation flight = {
\t.frac_bits = 13, // field order is free
\t.int_bits = 3,
\t.min = -1.0,
\t.max = 1.0,
\t.delta = 0.25
};
hardware board = {
\t.clock = 16000000,
\t.assembly = { .push = 2, .mult = { 2, 4 }, .nop = 1 }
};
";

/// Ends of the four lengths at which it is a file: before the hardware and after it, with the line
/// feed and without.
const ENDS: [&[u8]; 4] = [b"0.25\n};", b"0.25\n};\n", b"1 }\n};", b"1 }\n};\n"];

/// What the command writes on it.
const TEXT: &[u8] = b"VERIFICATION SUCCESSFUL\nproperty STABILITY realization DFI\n\
    polynomial 8 -4 1\nform 1152 -64\nform -64 473\nfall 29120 0\nfall 0 29120\n";

/// How it refuses a text that is cut.
const REFUSALS: [&[u8]; 2] = [
    b"FILE REFUSED 2 TOKEN at ",
    b"FILE REFUSED 3 UNEXPECTED at ",
];

/// Whether the command decides these bytes where they end as a file does, and refuses them else.
fn is_as_told(alloc: Global, bytes: &[u8]) -> Option<bool> {
    let mut files = files_of(alloc, "f", bytes)?;
    let mut sink = MemSink::new(alloc, 1000).ok()?;
    let words = ["f", "--property", "STABILITY"];
    let status = status_of(alloc, &words, &mut files, &mut sink)?;
    let text = sink.bytes();
    Some(if ENDS.iter().any(|end| bytes.ends_with(end)) {
        status == 0 && text == TEXT
    } else {
        status == 2 && REFUSALS.iter().any(|refusal| text.starts_with(refusal))
    })
}

/// Whether it does so at each length.
fn are_as_told(alloc: Global) -> bool {
    for length in 0..=SAMPLE.len() {
        if is_as_told(alloc, &SAMPLE[..length]) != Some(true) {
            return false;
        }
    }
    true
}

#[test]
fn a_cut_sample_is_a_file_at_four_lengths(rt: HostRuntime) {
    assert!(rt; are_as_told(rt.alloc()));
}
