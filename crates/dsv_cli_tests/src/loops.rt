// Loops of a controller with its plant, worked by hand: what the command answers and checks, and
// which file's read failed.
use crate::runs::{files_of, status_of};
use dsv_base::{MemFiles, MemSink};
use std::alloc::Global;

/// The gain 0.5.
const GAIN: &[u8] = b"digital_system d = { .b = {0.5}, .b_size = 1, .a = {1.0}, .a_size = 1 }; \
    implementation r = { .int_bits = 2, .frac_bits = 14, .max = 1.0, .min = -1.0 };";

/// 0.5 z^-1 / (1 - 0.75 z^-1): with the gain the loop is 1 - 0.75 z^-1 + 0.25 z^-1, times 2.
const PLANT: &[u8] =
    b"digital_system p = { .b = {0, 0.5}, .b_size = 2, .a = {1, -0.75}, .a_size = 2 };";

const JOB: [&str; 5] = ["f", "--property", "STABILITY", "--plant", "p"];

const CERTIFY: [&str; 6] = [
    "f",
    "--property",
    "STABILITY",
    "--plant",
    "p",
    "--certificate",
];

const CHECK: [&str; 5] = ["f", "--check", "c", "--plant", "p"];

/// The table's second row is 2^2 - 1^2, and the root is 1/2.
const TEXT: &[u8] = b"VERIFICATION SUCCESSFUL\nproperty STABILITY realization DFI plant\n\
    polynomial 2 -1\ntable inside\ngreatest root from 0.50000 to 0.50001\n";

const ACCEPTED: &[u8] = b"CERTIFICATE ACCEPTED\nproperty STABILITY realization DFI plant\n";

const CONTROLLER_FAULT: &[u8] = b"READ FAULT CONTROLLER\n";

const PLANT_FAULT: &[u8] = b"READ FAULT PLANT\n";

const CERTIFICATE_FAULT: &[u8] = b"READ FAULT CERTIFICATE\n";

/// A run whose fetch of this number fails ends with this status and text.
#[derive(Clone, Copy)]
struct Ended(u64, u8, &'static [u8]);

/// Both files are read by two fetches each, and a fifth isn't made.
const JOBS: [Ended; 5] = [
    Ended(0, 3, CONTROLLER_FAULT),
    Ended(1, 3, CONTROLLER_FAULT),
    Ended(2, 3, PLANT_FAULT),
    Ended(3, 3, PLANT_FAULT),
    Ended(4, 0, TEXT),
];

/// The certificate comes after both files.
const CHECKS: [Ended; 6] = [
    Ended(1, 3, CONTROLLER_FAULT),
    Ended(2, 3, PLANT_FAULT),
    Ended(3, 3, PLANT_FAULT),
    Ended(4, 3, CERTIFICATE_FAULT),
    Ended(5, 3, CERTIFICATE_FAULT),
    Ended(6, 0, ACCEPTED),
];

/// The files of the controller and the plant.
fn both_files(alloc: Global) -> Option<MemFiles> {
    let mut files = files_of(alloc, "f", GAIN)?;
    files.hold("p", PLANT).ok()?;
    Some(files)
}

/// Whether the job ends so.
fn ends_so(alloc: Global, mut files: MemFiles, job: &[&str], ended: &Ended) -> Option<bool> {
    files.fail_at(ended.0).ok()?;
    let mut sink = MemSink::new(alloc, 1000).ok()?;
    let status = status_of(alloc, job, &mut files, &mut sink)?;
    Some(status == ended.1 && sink.bytes() == ended.2)
}

/// Whether the job for the loop ends so.
fn is_decided(alloc: Global, ended: &Ended) -> Option<bool> {
    ends_so(alloc, both_files(alloc)?, &JOB, ended)
}

#[test]
fn a_loop_is_decided_or_its_file_named(rt: HostRuntime) {
    for ended in &JOBS {
        assert!(rt; is_decided(rt.alloc(), ended) == Some(true));
    }
}

/// The certificate that the command writes for the loop.
fn written_certificate(alloc: Global) -> Option<MemSink> {
    let mut files = both_files(alloc)?;
    let mut sink = MemSink::new(alloc, 1000).ok()?;
    (status_of(alloc, &CERTIFY, &mut files, &mut sink)? == 0).then_some(sink)
}

/// Whether the check of the written certificate ends so.
fn is_checked(alloc: Global, ended: &Ended) -> Option<bool> {
    let written = written_certificate(alloc)?;
    let mut files = both_files(alloc)?;
    files.hold("c", written.bytes()).ok()?;
    ends_so(alloc, files, &CHECK, ended)
}

#[test]
fn a_loop_s_certificate_is_accepted_or_its_file_named(rt: HostRuntime) {
    for ended in &CHECKS {
        assert!(rt; is_checked(rt.alloc(), ended) == Some(true));
    }
}
