// Certificates that the command writes, and certificates that it checks.
use crate::pieces::OneByOne;
use crate::runs::{files_of, status_of};
use dsv_base::{Files, MemSink};
use std::alloc::Global;

/// Poles at 0.5 + 0.5i and 0.5 - 0.5i.
const TWO_POLES: &[u8] = b"digital_system d = { .b = {1.0}, .b_size = 1, .a = {1.0, -1.0, 0.5}, \
    .a_size = 3 }; implementation r = { .int_bits = 2, .frac_bits = 2, .max = 1.0, .min = -1.0 };";

/// y = x + y1, in words of four bits: the coefficient -0.9 becomes -1.
const SUM: &[u8] = b"digital_system d = { .b = {1.0}, .b_size = 1, .a = {1.0, -0.9}, \
    .a_size = 2 }; implementation r = { .int_bits = 2, .frac_bits = 2, .max = 1.0, .min = -1.0 };";

/// y = x / 2 + y1 / 2, in words of four bits.
const HALVES: &[u8] = b"digital_system d = { .b = {0.5}, .b_size = 1, .a = {1.0, -0.5}, \
    .a_size = 2 }; implementation r = { .int_bits = 2, .frac_bits = 2, .max = 1.0, .min = -1.0 };";

/// The average of three inputs, in words of 16 bits.
const AVERAGE: &[u8] = b"digital_system d = { .b = {0.25, 0.25, 0.25}, .b_size = 3, \
    .a = {1.0}, .a_size = 1 }; implementation r = { .int_bits = 2, .frac_bits = 14, .max = 2.0, \
    .min = -2.0 };";

/// What the check of the certificate of a file says.
#[derive(Clone, Copy)]
struct Row {
    file: &'static [u8],
    job: &'static [&'static str],
    accepted: &'static [u8],
}

const ACCEPTED: &[u8] = b"CERTIFICATE ACCEPTED\nproperty STABILITY realization DFI\n";

const STABILITY: Row = Row {
    file: TWO_POLES,
    job: &["f", "--property", "STABILITY", "--certificate"],
    accepted: ACCEPTED,
};

const UNBOUNDED: Row = Row {
    file: HALVES,
    job: &[
        "f",
        "--property",
        "OVERFLOW",
        "--unbounded",
        "--certificate",
    ],
    accepted: b"CERTIFICATE ACCEPTED\nproperty OVERFLOW realization DFI unbounded\n",
};

/// y = x + y1, in words of 48 bits.
const WIDE_SUM: &[u8] = b"digital_system d = { .b = {1.0}, .b_size = 1, .a = {1.0, -1.0}, \
    .a_size = 2 }; implementation r = { .int_bits = 2, .frac_bits = 46, .max = 1.0, .min = 1.0 };";

const ROWS: [Row; 6] = [
    STABILITY,
    UNBOUNDED,
    Row {
        file: WIDE_SUM,
        job: &[
            "f",
            "--property",
            "OVERFLOW",
            "--x-size",
            "1",
            "--certificate",
        ],
        accepted: b"CERTIFICATE ACCEPTED\nproperty OVERFLOW realization DFI samples 1\n",
    },
    Row {
        file: HALF_POLE_OF_33,
        job: &["f", "--property", "OVERFLOW", "--gain", "--certificate"],
        accepted: b"CERTIFICATE ACCEPTED\nproperty OVERFLOW realization DFI unbounded\n\
error depth 2 least -1 greatest 3\n",
    },
    Row {
        file: SUM,
        job: &[
            "f",
            "--property",
            "OVERFLOW",
            "--x-size",
            "1",
            "--certificate",
        ],
        accepted: b"CERTIFICATE ACCEPTED\nproperty OVERFLOW realization DFI samples 1\n",
    },
    Row {
        file: AVERAGE,
        job: &["f", "--property", "OVERFLOW", "--certificate"],
        accepted: b"CERTIFICATE ACCEPTED\nproperty OVERFLOW realization DFI samples 10\n",
    },
];

/// What a run writes, and its status.
#[derive(Drop)]
struct Output {
    status: u8,
    sink: MemSink,
}

/// What a run over these files writes.
fn output_of<F: Files>(alloc: Global, files: &mut F, job: &[&str]) -> Option<Output> {
    let mut sink = MemSink::new(alloc, 20_000).ok()?;
    let status = status_of(alloc, job, files, &mut sink)?;
    Some(Output { status, sink })
}

/// What a row's run writes: a certificate.
fn certificate_of(alloc: Global, row: &Row) -> Option<Output> {
    let mut files = files_of(alloc, "f", row.file)?;
    output_of(alloc, &mut files, row.job)
}

const CHECK: [&str; 3] = ["f", "--check", "c"];

/// What the check of a certificate against a controller's file writes.
fn output_of_check(alloc: Global, file: &[u8], certificate: &[u8]) -> Option<Output> {
    let mut files = files_of(alloc, "f", file)?;
    files.hold("c", certificate).ok()?;
    output_of(alloc, &mut files, &CHECK)
}

/// Whether the check ends with this status, and what it writes with these bytes.
fn ends_with(alloc: Global, file: &[u8], certificate: &[u8], status: u8, end: &[u8]) -> bool {
    match output_of_check(alloc, file, certificate) {
        Some(output) => output.status == status && output.sink.bytes().ends_with(end),
        None => false,
    }
}

/// Whether a certificate is accepted for its own file.
fn is_accepted(alloc: Global, row: &Row) -> bool {
    match certificate_of(alloc, row) {
        Some(written) => ends_with(alloc, row.file, written.sink.bytes(), 0, row.accepted),
        None => false,
    }
}

#[test]
fn what_is_written_is_accepted(rt: HostRuntime) {
    for row in &ROWS {
        assert!(rt; is_accepted(rt.alloc(), row));
    }
}

/// Whether a certificate is the same where the file gives one byte at a time, and is accepted where
/// its own file does, too.
fn is_same_one_by_one(alloc: Global, row: &Row) -> Option<bool> {
    let written = certificate_of(alloc, row)?;
    let mut files = OneByOne {
        files: files_of(alloc, "f", row.file)?,
    };
    let again = output_of(alloc, &mut files, row.job)?;
    let is_same = again.status == written.status && again.sink.bytes() == written.sink.bytes();
    files.files.hold("c", written.sink.bytes()).ok()?;
    let checked = output_of(alloc, &mut files, &CHECK)?;
    Some(is_same && checked.status == 0 && checked.sink.bytes() == row.accepted)
}

#[test]
fn files_that_give_one_byte_at_a_time_change_nothing(rt: HostRuntime) {
    for row in &ROWS {
        assert!(rt; is_same_one_by_one(rt.alloc(), row) == Some(true));
    }
}

/// Whether the set of the halves is refused for the sum.
fn is_set_refused(alloc: Global) -> bool {
    match certificate_of(alloc, &UNBOUNDED) {
        Some(written) => ends_with(alloc, SUM, written.sink.bytes(), 7, b" code 6 STEP\n"),
        None => false,
    }
}

#[test]
fn a_set_of_another_controller_is_refused(rt: HostRuntime) {
    assert!(rt; is_set_refused(rt.alloc()));
}

/// Whether each shorter text of the certificate ends too early.
fn are_cut(alloc: Global, certificate: &[u8]) -> bool {
    for length in 0..certificate.len() {
        if !ends_with(
            alloc,
            TWO_POLES,
            &certificate[..length],
            7,
            b" code 5 END\n",
        ) {
            return false;
        }
    }
    true
}

/// Whether the certificate with `x` in this place is refused.
fn is_refused_at(alloc: Global, certificate: &[u8], place: usize) -> Option<bool> {
    let mut changed = Vec::from_slice(alloc, certificate).ok()?;
    *changed.get_mut(place)? = b'x';
    Some(ends_with(alloc, TWO_POLES, changed.as_slice(), 7, b""))
}

/// Whether the certificate with any of its bytes replaced by `x` is refused.
fn are_refused(alloc: Global, certificate: &[u8]) -> bool {
    for place in 0..certificate.len() {
        if is_refused_at(alloc, certificate, place) != Some(true) {
            return false;
        }
    }
    true
}

/// A fetch that fails, and the status and the text of the check of a certificate then.
struct Blamed(u64, u8, &'static [u8]);

/// Both files are read by two fetches, and a fifth isn't made.
const BLAMED: [Blamed; 5] = [
    Blamed(0, 3, b"READ FAULT CONTROLLER\n"),
    Blamed(1, 3, b"READ FAULT CONTROLLER\n"),
    Blamed(2, 3, b"READ FAULT CERTIFICATE\n"),
    Blamed(3, 3, b"READ FAULT CERTIFICATE\n"),
    Blamed(4, 0, ACCEPTED),
];

/// Whether the check names the file whose read fails first.
fn is_blamed(alloc: Global, certificate: &[u8], row: &Blamed) -> Option<bool> {
    let mut files = files_of(alloc, "f", TWO_POLES)?;
    files.hold("c", certificate).ok()?;
    files.fail_at(row.0).ok()?;
    let output = output_of(alloc, &mut files, &CHECK)?;
    Some(output.status == row.1 && output.sink.bytes() == row.2)
}

/// Whether the check names the file at each of these fetches.
fn are_blamed(alloc: Global, certificate: &[u8]) -> bool {
    BLAMED
        .iter()
        .all(|row| is_blamed(alloc, certificate, row) == Some(true))
}

/// Whether a certificate that is cut has no end, one with another byte is refused, and the file
/// whose read fails is named.
fn are_faults_found(alloc: Global) -> bool {
    match certificate_of(alloc, &STABILITY) {
        Some(written) => {
            let certificate = written.sink.bytes();
            certificate.len() > 0
                && are_cut(alloc, certificate)
                && are_refused(alloc, certificate)
                && are_blamed(alloc, certificate)
        }
        None => false,
    }
}

#[test]
fn faults_of_a_certificate_are_found(rt: HostRuntime) {
    assert!(rt; are_faults_found(rt.alloc()));
}

const TOO_LONG: &[u8] = b"CERTIFICATE REFUSED line 0 code 9 TOO_LONG\n";

/// Whether a certificate over 64 mebibytes is too long.
fn is_too_long(alloc: Global) -> Option<bool> {
    let mut long = Vec::new(alloc);
    long.resize((1 << 26) + 1, b'x').ok()?;
    Some(ends_with(alloc, TWO_POLES, long.as_slice(), 7, TOO_LONG))
}

#[test]
fn a_certificate_over_64_mebibytes_is_too_long(rt: HostRuntime) {
    assert!(rt; is_too_long(rt.alloc()) == Some(true));
}

// ---- the format of the words

/// A pole at 0.5, in words of 32 bits.
const HALF_POLE_OF_32: &[u8] = b"digital_system d = { .b = {1.0}, .b_size = 1, .a = {1.0, -0.5}, \
    .a_size = 2 }; implementation r = { .int_bits = 16, .frac_bits = 16, .max = 1.0, .min = -1 };";

/// The same in words of 33 bits.
const HALF_POLE_OF_33: &[u8] = b"digital_system d = { .b = {1.0}, .b_size = 1, .a = {1.0, -0.5}, \
    .a_size = 2 }; implementation r = { .int_bits = 17, .frac_bits = 16, .max = 1.0, .min = -1 };";

/// The same with a coefficient that is no word.
const NO_WORDS_OF_33: &[u8] = b"digital_system d = { .b = {1e5}, .b_size = 1, .a = {1.0, -0.5}, \
    .a_size = 2 }; implementation r = { .int_bits = 17, .frac_bits = 16, .max = 1.0, .min = -1 };";

/// 2 - 1 z^-1 is the polynomial: the form is 1, and it loses 2^2 - 1^2 in a step.
const VERSION_1: &[u8] = b"dsv-certificate 1\njob STABILITY DFI FLOOR WRAPAROUND\nkind falls 1\n\
    form 1\npositive 1 1\nsquare 1 1\nrest 0\nfall 1 1\nsquare 3 1\nrest 0\nend\n";

const VERSION_2: &[u8] = b"dsv-certificate 2\njob STABILITY DFI FLOOR WRAPAROUND\n\
    format 17 16\nkind falls 1\n\
    form 1\npositive 1 1\nsquare 1 1\nrest 0\nfall 1 1\nsquare 3 1\nrest 0\nend\n";

/// The format of the words of 32 bits.
const VERSION_2_OF_32: &[u8] = b"dsv-certificate 2\njob STABILITY DFI FLOOR WRAPAROUND\n\
    format 16 16\nkind falls 1\n\
    form 1\npositive 1 1\nsquare 1 1\nrest 0\nfall 1 1\nsquare 3 1\nrest 0\nend\n";

/// 33 bits, of which 16 stand before the point.
const EXCHANGED: &[u8] = b"dsv-certificate 2\njob STABILITY DFI FLOOR WRAPAROUND\n\
    format 16 17\nkind falls 1\n\
    form 1\npositive 1 1\nsquare 1 1\nrest 0\nfall 1 1\nsquare 3 1\nrest 0\nend\n";

/// The form loses 3 in a step, and not 2.
const WRONG_SQUARE: &[u8] = b"dsv-certificate 2\njob STABILITY DFI FLOOR WRAPAROUND\n\
    format 17 16\nkind falls 1\n\
    form 1\npositive 1 1\nsquare 1 1\nrest 0\nfall 1 1\nsquare 2 1\nrest 0\nend\n";

/// A property that the certificate's kind doesn't show, of a form of another order.
const OTHER_ORDER: &[u8] = b"dsv-certificate 2\njob STABILITY DFI FLOOR WRAPAROUND\n\
    format 17 16\nkind falls 0\npositive 1 0\nfall 1 0\nend\n";

/// A controller's file, a certificate, and the status and the text of the check.
struct Format(&'static [u8], &'static [u8], u8, &'static [u8]);

const FORMATS: [Format; 10] = [
    Format(HALF_POLE_OF_32, VERSION_1, 0, ACCEPTED),
    Format(HALF_POLE_OF_33, VERSION_2, 0, ACCEPTED),
    Format(HALF_POLE_OF_32, VERSION_2_OF_32, 0, ACCEPTED),
    Format(
        HALF_POLE_OF_33,
        VERSION_1,
        7,
        b"CERTIFICATE REFUSED line 1 code 10 FORMAT\n",
    ),
    Format(
        HALF_POLE_OF_32,
        VERSION_2,
        7,
        b"CERTIFICATE REFUSED line 3 code 10 FORMAT\n",
    ),
    Format(
        HALF_POLE_OF_33,
        EXCHANGED,
        7,
        b"CERTIFICATE REFUSED line 3 code 10 FORMAT\n",
    ),
    Format(
        NO_WORDS_OF_33,
        VERSION_1,
        7,
        b"CERTIFICATE REFUSED line 1 code 10 FORMAT\n",
    ),
    Format(
        NO_WORDS_OF_33,
        VERSION_2,
        2,
        b"FILE REFUSED 21 COEFFICIENT_RANGE b 0 wanted 6553600000\n",
    ),
    Format(
        HALF_POLE_OF_33,
        WRONG_SQUARE,
        7,
        b"CERTIFICATE REFUSED line 11 code 7 FORM\n",
    ),
    Format(
        HALF_POLE_OF_33,
        OTHER_ORDER,
        7,
        b"CERTIFICATE REFUSED line 4 code 8 SHAPE\n",
    ),
];

/// Whether the check of the certificate writes this.
fn is_judged(alloc: Global, row: &Format) -> bool {
    match output_of_check(alloc, row.0, row.1) {
        Some(output) => output.status == row.2 && output.sink.bytes() == row.3,
        None => false,
    }
}

#[test]
fn certificates_of_another_format_are_refused(rt: HostRuntime) {
    for row in &FORMATS {
        assert!(rt; is_judged(rt.alloc(), row));
    }
}

/// Whether the certificate of a file's stability is this.
fn is_written(alloc: Global, file: &'static [u8], certificate: &[u8]) -> bool {
    let row = Row { file, ..STABILITY };
    match certificate_of(alloc, &row) {
        Some(output) => output.status == 0 && output.sink.bytes() == certificate,
        None => false,
    }
}

#[test]
fn words_of_more_than_32_bits_have_certificates_of_version_2(rt: HostRuntime) {
    let of_32 = is_written(rt.alloc(), HALF_POLE_OF_32, VERSION_1);
    assert!(rt; of_32 && is_written(rt.alloc(), HALF_POLE_OF_33, VERSION_2));
}
