// Texts that are no certificates: the first fault, and its line.
use dsv_certfile::{CertRefusal, CheckFault, TextFault, read};
use std::alloc::{AllocError, Global};

/// The lines up to nothing.
const NOTHING: &str = "";

/// The lines up to the version.
const VERSION: &str = "dsv-certificate 1\n";

/// The line of version 2.
const SECOND_VERSION: &str = "dsv-certificate 2\n";

/// The lines of version 2 up to a job of roots.
const SECOND_STABILITY: &str = "dsv-certificate 2\njob STABILITY DFI FLOOR WRAPAROUND\n";

/// The lines of version 2 up to a format of 48 bits.
const WIDE_STABILITY: &str = "dsv-certificate 2\n\
    job STABILITY DFI FLOOR WRAPAROUND\n\
    format 2 46\n";

/// The lines of version 2 up to a log.
const WIDE_HINTS: &str = "dsv-certificate 2\n\
    job OVERFLOW DFI FLOOR WRAPAROUND 1\n\
    format 2 46\n\
    kind hints\n";

/// The lines of version 2 up to an invariant of one inequality.
const WIDE_SET: &str = "dsv-certificate 2\n\
    job OVERFLOW DFI FLOOR WRAPAROUND unbounded\n\
    format 2 46\n\
    kind invariant 1 1\n";

/// The lines up to a job of roots.
const STABILITY: &str = "dsv-certificate 1\njob STABILITY DFI FLOOR WRAPAROUND\n";

/// The lines up to a job of one sample.
const OVERFLOW: &str = "dsv-certificate 1\njob OVERFLOW DFI FLOOR WRAPAROUND 1\n";

/// The lines up to a job without a bound.
const UNBOUNDED: &str = "dsv-certificate 1\n\
    job OVERFLOW DFI FLOOR WRAPAROUND unbounded\n";

/// The lines up to a form of two places.
const FALLS_2: &str = "dsv-certificate 1\n\
    job STABILITY DFI FLOOR WRAPAROUND\n\
    kind falls 2\n";

/// The lines up to a form of one place.
const FALLS_1: &str = "dsv-certificate 1\n\
    job STABILITY DFI FLOOR WRAPAROUND\n\
    kind falls 1\n";

/// The lines up to a form of no places.
const FALLS_0: &str = "dsv-certificate 1\n\
    job STABILITY DFI FLOOR WRAPAROUND\n\
    kind falls 0\n";

/// The lines up to a log.
const HINTS: &str = "dsv-certificate 1\n\
    job OVERFLOW DFI FLOOR WRAPAROUND 1\n\
    kind hints\n";

/// The lines up to the end of a gain.
const GAIN: &str = "dsv-certificate 1\n\
    job OVERFLOW DFI FLOOR WRAPAROUND unbounded\n\
    kind gain 7\n";

/// The lines up to a box of one range.
const BOX: &str = "dsv-certificate 1\n\
    job OVERFLOW DFI FLOOR WRAPAROUND unbounded\n\
    kind error 7 9 1\n";

/// The lines up to an invariant of no inequalities.
const EMPTY_SET: &str = "dsv-certificate 1\n\
    job OVERFLOW DFI FLOOR WRAPAROUND unbounded\n\
    kind invariant 1 0\n";

/// The lines up to an invariant of one inequality.
const ONE_SET: &str = "dsv-certificate 1\n\
    job OVERFLOW DFI FLOOR WRAPAROUND unbounded\n\
    kind invariant 1 1\n";

/// The lines up to a loop's job.
const LOOP: &str = "dsv-certificate 1\njob STABILITY DFI FLOOR WRAPAROUND plant\n";

/// The lines up to a table of two coefficients.
const TABLE: &str = "dsv-certificate 1\n\
    job STABILITY DFI FLOOR WRAPAROUND plant\n\
    kind table 2\n";

/// A text in two parts, and its refusal: the line, and the fault.
pub(crate) struct Refused(
    pub(crate) &'static str,
    pub(crate) &'static str,
    pub(crate) u64,
    pub(crate) TextFault,
);

const HEADINGS: &[Refused] = &[
    Refused(NOTHING, "", 1, TextFault::End),
    Refused(NOTHING, "dsv-certificate 1", 1, TextFault::End),
    Refused(NOTHING, "dsv-certificate 2", 1, TextFault::End),
    Refused(NOTHING, "dsv-certificate 3\n", 1, TextFault::Version),
    Refused(NOTHING, "dsv-certificate 0\n", 1, TextFault::Version),
    Refused(NOTHING, "dsv-certificate 12\n", 1, TextFault::Version),
    Refused(NOTHING, "dsv-certificate 02\n", 1, TextFault::Version),
    Refused(NOTHING, "dsv-certificate \n", 1, TextFault::Version),
    Refused(NOTHING, "dsv-certificate 1 \n", 1, TextFault::Version),
    Refused(NOTHING, "dsv-certificate 2 \n", 1, TextFault::Version),
    Refused(NOTHING, "\n", 1, TextFault::Version),
    Refused(VERSION, "", 2, TextFault::End),
    Refused(
        VERSION,
        "jobs STABILITY DFI FLOOR WRAPAROUND\n",
        2,
        TextFault::Kind,
    ),
    Refused(VERSION, "job STABILITY DFI FLOOR\n", 2, TextFault::Kind),
    Refused(
        VERSION,
        "job STABILITY DFX FLOOR WRAPAROUND x y\n",
        2,
        TextFault::Kind,
    ),
    Refused(
        VERSION,
        "job STABILITY DFI FLOOR WRAPAROUND x\n",
        2,
        TextFault::Number,
    ),
    Refused(
        VERSION,
        "job OVERFLOW DFI FLOOR WRAPAROUND 0\n",
        2,
        TextFault::Number,
    ),
    Refused(
        VERSION,
        "job OVERFLOW DFI FLOOR WRAPAROUND 65\n",
        2,
        TextFault::Number,
    ),
    Refused(
        VERSION,
        "job OVERFLOW DFI FLOOR WRAPAROUND 064\n",
        2,
        TextFault::Number,
    ),
    Refused(
        VERSION,
        "job OVERFLOW DFI FLOOR WRAPAROUND \n",
        2,
        TextFault::Number,
    ),
    Refused(
        VERSION,
        "job OVERFLOW DFI FLOOR WRAPAROUND 1 1\n",
        2,
        TextFault::Line,
    ),
    Refused(
        VERSION,
        "job OVERFLOW DFI FLOOR WRAPAROUND unbounded 1\n",
        2,
        TextFault::Line,
    ),
    Refused(
        VERSION,
        "job STABILITY DFI FLOOR WRAPAROUND plants\n",
        2,
        TextFault::Number,
    ),
    Refused(
        VERSION,
        "job STABILITY DFI FLOOR WRAPAROUND plan\n",
        2,
        TextFault::Number,
    ),
    Refused(
        VERSION,
        "job STABILITY DFI FLOOR WRAPAROUND Plant\n",
        2,
        TextFault::Number,
    ),
    Refused(
        VERSION,
        "job STABILITY DFI FLOOR WRAPAROUND plant 3\n",
        2,
        TextFault::Line,
    ),
    Refused(
        VERSION,
        "job STABILITY DFI FLOOR WRAPAROUND plant \n",
        2,
        TextFault::Line,
    ),
    Refused(
        VERSION,
        "job STABILITY DFI FLOOR WRAPAROUND plant\nkind gain 0\n",
        3,
        TextFault::Kind,
    ),
    Refused(
        VERSION,
        "job MINIMUM_PHASE DFI FLOOR WRAPAROUND plant\nkind falls 0\n",
        3,
        TextFault::Kind,
    ),
    Refused(
        VERSION,
        "job OVERFLOW DFI FLOOR WRAPAROUND plant\nkind hints\n",
        3,
        TextFault::Kind,
    ),
    Refused(
        VERSION,
        "job TIMING DFI FLOOR WRAPAROUND\nkind hints\n",
        3,
        TextFault::Kind,
    ),
    Refused(SECOND_VERSION, "", 2, TextFault::End),
    Refused(SECOND_VERSION, "format 2 46\n", 2, TextFault::Kind),
    Refused(
        SECOND_VERSION,
        "job STABILITY DFI FLOOR WRAPAROUND x\n",
        2,
        TextFault::Number,
    ),
];

const FORMATS: &[Refused] = &[
    Refused(SECOND_STABILITY, "", 3, TextFault::End),
    Refused(SECOND_STABILITY, "form", 3, TextFault::End),
    Refused(SECOND_STABILITY, "format 2 46", 3, TextFault::End),
    Refused(SECOND_STABILITY, "format 2 46\n", 4, TextFault::End),
    Refused(SECOND_STABILITY, "format 1 0\n", 4, TextFault::End),
    Refused(SECOND_STABILITY, "format 48 47\n", 4, TextFault::End),
    Refused(SECOND_STABILITY, "format\n", 3, TextFault::Line),
    Refused(SECOND_STABILITY, "format 2\n", 3, TextFault::Line),
    Refused(SECOND_STABILITY, "format 2 2 2\n", 3, TextFault::Line),
    Refused(SECOND_STABILITY, "format 2 2 \n", 3, TextFault::Line),
    Refused(SECOND_STABILITY, "format 2 2 x\n", 3, TextFault::Line),
    Refused(SECOND_STABILITY, "formats 2 2\n", 3, TextFault::Line),
    Refused(SECOND_STABILITY, "form 2 2\n", 3, TextFault::Line),
    Refused(SECOND_STABILITY, "FORMAT 2 2\n", 3, TextFault::Line),
    Refused(SECOND_STABILITY, "\n", 3, TextFault::Line),
    Refused(SECOND_STABILITY, "end\n", 3, TextFault::Line),
    Refused(SECOND_STABILITY, "kind falls 2\n", 3, TextFault::Number),
    Refused(SECOND_STABILITY, "formats 0 2\n", 3, TextFault::Number),
    Refused(SECOND_STABILITY, "format 0\n", 3, TextFault::Number),
    Refused(SECOND_STABILITY, "format 0 2\n", 3, TextFault::Number),
    Refused(SECOND_STABILITY, "format 49 0\n", 3, TextFault::Number),
    Refused(SECOND_STABILITY, "format 1 48\n", 3, TextFault::Number),
    Refused(SECOND_STABILITY, "format 1 48 0\n", 3, TextFault::Number),
    Refused(SECOND_STABILITY, "format 01 2\n", 3, TextFault::Number),
    Refused(SECOND_STABILITY, "format 1 02\n", 3, TextFault::Number),
    Refused(SECOND_STABILITY, "format +1 2\n", 3, TextFault::Number),
    Refused(SECOND_STABILITY, "format -1 2\n", 3, TextFault::Number),
    Refused(SECOND_STABILITY, "format 1 -0\n", 3, TextFault::Number),
    Refused(SECOND_STABILITY, "format  2 2\n", 3, TextFault::Number),
    Refused(SECOND_STABILITY, "format 2 x\n", 3, TextFault::Number),
    Refused(
        SECOND_STABILITY,
        "format 4294967298 2\n",
        3,
        TextFault::Number,
    ),
    Refused(STABILITY, "format 2 46\n", 3, TextFault::Kind),
    Refused(WIDE_STABILITY, "", 4, TextFault::End),
    Refused(WIDE_STABILITY, "format 2 46\n", 4, TextFault::Kind),
    Refused(WIDE_STABILITY, "kind hints\n", 4, TextFault::Kind),
    Refused(WIDE_STABILITY, "kind falls 9\n", 4, TextFault::Number),
    Refused(WIDE_STABILITY, "kind falls\n", 4, TextFault::Line),
    Refused(
        WIDE_STABILITY,
        "kind falls 0\npositive 1 9\n",
        5,
        TextFault::Number,
    ),
    Refused(
        WIDE_STABILITY,
        "kind falls 0\npositive 1 0\nfall 1 0\nend\nx",
        8,
        TextFault::End,
    ),
    Refused(WIDE_HINTS, "0 0 0\n", 5, TextFault::Number),
    Refused(WIDE_HINTS, "end\nx", 6, TextFault::End),
    Refused(WIDE_SET, "ineq\n", 5, TextFault::Line),
    Refused(WIDE_SET, "ineq 1\nbase\nend\n", 7, TextFault::Number),
];

const KINDS: &[Refused] = &[
    Refused(STABILITY, "", 3, TextFault::End),
    Refused(STABILITY, "kind\n", 3, TextFault::Kind),
    Refused(STABILITY, "kind forms 1\n", 3, TextFault::Kind),
    Refused(STABILITY, "kind hints\n", 3, TextFault::Kind),
    Refused(STABILITY, "kind hints x\n", 3, TextFault::Kind),
    Refused(STABILITY, "kind falls 9\n", 3, TextFault::Number),
    Refused(STABILITY, "kind falls -0\n", 3, TextFault::Number),
    Refused(STABILITY, "kind falls\n", 3, TextFault::Line),
    Refused(STABILITY, "kind falls 2 2\n", 3, TextFault::Line),
    Refused(UNBOUNDED, "kind hints\n", 3, TextFault::Kind),
    Refused(OVERFLOW, "kind invariant 1 0\n", 3, TextFault::Kind),
    Refused(
        UNBOUNDED,
        "kind invariant 4294967296 0\n",
        3,
        TextFault::Number,
    ),
    Refused(
        UNBOUNDED,
        "kind invariant 4294967295 33\n",
        3,
        TextFault::Number,
    ),
    Refused(OVERFLOW, "kind gain 7\n", 3, TextFault::Kind),
    Refused(STABILITY, "kind gain 7\n", 3, TextFault::Kind),
    Refused(VERSION, "kind gain 7\n", 2, TextFault::Kind),
    Refused(UNBOUNDED, "kind gains 7\n", 3, TextFault::Kind),
    Refused(UNBOUNDED, "kind GAIN 7\n", 3, TextFault::Kind),
    Refused(UNBOUNDED, "kind gain 16384\n", 3, TextFault::Number),
    Refused(UNBOUNDED, "kind gain 4294967296\n", 3, TextFault::Number),
    Refused(UNBOUNDED, "kind gain 007\n", 3, TextFault::Number),
    Refused(UNBOUNDED, "kind gain 00\n", 3, TextFault::Number),
    Refused(UNBOUNDED, "kind gain -1\n", 3, TextFault::Number),
    Refused(UNBOUNDED, "kind gain -0\n", 3, TextFault::Number),
    Refused(UNBOUNDED, "kind gain +7\n", 3, TextFault::Number),
    Refused(UNBOUNDED, "kind gain x\n", 3, TextFault::Number),
    Refused(UNBOUNDED, "kind gain \n", 3, TextFault::Number),
    Refused(UNBOUNDED, "kind gain  7\n", 3, TextFault::Number),
    Refused(UNBOUNDED, "kind gain\n", 3, TextFault::Line),
    Refused(UNBOUNDED, "kind gain 7 7\n", 3, TextFault::Line),
    Refused(UNBOUNDED, "kind gain 7 \n", 3, TextFault::Line),
    Refused(UNBOUNDED, "kind gain 16384 7\n", 3, TextFault::Number),
    Refused(UNBOUNDED, "kind gain 7", 3, TextFault::End),
    Refused(OVERFLOW, "kind error 7 9 1\n", 3, TextFault::Kind),
    Refused(STABILITY, "kind error 7 9 1\n", 3, TextFault::Kind),
    Refused(UNBOUNDED, "kind errors 7 9 1\n", 3, TextFault::Kind),
    Refused(UNBOUNDED, "kind error 16384 9 1\n", 3, TextFault::Number),
    Refused(UNBOUNDED, "kind error 7 16384 1\n", 3, TextFault::Number),
    Refused(UNBOUNDED, "kind error 7 9 17\n", 3, TextFault::Number),
    Refused(UNBOUNDED, "kind error 7 9 -1\n", 3, TextFault::Number),
    Refused(UNBOUNDED, "kind error 7 09 1\n", 3, TextFault::Number),
    Refused(UNBOUNDED, "kind error 7 9\n", 3, TextFault::Line),
    Refused(UNBOUNDED, "kind error 7 9 1 1\n", 3, TextFault::Line),
    Refused(UNBOUNDED, "kind error 7 9 1", 3, TextFault::End),
];

const GAINS: &[Refused] = &[
    Refused(GAIN, "", 4, TextFault::End),
    Refused(GAIN, "end", 4, TextFault::End),
    Refused(GAIN, "\n", 4, TextFault::Line),
    Refused(GAIN, "end \n", 4, TextFault::Line),
    Refused(GAIN, "end 7\n", 4, TextFault::Line),
    Refused(GAIN, "ends\n", 4, TextFault::Line),
    Refused(GAIN, "kind gain 7\nend\n", 4, TextFault::Line),
    Refused(GAIN, "base\nstep\nsafe\nend\n", 4, TextFault::Line),
    Refused(GAIN, "7 0 0\nend\n", 4, TextFault::Line),
    Refused(GAIN, "7\nend\n", 4, TextFault::Line),
    Refused(GAIN, "end\nx", 5, TextFault::End),
    Refused(GAIN, "end\n\n", 5, TextFault::End),
    Refused(GAIN, "end\nend\n", 5, TextFault::End),
    Refused(GAIN, "box 0 0\nend\n", 4, TextFault::Line),
];

const BOXES: &[Refused] = &[
    Refused(BOX, "", 4, TextFault::End),
    Refused(BOX, "box 0 0", 4, TextFault::End),
    Refused(BOX, "box 0 0\n", 5, TextFault::End),
    Refused(BOX, "end\n", 4, TextFault::Line),
    Refused(BOX, "box\n", 4, TextFault::Line),
    Refused(BOX, "box 0\n", 4, TextFault::Line),
    Refused(BOX, "box 0 0 0\n", 4, TextFault::Line),
    Refused(BOX, "boxes 0 0\n", 4, TextFault::Line),
    Refused(BOX, "boxes 0 x\n", 4, TextFault::Number),
    Refused(BOX, "box x 0\n", 4, TextFault::Number),
    Refused(BOX, "box 00 0\n", 4, TextFault::Number),
    Refused(BOX, "box 0 9223372036854775808\n", 4, TextFault::Number),
    Refused(BOX, "box -9223372036854775808 0\n", 4, TextFault::Number),
    Refused(BOX, "box 0 0\nbox 0 0\nend\n", 5, TextFault::Line),
    Refused(BOX, "box 0 0\nends\n", 5, TextFault::Line),
    Refused(BOX, "box 0 0\nend\nx", 6, TextFault::End),
];

const FORMS: &[Refused] = &[
    Refused(FALLS_2, "kind falls 2\n", 4, TextFault::Number),
    Refused(FALLS_2, "end\n", 4, TextFault::Line),
    Refused(FALLS_2, "form 1\n", 4, TextFault::Line),
    Refused(FALLS_2, "forms 1 x\n", 4, TextFault::Number),
    Refused(FALLS_2, "form 1 2 x\n", 4, TextFault::Line),
    Refused(
        FALLS_1,
        "form 170141183460469231731687303715884105728\n",
        4,
        TextFault::Number,
    ),
    Refused(
        FALLS_1,
        "form -170141183460469231731687303715884105728\n",
        4,
        TextFault::Number,
    ),
    Refused(
        FALLS_1,
        "form 170141183460469231731687303715884105727\n",
        5,
        TextFault::End,
    ),
    Refused(FALLS_0, "positive 1 9\n", 4, TextFault::Number),
];

const TABLES: &[Refused] = &[
    Refused(OVERFLOW, "kind table 2\n", 3, TextFault::Kind),
    Refused(UNBOUNDED, "kind table 2\n", 3, TextFault::Kind),
    Refused(STABILITY, "kind table 26\n", 3, TextFault::Number),
    Refused(LOOP, "kind falls 0\n", 3, TextFault::Kind),
    Refused(LOOP, "kind table 0\n", 3, TextFault::Number),
    Refused(LOOP, "kind table 26\n", 3, TextFault::Number),
    Refused(LOOP, "kind table 01\n", 3, TextFault::Number),
    Refused(LOOP, "kind table\n", 3, TextFault::Line),
    Refused(LOOP, "kind table 2 2\n", 3, TextFault::Line),
    Refused(LOOP, "kind table 25\ncoefficient 1\n", 5, TextFault::End),
    Refused(TABLE, "coefficient\n", 4, TextFault::Line),
    Refused(TABLE, "coefficients 1\n", 4, TextFault::Line),
    Refused(TABLE, "coefficient 1 \n", 4, TextFault::Line),
    Refused(TABLE, "coefficient  1\n", 4, TextFault::Number),
    Refused(TABLE, "coefficient +1\n", 4, TextFault::Number),
    Refused(TABLE, "coefficient -0\n", 4, TextFault::Number),
    Refused(TABLE, "coefficient -01\n", 4, TextFault::Number),
    Refused(TABLE, "coefficient -\n", 4, TextFault::Number),
    Refused(TABLE, "coefficients 1x\n", 4, TextFault::Number),
    Refused(TABLE, "coefficient 1\nend\n", 5, TextFault::Line),
    Refused(
        TABLE,
        "coefficient 1\ncoefficient 0\ncoefficient 0\nend\n",
        6,
        TextFault::Line,
    ),
    Refused(
        TABLE,
        "coefficient 1\ncoefficient 0\nend\nx",
        7,
        TextFault::End,
    ),
];

const LOGS: &[Refused] = &[
    Refused(HINTS, "end\nx", 5, TextFault::End),
    Refused(HINTS, "5\n", 4, TextFault::Line),
    Refused(HINTS, "5 1 0 3\n", 4, TextFault::Line),
    Refused(HINTS, "5 1 0 3 0 x\n", 4, TextFault::Line),
    Refused(HINTS, "5 -0 0 0\n", 4, TextFault::Number),
    Refused(HINTS, "5 +1 0 0\n", 4, TextFault::Number),
    Refused(HINTS, "5 2147483649 0 0\n", 4, TextFault::Number),
    Refused(HINTS, "5 0 -3 0\n", 4, TextFault::Number),
    Refused(HINTS, "5 d -3 0\n", 4, TextFault::Number),
    Refused(HINTS, "0 0 0\n", 4, TextFault::Number),
    Refused(HINTS, "18446744073709551616 0 0\n", 4, TextFault::Number),
    Refused(HINTS, "\n", 4, TextFault::Number),
    Refused(HINTS, "end \n", 4, TextFault::Number),
    Refused(HINTS, "1 0 0\n", 5, TextFault::End),
];

const SETS: &[Refused] = &[
    Refused(EMPTY_SET, "base\nend\n", 5, TextFault::Number),
    Refused(EMPTY_SET, "step\n", 4, TextFault::Line),
    Refused(ONE_SET, "ineq\n", 4, TextFault::Line),
    Refused(ONE_SET, "ineq 9223372036854775808\n", 4, TextFault::Number),
    Refused(
        ONE_SET,
        "ineq 1 1 1 1 1 1 1 1 1 1 1 1 1 1 1 1 1 1\n",
        4,
        TextFault::Line,
    ),
    Refused(
        ONE_SET,
        "ineq 1 1 1 1 1 1 1 1 1 1 1 1 1 1 1 1 1 x\n",
        4,
        TextFault::Line,
    ),
    Refused(
        ONE_SET,
        "x 1 1 1 1 1 1 1 1 1 1 1 1 1 1 1 1 x\n",
        4,
        TextFault::Number,
    ),
];

/// The text of two parts.
pub(crate) fn text_of(alloc: Global, lines: &str, rest: &str) -> Result<String, AllocError> {
    let mut text = String::new(alloc);
    text.push_str(lines)?;
    text.push_str(rest)?;
    Ok(text)
}

fn is_refused(alloc: Global, row: &Refused) -> bool {
    let Ok(text) = text_of(alloc, row.0, row.1) else {
        return false;
    };
    let refusal = CertRefusal::Text {
        line: row.2,
        fault: row.3,
    };
    read(alloc, text.as_bytes()).err() == Some(refusal)
}

fn are_refused(alloc: Global, rows: &[Refused]) -> bool {
    rows.iter().all(|row| is_refused(alloc, row))
}

#[test]
fn headings_and_kinds_are_refused(rt: HostRuntime) {
    assert!(rt; are_refused(rt.alloc(), HEADINGS) && are_refused(rt.alloc(), KINDS));
}

#[test]
fn formats_are_refused(rt: HostRuntime) {
    assert!(rt; are_refused(rt.alloc(), FORMATS));
}

#[test]
fn gains_are_refused(rt: HostRuntime) {
    assert!(rt; are_refused(rt.alloc(), GAINS));
}

#[test]
fn boxes_are_refused(rt: HostRuntime) {
    assert!(rt; are_refused(rt.alloc(), BOXES));
}

#[test]
fn forms_logs_and_sets_are_refused(rt: HostRuntime) {
    let forms = are_refused(rt.alloc(), FORMS);
    let logs = are_refused(rt.alloc(), LOGS);
    let sets = are_refused(rt.alloc(), SETS);
    assert!(rt; forms && logs && sets);
}

#[test]
fn tables_are_refused(rt: HostRuntime) {
    assert!(rt; are_refused(rt.alloc(), TABLES));
}

#[test]
fn faults_have_their_numbers(rt: HostRuntime) {
    assert!(rt; TextFault::Version.code() == 1 && TextFault::End.code() == 5);
}

#[test]
fn faults_of_claims_have_their_numbers(rt: HostRuntime) {
    assert!(rt; CheckFault::Error.code() == 12 && CheckFault::Table.code() == 13);
}
