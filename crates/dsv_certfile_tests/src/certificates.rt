// Texts of certificates, read and written back.
use dsv_base::{Items, MemSink};
use dsv_certfile::{
    CertWords, Certificate, CertifiedJob, MOST_GAIN_DEPTH, Size, read, write, write_error,
    write_gain,
};
use dsv_cnf::Lit;
use dsv_hints::Step;
use dsv_names::{Design, OverflowMode, Property, Realisation, Rounding, RunProperty};
use dsv_roundoff::{RoundoffOffer, WordRange};
use std::alloc::Global;

/// A form of two places that falls, with its squares.
const FALLING_FORM: &str = "dsv-certificate 1\n\
    job STABILITY DFI FLOOR WRAPAROUND\n\
    kind falls 2\n\
    form 24 -8\n\
    form -8 11\n\
    positive 3 2\n\
    square 2 6 -2\n\
    square 25 0 1\n\
    rest 0 0\n\
    rest 0 0\n\
    fall 1 2\n\
    square 20 1 0\n\
    square 20 0 1\n\
    rest 0 0\n\
    rest 0 0\n\
    end\n";

/// A table of one coefficient, for a loop.
const LOOP: &str = "dsv-certificate 1\n\
    job STABILITY DFI FLOOR WRAPAROUND plant\n\
    kind table 1\n\
    coefficient 1\n\
    end\n";

const TEXTS: &[&str] = &[
    FALLING_FORM,
    "dsv-certificate 1\n\
    job STABILITY DFI FLOOR WRAPAROUND\n\
    kind falls 0\n\
    positive 1 0\n\
    fall 1 0\n\
    end\n",
    LOOP,
    "dsv-certificate 1\n\
    job STABILITY DFI FLOOR WRAPAROUND\n\
    kind table 3\n\
    coefficient 2\n\
    coefficient -2\n\
    coefficient 1\n\
    end\n",
    "dsv-certificate 1\n\
    job MINIMUM_PHASE DDFI NEAREST SATURATE\n\
    kind table 1\n\
    coefficient 170141183460469231731687303715884105728\n\
    end\n",
    "dsv-certificate 2\n\
    job STABILITY TDDFII NEAREST SATURATE plant\n\
    format 2 46\n\
    kind table 3\n\
    coefficient 340282366920938463463374607431768211456\n\
    coefficient 0\n\
    coefficient -18446744073709551617\n\
    end\n",
    "dsv-certificate 1\n\
    job OVERFLOW DFI FLOOR WRAPAROUND 1\n\
    kind hints\n\
    end\n",
    "dsv-certificate 1\n\
    job OVERFLOW DFI FLOOR WRAPAROUND 1\n\
    kind hints\n\
    5 1 -2 0 3 4 0\n\
    end\n",
    "dsv-certificate 1\n\
    job OVERFLOW DFI FLOOR WRAPAROUND 1\n\
    kind hints\n\
    5 d 3 3 0\n\
    end\n",
    "dsv-certificate 1\n\
    job OVERFLOW DFI FLOOR WRAPAROUND 1\n\
    kind hints\n\
    5 2147483648 0 0\n\
    end\n",
    "dsv-certificate 1\n\
    job OVERFLOW DFI FLOOR WRAPAROUND 1\n\
    kind hints\n\
    18446744073709551615 0 0\n\
    end\n",
    "dsv-certificate 1\n\
    job OVERFLOW DFI FLOOR WRAPAROUND unbounded\n\
    kind gain 0\n\
    end\n",
    "dsv-certificate 1\n\
    job OVERFLOW DDFII NEAREST SATURATE unbounded\n\
    kind gain 66\n\
    end\n",
    "dsv-certificate 1\n\
    job OVERFLOW DFI FLOOR WRAPAROUND unbounded\n\
    kind gain 16383\n\
    end\n",
    "dsv-certificate 1\n\
    job OVERFLOW DFI FLOOR WRAPAROUND unbounded\n\
    kind error 0 16383 0\n\
    end\n",
    "dsv-certificate 1\n\
    job OVERFLOW DFI FLOOR WRAPAROUND unbounded\n\
    kind error 16383 0 16\n\
    box 0 0\n\
    box 1 -1\n\
    box -9223372036854775807 9223372036854775807\n\
    box -16 12\n\
    box 0 0\n\
    box 0 0\n\
    box 0 0\n\
    box 0 0\n\
    box 0 0\n\
    box 0 0\n\
    box 0 0\n\
    box 0 0\n\
    box 0 0\n\
    box 0 0\n\
    box 0 0\n\
    box 7 7\n\
    end\n",
    "dsv-certificate 1\n\
    job OVERFLOW DFI FLOOR WRAPAROUND unbounded\n\
    kind invariant 1 0\n\
    base\n\
    step\n\
    safe\n\
    end\n",
    "dsv-certificate 1\n\
    job OVERFLOW DFI FLOOR WRAPAROUND unbounded\n\
    kind invariant 1 1\n\
    ineq 9223372036854775807\n\
    base\n\
    step\n\
    safe\n\
    end\n",
    "dsv-certificate 1\n\
    job OVERFLOW DFI FLOOR WRAPAROUND unbounded\n\
    kind invariant 1 1\n\
    ineq 1 1 1 1 1 1 1 1 1 1 1 1 1 1 1 1 1\n\
    base\n\
    step\n\
    safe\n\
    end\n",
    "dsv-certificate 2\n\
    job STABILITY DFI FLOOR WRAPAROUND\n\
    format 2 46\n\
    kind falls 1\n\
    form 1\n\
    positive 1 1\n\
    square 1 1\n\
    rest 0\n\
    fall 1 1\n\
    square 1 1\n\
    rest 0\n\
    end\n",
    "dsv-certificate 2\n\
    job OVERFLOW DFI FLOOR WRAPAROUND 1\n\
    format 1 0\n\
    kind hints\n\
    5 1 -2 0 3 4 0\n\
    5 d 3 3 0\n\
    end\n",
    "dsv-certificate 2\n\
    job OVERFLOW DFI FLOOR WRAPAROUND unbounded\n\
    format 48 0\n\
    kind invariant 1 1\n\
    ineq 1 -1 5\n\
    base\n\
    step\n\
    safe\n\
    end\n",
    "dsv-certificate 2\n\
    job OVERFLOW DDFII NEAREST SATURATE unbounded\n\
    format 1 47\n\
    kind gain 66\n\
    end\n",
    "dsv-certificate 2\n\
    job OVERFLOW DFI FLOOR WRAPAROUND unbounded\n\
    format 48 47\n\
    kind gain 0\n\
    end\n",
];

/// Whether the text is that of a certificate, and what is written of that is the text.
fn is_written_back(alloc: Global, text: &str) -> Option<bool> {
    let mut sink = MemSink::new(alloc, 1024).ok()?;
    let certificate = read(alloc, text.as_bytes()).ok()?;
    write(&certificate, &mut sink).ok()?;
    Some(sink.bytes() == text.as_bytes())
}

#[test]
fn texts_are_written_as_they_were_read(rt: HostRuntime) {
    for text in TEXTS {
        assert!(rt; is_written_back(rt.alloc(), text) == Some(true));
    }
}

/// Whether the job of the certificate is one of a loop.
fn is_of_loop(alloc: Global, text: &str) -> bool {
    match read(alloc, text.as_bytes()) {
        Ok(certificate) => certificate.job().size == Size::OfLoop,
        Err(_) => false,
    }
}

#[test]
fn a_job_of_a_loop_is_read(rt: HostRuntime) {
    assert!(rt; is_of_loop(rt.alloc(), LOOP) && !is_of_loop(rt.alloc(), FALLING_FORM));
}

const GAIN: &str = "dsv-certificate 1\n\
    job OVERFLOW TDFII CEIL SATURATE unbounded\n\
    kind gain 16383\n\
    end\n";

/// The same, of words of 16 bits before the point and 17 after it.
const WIDE_GAIN: &str = "dsv-certificate 2\n\
    job OVERFLOW TDFII CEIL SATURATE unbounded\n\
    format 16 17\n\
    kind gain 16383\n\
    end\n";

const WIDE: CertWords = CertWords::Said {
    int_bits: 16,
    frac_bits: 17,
};

/// Whether the job is overflow over runs of any length, of that realisation and modes, with this
/// said of the words.
fn is_that_job(job: &CertifiedJob, words: CertWords) -> bool {
    job.property == Property::OfRuns(RunProperty::Overflow)
        && job.words == words
        && job.size == Size::Unbounded
        && job.design.realisation == Realisation::Tdfii
        && job.design.rounding == Rounding::Ceil
        && job.design.overflow == OverflowMode::Saturate
}

fn is_gain_read(alloc: Global, text: &str, words: CertWords) -> bool {
    match read(alloc, text.as_bytes()) {
        Ok(
            Certificate::Gain {
                job,
                depth,
                offer: None,
            },
        ) => is_that_job(&job, words) && depth == 16_383 && depth == MOST_GAIN_DEPTH,
        Ok(_) | Err(_) => false,
    }
}

#[test]
fn the_depth_of_a_gain_is_read(rt: HostRuntime) {
    assert!(rt; is_gain_read(rt.alloc(), GAIN, CertWords::Unsaid));
}

#[test]
fn the_format_of_words_is_read(rt: HostRuntime) {
    assert!(rt; is_gain_read(rt.alloc(), WIDE_GAIN, WIDE));
}

/// The job of the gain with this said of the words.
fn gain_job(words: CertWords) -> CertifiedJob {
    CertifiedJob {
        property: Property::OfRuns(RunProperty::Overflow),
        design: Design {
            realisation: Realisation::Tdfii,
            rounding: Rounding::Ceil,
            overflow: OverflowMode::Saturate,
        },
        words,
        size: Size::Unbounded,
    }
}

/// Whether the text is what is written of the gain with this said of the words.
fn is_gain_written(alloc: Global, words: CertWords, text: &str) -> Option<bool> {
    let mut sink = MemSink::new(alloc, 1024).ok()?;
    write_gain(&mut sink, &gain_job(words), 16_383).ok()?;
    Some(sink.bytes() == text.as_bytes())
}

#[test]
fn the_depth_of_a_gain_is_written(rt: HostRuntime) {
    assert!(rt; is_gain_written(rt.alloc(), CertWords::Unsaid, GAIN) == Some(true));
}

#[test]
fn the_format_of_words_is_written(rt: HostRuntime) {
    assert!(rt; is_gain_written(rt.alloc(), WIDE, WIDE_GAIN) == Some(true));
}

/// A gain with a box of two ranges.
const BOX: &str = "dsv-certificate 1\n\
    job OVERFLOW TDFII CEIL SATURATE unbounded\n\
    kind error 6 11 2\n\
    box -16 12\n\
    box 0 3\n\
    end\n";

/// The offer of that text.
fn offer_of(alloc: Global) -> Option<RoundoffOffer> {
    let mut ranges = Items::new(alloc);
    ranges.push(WordRange { low: -16, high: 12 }).ok()?;
    ranges.push(WordRange { low: 0, high: 3 }).ok()?;
    Some(RoundoffOffer { depth: 11, ranges })
}

fn is_box_read(alloc: Global) -> Option<bool> {
    let wanted = offer_of(alloc)?;
    match read(alloc, BOX.as_bytes()) {
        Ok(
            Certificate::Gain {
                job,
                depth: 6,
                offer: Some(offer),
            },
        ) => Some(
            is_that_job(&job, CertWords::Unsaid)
                && offer.depth == wanted.depth
                && offer.ranges.as_slice() == wanted.ranges.as_slice(),
        ),
        Ok(_) | Err(_) => Some(false),
    }
}

#[test]
fn a_box_is_read(rt: HostRuntime) {
    assert!(rt; is_box_read(rt.alloc()) == Some(true));
}

fn is_box_written(alloc: Global) -> Option<bool> {
    let mut sink = MemSink::new(alloc, 1024).ok()?;
    write_error(
        &mut sink,
        &gain_job(CertWords::Unsaid),
        6,
        &offer_of(alloc)?,
    )
    .ok()?;
    Some(sink.bytes() == BOX.as_bytes())
}

#[test]
fn a_box_is_written(rt: HostRuntime) {
    assert!(rt; is_box_written(rt.alloc()) == Some(true));
}

/// Bits before the point and after it, and whether certificates say them.
const FORMATS: &[(u32, u32, bool)] = &[
    (1, 31, false),
    (16, 16, false),
    (32, 0, false),
    (1, 32, true),
    (16, 17, true),
    (33, 0, true),
    (2, 46, true),
    (4294967295, 4294967295, true),
];

/// Whether just these of the formats are said.
fn are_said() -> bool {
    FORMATS.iter().all(|(int_bits, frac_bits, said)| {
        let format = CertWords::Said {
            int_bits: *int_bits,
            frac_bits: *frac_bits,
        };
        let meant = if *said { format } else { CertWords::Unsaid };
        CertWords::of_format(*int_bits, *frac_bits) == meant
    })
}

#[test]
fn formats_of_more_than_32_bits_are_said(rt: HostRuntime) {
    assert!(rt; are_said());
}

const LOG: &str = "dsv-certificate 1\n\
    job OVERFLOW DFI FLOOR WRAPAROUND 1\n\
    kind hints\n\
    5 1 -2 0 3 4 0\n\
    5 d 3 3 0\n\
    end\n";

/// Whether these are the first variable and the negation of the second.
fn is_clause(lits: &[Lit]) -> bool {
    match lits {
        [first, second] => {
            first.var() == 0 && first.is_positive() && second.var() == 1 && !second.is_positive()
        }
        _ => false,
    }
}

/// Whether the step adds the clause 5 of the first variable and the negation of the second, by 3
/// and 4.
fn is_addition(step: &Step) -> bool {
    match step {
        Step::Add { id, lits, hints } => {
            *id == 5 && is_clause(lits.as_slice()) && hints.as_slice() == [3, 4].as_slice()
        }
        Step::Delete { .. } => false,
    }
}

/// Whether the step deletes 3 twice.
fn is_deletion(step: &Step) -> bool {
    match step {
        Step::Add { .. } => false,
        Step::Delete { id, ids } => *id == 5 && ids.as_slice() == [3, 3].as_slice(),
    }
}

/// Whether the certificate is a log of that addition and that deletion.
fn is_that_log(certificate: &Certificate) -> bool {
    match certificate {
        Certificate::Hints { log, .. } => match log.as_slice() {
            [first, second] => is_addition(first) && is_deletion(second),
            _ => false,
        },
        _ => false,
    }
}

fn is_log_read(alloc: Global) -> bool {
    match read(alloc, LOG.as_bytes()) {
        Ok(certificate) => is_that_log(&certificate),
        Err(_) => false,
    }
}

#[test]
fn steps_are_read(rt: HostRuntime) {
    assert!(rt; is_log_read(rt.alloc()));
}
