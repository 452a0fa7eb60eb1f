// The numbers of a certificate's lines, which count from 1.
ghost use Rattle.std.specs.Prelude.{◌≡◌, ◌<◌, ◌≤◌, ◌^◌, length};
ghost use Rattle.dsv_certcheck.specs.FormLines.{positive_line, fall_line, part_line, square_count};
ghost use Rattle.dsv_certcheck.specs.FormLines.{square_line, rest_line, form_line};
ghost use Rattle.dsv_certcheck.specs.LineNumbers.{kind_line, body_line, log_line};

use dsv_certfile::CertWords;
use dsv_forms::{Falls, FormRefusal, OfferPart};
use dsv_template::{Candidate, SetPart, ThreeLogs};

/// The line of the version.
pub(crate) const VERSION_LINE: u64 = 1;

/// The line of the job.
pub(crate) const JOB_LINE: u64 = 2;

/// The line of the words' format, where a certificate says it.
pub(crate) const FORMAT_LINE: u64 = 3;

/// The line of the kind, where a certificate says this of the words.
pub(crate) fn kind_line(words: CertWords) -> u64
    ensures value { result ≡ kind_line words }
    ensures low { result ≤ 4 }
{
    match words {
        CertWords::Unsaid => 3,
        CertWords::Said { .. } => 4,
    }
}

/// The first line after that of the kind.
pub(crate) fn body_line(words: CertWords) -> u64
    ensures value { result ≡ body_line words }
    ensures low { result ≤ 5 }
{
    kind_line(words) + 1
}

// ---- logs

/// The first line of the log of a sentence.
pub(crate) fn log_line(
    words: CertWords,
    part: SetPart,
    candidate: &Candidate,
    logs: &ThreeLogs,
) -> u64
    requires base { length logs.now.base < 2 ^ 32 }
    requires step { length logs.now.step < 2 ^ 32 }
    ensures value { result ≡ log_line words part candidate.now logs.now }
    ensures low { result < 2 ^ 40 }
{
    let base = body_line(words) + candidate.inequalities.len() as u64 + 1;
    match part {
        SetPart::Base => base,
        SetPart::Step => base + logs.base.as_slice().len() as u64 + 1,
        SetPart::Safe => {
            base + logs.base.as_slice().len() as u64 + 1 + logs.step.as_slice().len() as u64 + 1
        }
    }
}

// ---- forms

/// How many places the form has.
fn places(offer: &Falls) -> u64
    ensures value { result ≡ offer.now.form.d }
    ensures low { result < 2 ^ 32 }
{
    u64::from(offer.form.d)
}

/// How many squares a part has.
fn square_count(offer: &Falls, part: OfferPart) -> u64
    ensures value { result ≡ square_count offer.now part }
    ensures low { result < 2 ^ 32 }
{
    match part {
        OfferPart::Positive => u64::from(offer.positive.count),
        OfferPart::Fall | OfferPart::Form | OfferPart::Start => u64::from(offer.fall.count),
    }
}

/// The line `positive`.
fn positive_line(words: CertWords, offer: &Falls) -> u64
    ensures value { result ≡ positive_line words offer.now }
    ensures low { result < 2 ^ 33 }
{
    body_line(words) + places(offer)
}

/// The line `fall`.
fn fall_line(words: CertWords, offer: &Falls) -> u64
    ensures value { result ≡ fall_line words offer.now }
    ensures low { result < 2 ^ 35 }
{
    positive_line(words, offer) + 1 + square_count(offer, OfferPart::Positive) + places(offer)
}

/// The line that a part begins with.
fn part_line(words: CertWords, offer: &Falls, part: OfferPart) -> u64
    ensures value { result ≡ part_line words offer.now part }
    ensures low { result < 2 ^ 35 }
{
    match part {
        OfferPart::Positive => positive_line(words, offer),
        OfferPart::Fall => fall_line(words, offer),
        OfferPart::Form | OfferPart::Start => {
            if offer.form.d == 0 {
                kind_line(words)
            } else {
                body_line(words)
            }
        }
    }
}

/// The line of a part's square.
fn square_line(words: CertWords, offer: &Falls, part: OfferPart, i: u32) -> u64
    ensures { result ≡ square_line words offer.now part i }
{
    part_line(words, offer, part) + 1 + u64::from(i)
}

/// The line of a row of a part's rest.
fn rest_line(words: CertWords, offer: &Falls, part: OfferPart, i: u32) -> u64
    ensures { result ≡ rest_line words offer.now part i }
{
    part_line(words, offer, part) + 1 + square_count(offer, part) + u64::from(i)
}

/// The line at which what is wrong with an offer stands.
pub(crate) fn form_line(words: CertWords, offer: &Falls, refusal: FormRefusal) -> u64
    ensures { result ≡ form_line words offer.now refusal }
{
    match refusal {
        FormRefusal::Identity { part, i, .. }
        | FormRefusal::Wide { part, i, .. }
        | FormRefusal::Dominance { part, i } => rest_line(words, offer, part, i),
        FormRefusal::Weight { part, i } | FormRefusal::Triangle { part, i } => {
            square_line(words, offer, part, i)
        }
        FormRefusal::StartNotNegative { .. } => kind_line(words),
        FormRefusal::Shape { part } => part_line(words, offer, part),
    }
}
