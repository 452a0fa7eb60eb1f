// The check of certificates against controllers.
ghost use Rattle.std.specs.Prelude.{◌≡◌, ◌-◌, ◌≤◌, length, OnOk, IfOk, option_copied};
ghost use Rattle.dsv_algebra.specs.Vectors.{vector_of};
ghost use Rattle.dsv_certcheck.specs.Checks.{Finds, as_checked, format_check};
ghost use Rattle.dsv_certcheck.specs.Checks.{words_check};
ghost use Rattle.dsv_certcheck.specs.Checks.{hints_check, invariant_check, error_check};
ghost use Rattle.dsv_certcheck.specs.Checks.{depth_check, gain_check, falls_check, offer_check};
ghost use Rattle.dsv_certcheck.specs.Checks.{roots_table_check};
ghost use Rattle.dsv_certcheck.specs.Found.{found_of, IsChecked};
ghost use Rattle.dsv_certcheck.specs.Shown.{Has, Shows, IsShownOf};
ghost use Rattle.dsv_certcheck.specs.Shown.{ShowsNear, StaysAsOffered, IsNearOf};
ghost use Rattle.dsv_certcheck.specs.ShownErrors.{StaysShown, without_error};
ghost use Rattle.dsv_certfile.specs.Limits.{most_gain_depth};
ghost use Rattle.dsv_certfile.specs.Texts.{job_of};
ghost use Rattle.dsv_table.specs.Verdicts.{HasFallingForm};
ghost use Rattle.dsv_gain.specs.Subjects.{NeverOverflows};
ghost use Rattle.dsv_realise.specs.Controllers.{of_controller};

use crate::check_refusal::CheckRefusal;
use crate::checked_logs::{RunQuestion, check_run, check_set};
use crate::line_numbers::{FORMAT_LINE, VERSION_LINE, form_line, kind_line};
use crate::loops::{LoopSide, check_loop_words};
use crate::tables::check_poly_table;
use dsv_base::NoMemory;
use dsv_certfile::{
    CertWords, Certificate, CertifiedJob, CheckFault, MOST_GAIN_DEPTH, MOST_JOB_SAMPLES,
    NARROW_WORD_BITS, Size,
};
use dsv_forms::{Falls, Poly, check_falls};
use dsv_fraction::Frac;
use dsv_gain::{Outlook, ShownError, controller_error, gain};
use dsv_hints::Log;
use dsv_integer::Numeral;
use dsv_names::{Property, RunProperty};
use dsv_quantiser::{Quantised, quantise_in};
use dsv_reader::{Controller, Plant};
use dsv_realise::Asking;
use dsv_roundoff::RoundoffOffer;
use dsv_template::{Candidate, ThreeLogs};
use dsv_tested::{Tested, polynomial_of, side_of};
use std::alloc::Global;

/// Checks that a controller's words have the format that the certificate says, or where it says
/// none, at most `NARROW_WORD_BITS` bits.
fn check_format(controller: &Controller, words: CertWords) -> Result<(), CheckRefusal>
    ensures { result ≡ format_check controller.now words }
{
    let int_bits = controller.int_bits();
    let frac_bits = controller.frac_bits();
    match words {
        CertWords::Unsaid if int_bits + frac_bits <= NARROW_WORD_BITS => Ok(()),
        CertWords::Unsaid => Err(CheckRefusal::Line {
            line: VERSION_LINE,
            fault: CheckFault::Format,
        }),
        CertWords::Said {
            int_bits: said_int_bits,
            frac_bits: said_frac_bits,
        } if int_bits == said_int_bits && frac_bits == said_frac_bits => Ok(()),
        CertWords::Said { .. } => Err(CheckRefusal::Line {
            line: FORMAT_LINE,
            fault: CheckFault::Format,
        }),
    }
}

/// Checks that a log shows the property of a job.
fn check_hints(
    alloc: Global,
    quantised: &Quantised,
    job: &CertifiedJob,
    log: &Log,
) -> Result<(), CheckRefusal>
    ensures found { Finds result (hints_check job.now.words quantised.now job.now.property
        job.now.size log.now) }
    ensures shows { OnOk result (Has quantised.now job.now.property job.now.size) }
{
    match (job.property, job.size) {
        (Property::OfRuns(property), Size::Samples(samples))
            if 1 <= samples && samples <= MOST_JOB_SAMPLES => {
            let question = RunQuestion {
                words: job.words,
                property,
                samples,
            };
            check_run(alloc, quantised, question, log)
        }
        (_, _) => Err(CheckRefusal::misfit(job.words)),
    }
}

/// Checks that a set shows the property of a job.
fn check_invariant(
    alloc: Global,
    quantised: &Quantised,
    job: &CertifiedJob,
    candidate: &Candidate,
    logs: &ThreeLogs,
) -> Result<(), CheckRefusal>
    ensures found { Finds result (invariant_check job.now.words quantised.now job.now.property
        job.now.size candidate.now logs.now) }
    ensures shows { OnOk result (Has quantised.now job.now.property job.now.size) }
{
    match (job.property, job.size) {
        (Property::OfRuns(RunProperty::Overflow), Size::Unbounded) => {
            check_set(alloc, quantised, job.words, candidate, logs)
        }
        (_, _) => Err(CheckRefusal::misfit(job.words)),
    }
}

/// What an offer, if there is one, shows of how far the output is from that of exact runs.
fn check_error(
    alloc: Global,
    asking: &Asking<Quantised>,
    words: CertWords,
    offer: &Option<RoundoffOffer>,
) -> Result<Option<ShownError>, CheckRefusal>
    ensures found { Finds (as_checked result)
        (error_check words asking.now.subject.now offer.now) }
    ensures near { IfOk result (StaysShown asking.now.subject.now offer.now) }
{
    let Some(offer) = offer else {
        return Ok(None);
    };
    match controller_error(alloc, asking, offer)? {
        Some(output) => Ok(Some(ShownError {
            depth: offer.depth,
            output,
        })),
        None => Err(CheckRefusal::Line {
            line: kind_line(words),
            fault: CheckFault::Error,
        }),
    }
}

/// Checks that the ranges of all exact values are ones of words at a depth or before it, and then
/// the offer.
fn check_depth_of(
    alloc: Global,
    asking: &Asking<Quantised>,
    words: CertWords,
    depth: u32,
    offer: &Option<RoundoffOffer>,
) -> Result<Option<ShownError>, CheckRefusal>
    requires { depth ≤ most_gain_depth }
    ensures found { Finds (as_checked result)
        (depth_check words asking.now.subject.now depth offer.now) }
    ensures shows { OnOk result (NeverOverflows (of_controller asking.now.subject.now)) }
    ensures near { IfOk result (ShowsNear asking.now.subject.now offer.now) }
{
    let _order = asking.subject.order(); // its range, for the proof
    match gain(alloc, asking, depth + 1)? {
        Outlook::Safe(_) => check_error(alloc, asking, words, offer),
        Outlook::Leaves { .. } | Outlook::Deep => Err(CheckRefusal::Line {
            line: kind_line(words),
            fault: CheckFault::Gain,
        }),
    }
}

/// The same check of a controller, whose netlist is made here.
fn check_depth(
    alloc: Global,
    quantised: &Quantised,
    words: CertWords,
    depth: u32,
    offer: &Option<RoundoffOffer>,
) -> Result<Option<ShownError>, CheckRefusal>
    requires { depth ≤ most_gain_depth }
    ensures found { Finds (as_checked result) (depth_check words quantised.now depth offer.now) }
    ensures shows { OnOk result (NeverOverflows (of_controller quantised.now)) }
    ensures near { IfOk result (ShowsNear quantised.now offer.now) }
{
    let asking = Asking::of(alloc, quantised)?;
    check_depth_of(alloc, &asking, words, depth, offer)
}

/// Checks that a depth shows the property of a job, and then the offer beside it.
fn check_gain(
    alloc: Global,
    quantised: &Quantised,
    job: &CertifiedJob,
    depth: u32,
    offer: &Option<RoundoffOffer>,
) -> Result<Option<ShownError>, CheckRefusal>
    ensures found { Finds (as_checked result) (gain_check job.now.words quantised.now
        job.now.property job.now.size depth offer.now) }
    ensures shows { OnOk result (Has quantised.now job.now.property job.now.size) }
    ensures near { IfOk result (ShowsNear quantised.now offer.now) }
{
    match (job.property, job.size) {
        (Property::OfRuns(RunProperty::Overflow), Size::Unbounded) if depth <= MOST_GAIN_DEPTH => {
            check_depth(alloc, quantised, job.words, depth, offer)
        }
        (_, _) => Err(CheckRefusal::misfit(job.words)),
    }
}

/// Checks that a form falls along the trajectories of a polynomial.
fn check_falling_offer(words: CertWords, poly: &Poly, offer: &Falls) -> Result<(), CheckRefusal>
    ensures found { result ≡ offer_check words poly.now offer.now }
    ensures shows { OnOk result (HasFallingForm (length poly.now - 1) (vector_of poly.now)) }
{
    if offer.form.d as usize != poly.order() {
        return Err(CheckRefusal::misfit(words));
    }
    match check_falls(poly, offer) {
        Ok(_) => Ok(()),
        Err(refusal) => Err(CheckRefusal::Line {
            line: form_line(words, offer, refusal),
            fault: CheckFault::Form,
        }),
    }
}

/// Checks that a form shows the property of a job.
fn check_form(quantised: &Quantised, job: &CertifiedJob, offer: &Falls) -> Result<(), CheckRefusal>
    ensures found { result
        ≡ falls_check job.now.words quantised.now job.now.property job.now.size offer.now }
    ensures shows { OnOk result (Has quantised.now job.now.property job.now.size) }
{
    match (job.property, job.size) {
        (Property::OfRoots(property), Size::NoSize) => match polynomial_of(
            quantised,
            side_of(property),
        )? {
            Tested::Poly(poly) => check_falling_offer(job.words, &poly, offer),
            Tested::NoZeros => Err(CheckRefusal::NoZeros),
        },
        (_, _) => Err(CheckRefusal::misfit(job.words)),
    }
}

/// Checks that a table shows the property of a job.
fn check_roots_table(
    alloc: Global,
    quantised: &Quantised,
    job: &CertifiedJob,
    coefficients: &[Numeral],
) -> Result<(), CheckRefusal>
    ensures found { Finds result (roots_table_check job.now.words quantised.now job.now.property
        job.now.size coefficients.now) }
    ensures shows { OnOk result (Has quantised.now job.now.property job.now.size) }
{
    match (job.property, job.size) {
        (Property::OfRoots(property), Size::NoSize) => match polynomial_of(
            quantised,
            side_of(property),
        )? {
            Tested::Poly(poly) => check_poly_table(alloc, job.words, &poly, coefficients),
            Tested::NoZeros => Err(CheckRefusal::NoZeros),
        },
        (_, _) => Err(CheckRefusal::misfit(job.words)),
    }
}

/// What is shown by a check that shows nothing of the output's error.
fn without_error(found: Result<(), CheckRefusal>) -> Result<Option<ShownError>, CheckRefusal>
    ensures { result ≡ without_error found }
{
    match found {
        Ok(()) => Ok(None),
        Err(why) => Err(why),
    }
}

/// Checks a certificate for a quantised controller.
#[tactic(auto, using(crate::proofs::Nearness::without_errors))]
fn check_words(
    alloc: Global,
    quantised: &Quantised,
    certificate: &Certificate,
) -> Result<Option<ShownError>, CheckRefusal>
    ensures found { Finds (as_checked result) (words_check quantised.now certificate.now) }
    ensures shows { OnOk result
        (Has quantised.now (job_of certificate.now).property (job_of certificate.now).size) }
    ensures near { IfOk result (StaysAsOffered quantised.now certificate.now) }
{
    match certificate {
        Certificate::Hints { job, log } => {
            without_error(check_hints(alloc, quantised, job, log))
        }
        Certificate::Invariant {
            job,
            candidate,
            logs,
        } => without_error(check_invariant(alloc, quantised, job, candidate, logs)),
        Certificate::Gain { job, depth, offer } => {
            check_gain(alloc, quantised, job, *depth, offer)
        }
        Certificate::Falls { job, offer } => without_error(check_form(quantised, job, offer)),
        Certificate::Table { job, coefficients } => without_error(check_roots_table(
            alloc,
            quantised,
            job,
            coefficients.as_slice(),
        )),
    }
}

/// Checks a certificate for words that run with this sample time, alone or in a loop with the
/// plant.
#[tactic(auto, using(crate::proofs::Nearness::without_errors))]
fn check_beside(
    alloc: Global,
    quantised: &Quantised,
    sample_time: Frac,
    plant: Option<&Plant>,
    certificate: &Certificate,
) -> Result<Option<ShownError>, CheckRefusal>
    ensures found { Finds (as_checked result)
        (found_of quantised.now sample_time (option_copied plant.entry) certificate.now) }
    ensures shows { OnOk result (Shows quantised.now sample_time (option_copied plant.entry)
        (job_of certificate.now).property (job_of certificate.now).size) }
    ensures near { IfOk result (StaysAsOffered quantised.now certificate.now) }
{
    match plant {
        None => check_words(alloc, quantised, certificate),
        Some(plant) => {
            let run = LoopSide { sample_time, plant };
            without_error(check_loop_words(alloc, quantised, &run, certificate))
        }
    }
}

/// Checks a certificate against a controller, in a loop with the plant if there is one. The
/// controller's words have to be of the format that the certificate says, or where it says none, of
/// at most `NARROW_WORD_BITS` bits; then these words in the certificate's modes, and from these,
/// and the plant, the formulas of its job, or the polynomial and its table, are made anew, and
/// nothing else that the certificate says is believed. What passes has the certificate's property,
/// whatever else is in the certificate: with a plant this is that the loop is stable. If a gain has
/// an offer beside it, the answer is how far this shows the output to be from that of exact runs.
/// It takes memory for a formula and a log at a time, or for rows of a table.
///
/// # Errors
///
/// In this order: the format's line, if the words have another; why the controller has no words
/// in the modes; and then what the kind is refused for. For a table this is, in this order: the
/// kind's line, if its job isn't a property of the controller's roots, or with a plant, the
/// stability of a loop; at which index a number is too wide on the way to the polynomial, or that
/// all coefficients of the numerator are 0, or with a plant, why there is no loop; the kind's line,
/// if the certificate has another number of coefficients than the polynomial, or more than
/// [`MOST_COEFFICIENTS`]; the first line whose number isn't the polynomial's; and the kind's line,
/// if a first number of the polynomial's table isn't positive. With a plant each other kind is
/// refused at the kind's line. Want of memory comes wherever there is none.
///
/// [`MOST_COEFFICIENTS`]: dsv_certfile::MOST_COEFFICIENTS
pub fn check(
    alloc: Global,
    controller: &Controller,
    plant: Option<&Plant>,
    certificate: &Certificate,
) -> Result<Option<ShownError>, CheckRefusal>
    ensures found { IsChecked controller.now (option_copied plant.entry) certificate.now
        (as_checked result) }
    ensures shows { OnOk result
        (IsShownOf controller.now (option_copied plant.entry) (job_of certificate.now)) }
    ensures near { IfOk result (IsNearOf controller.now certificate.now) }
{
    let job = certificate.job();
    check_format(controller, job.words)?;
    let quantised = quantise_in(controller, job.design)?;
    check_beside(
        alloc,
        &quantised,
        *controller.sample_time(),
        plant,
        certificate,
    )
}
