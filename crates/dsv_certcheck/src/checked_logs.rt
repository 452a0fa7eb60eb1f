// Logs that are checked against formulas.
ghost use Rattle.std.specs.Prelude.{◌≤◌, ◌<◌, ◌^◌, ◌-◌, length, OnOk, OnErr};
ghost use Rattle.dsv_cnf.specs.Formula.{IsUnsatisfiable};
ghost use Rattle.dsv_bounded.specs.RunQuestions.{Happens};
ghost use Rattle.dsv_invariant.specs.Causes.{Holds, IsShaped};
ghost use Rattle.dsv_invariant.specs.Formulas.{set_formula_of};
ghost use Rattle.dsv_template.specs.declared.verdict.SetPart.TheVariants as part;
ghost use Rattle.dsv_certcheck.specs.Checks.{Finds, log_check, run_check, sentences_check};
ghost use Rattle.dsv_certcheck.specs.Checks.{set_check};
ghost use Rattle.dsv_certcheck.specs.LineNumbers.{log_line};
ghost use Rattle.dsv_gain.specs.Subjects.{NeverOverflows};
ghost use Rattle.dsv_realise.specs.Controllers.{of_controller};

use crate::check_refusal::CheckRefusal;
use crate::line_numbers::{body_line, log_line};
use dsv_base::NoMemory;
use dsv_bounded::formula;
use dsv_certfile::{CertWords, CheckFault};
use dsv_cnf::Formula;
use dsv_hints::{Log, Verdict, check};
use dsv_invariant::{accept_unbounded, set_formula};
use dsv_meaning::registers;
use dsv_names::RunProperty;
use dsv_quantiser::Quantised;
use dsv_realise::Asking;
use dsv_template::{Candidate, SetPart, ThreeLogs};
use std::alloc::Global;

/// Refuses a log whose steps have no numbers of 32 bits.
fn accept_length(log: &Log) -> Result<(), NoMemory>
    ensures short { OnOk result (length log.now < 2 ^ 32 - 1) }
    ensures long { OnErr result (2 ^ 32 - 1 ≤ length log.now) }
{
    if log.as_slice().len() >= u32::MAX as usize {
        return Err(NoMemory);
    }
    Ok(())
}

/// Checks a log, whose first step stands on this line, against a formula.
fn check_log(alloc: Global, formula: &Formula, line: u64, log: &Log) -> Result<(), CheckRefusal>
    requires low { line < 2 ^ 40 }
    requires short { length log.now < 2 ^ 32 - 1 }
    ensures found { Finds result (log_check formula.now line log.now) }
    ensures shows { OnOk result (IsUnsatisfiable formula.now.clauses) }
{
    match check(alloc, formula, log)? {
        Verdict::Accepted => Ok(()),
        Verdict::Refused { step, .. } => Err(CheckRefusal::Line {
            line: line + u64::from(step),
            fault: CheckFault::Step,
        }),
    }
}

/// A question about runs, and what the certificate says of the words.
#[derive(Clone, Copy)]
pub(crate) struct RunQuestion {
    pub(crate) words: CertWords,
    pub(crate) property: RunProperty,
    pub(crate) samples: u32,
}

/// Checks that a log refutes that the property happens within 1 to 64 samples.
pub(crate) fn check_run(
    alloc: Global,
    quantised: &Quantised,
    question: RunQuestion,
    log: &Log,
) -> Result<(), CheckRefusal>
    requires some { 1 ≤ question.samples }
    requires few { question.samples ≤ 64 }
    ensures found { Finds result (run_check question.words quantised.now question.property
        question.samples log.now) }
    ensures shows { OnOk result
        (Happens question.property (of_controller quantised.now) question.samples → ⊥) }
{
    let asking = Asking::of(alloc, quantised)?;
    let formula = formula(alloc, &asking, question.property, question.samples)?;
    accept_length(log)?;
    check_log(alloc, &formula, body_line(question.words), log)
}

/// A sentence of a candidate, and the line of the certificate on which the first step of its log
/// stands.
#[derive(Clone, Copy)]
struct LoggedSentence {
    part: SetPart,
    line: u64,
}

/// Checks that a log refutes that the sentence of a candidate is broken.
fn check_sentence(
    alloc: Global,
    asking: &Asking<Quantised>,
    candidate: &Candidate,
    sentence: LoggedSentence,
    log: &Log,
) -> Result<(), CheckRefusal>
    requires shaped { IsShaped asking.now.subject.now candidate.now }
    requires low { sentence.line < 2 ^ 40 }
    requires short { length log.now < 2 ^ 32 - 1 }
    ensures found { Finds result
        (log_check (set_formula_of asking.now.subject.now candidate.now sentence.part) sentence.line
        log.now) }
    ensures shows { OnOk result (Holds asking.now.subject.now candidate.now sentence.part) }
{
    let formula = set_formula(alloc, asking, candidate, sentence.part)?;
    check_log(alloc, &formula, sentence.line, log)
}

/// Checks the logs of a candidate's sentences.
fn check_sentences(
    alloc: Global,
    asking: &Asking<Quantised>,
    words: CertWords,
    candidate: &Candidate,
    logs: &ThreeLogs,
) -> Result<(), CheckRefusal>
    requires shaped { IsShaped asking.now.subject.now candidate.now }
    ensures found { Finds result
        (sentences_check words asking.now.subject.now candidate.now logs.now) }
    ensures base { OnOk result (Holds asking.now.subject.now candidate.now part.Base) }
    ensures step { OnOk result (Holds asking.now.subject.now candidate.now part.Step) }
    ensures safe { OnOk result (Holds asking.now.subject.now candidate.now part.Safe) }
{
    accept_length(&logs.base)?;
    accept_length(&logs.step)?;
    accept_length(&logs.safe)?;
    let base = LoggedSentence {
        part: SetPart::Base,
        line: log_line(words, SetPart::Base, candidate, logs),
    };
    check_sentence(alloc, asking, candidate, base, &logs.base)?;
    let step = LoggedSentence {
        part: SetPart::Step,
        line: log_line(words, SetPart::Step, candidate, logs),
    };
    check_sentence(alloc, asking, candidate, step, &logs.step)?;
    let safe = LoggedSentence {
        part: SetPart::Safe,
        line: log_line(words, SetPart::Safe, candidate, logs),
    };
    check_sentence(alloc, asking, candidate, safe, &logs.safe)
}

/// Checks the logs of a candidate's sentences for a controller, whose netlist is made here once for
/// all three.
fn check_logs(
    alloc: Global,
    quantised: &Quantised,
    words: CertWords,
    candidate: &Candidate,
    logs: &ThreeLogs,
) -> Result<(), CheckRefusal>
    requires shaped { IsShaped quantised.now candidate.now }
    ensures found { Finds result (sentences_check words quantised.now candidate.now logs.now) }
    ensures base { OnOk result (Holds quantised.now candidate.now part.Base) }
    ensures step { OnOk result (Holds quantised.now candidate.now part.Step) }
    ensures safe { OnOk result (Holds quantised.now candidate.now part.Safe) }
{
    let asking = Asking::of(alloc, quantised)?;
    check_sentences(alloc, &asking, words, candidate, logs)
}

/// Checks that a controller never leaves a candidate's set and never overflows in it.
pub(crate) fn check_set(
    alloc: Global,
    quantised: &Quantised,
    words: CertWords,
    candidate: &Candidate,
    logs: &ThreeLogs,
) -> Result<(), CheckRefusal>
    ensures found { Finds result (set_check words quantised.now candidate.now logs.now) }
    ensures shows { OnOk result (NeverOverflows (of_controller quantised.now)) }
{
    accept_unbounded(quantised)?;
    let registers = registers(quantised.realisation(), quantised.order() as u32);
    if !candidate.is_shaped(registers) {
        return Err(CheckRefusal::misfit(words));
    }
    check_logs(alloc, quantised, words, candidate, logs)
}
