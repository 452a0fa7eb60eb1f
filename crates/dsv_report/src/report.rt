// Writes the text of an answer, with no memory.
#![tactic(auto, using(dsv_algebra::proofs::Casts::casts))]

ghost use Rattle.std.specs.Prelude.{◌≡◌, ◌++◌, cond, length, map, filter, option_map};
ghost use Rattle.std.specs.List.{flat_map};
ghost use Rattle.dsv_base.specs.Taking.{Writes};
ghost use Rattle.dsv_system.specs.RowViews.{row_of};
ghost use Rattle.dsv_report.specs.Gains.{too_deep_text};
ghost use Rattle.dsv_report.specs.Headings.{heading_view};
ghost use Rattle.dsv_report.specs.Printing.{HasPlaces};
ghost use Rattle.dsv_report.specs.Report as report;

use crate::answers::Answer;
use crate::cascades::{put_forms, put_section_tables};
use crate::certificates::put_checked_job;
use crate::ellipsoids::{put_in_ellipsoid, put_no_offer_cause};
use crate::forms::{put_fall, put_form, put_kept_away, put_numbers};
use crate::fragments::{Fragment, put_fragments};
use crate::gains::{put_measure, put_out_of_range, put_shown_error};
use crate::headings::{Heading, put_heading};
use crate::lines::{put_number_line, put_numbered};
use crate::states::put_no_form_cause;
use crate::stop::Stop;
use crate::stops::stop_status;
use crate::tables::put_table;
use crate::tallies::put_tally;
use crate::verdict::verdict_of;
use dsv_base::{Failed, Sink, put_all, put_line};
use dsv_certfile::write_ellipsoid;
use dsv_cnf::write_dimacs;
use dsv_forms::Poly;
use dsv_fraction::Frac;
use dsv_jury::Jury;
use dsv_meaning::{Cycle, Trace};
use dsv_system::Row;
use dsv_template::{Candidate, Inequality, KeptSet, Why};
use dsv_timing::TimingReport;
use std::slice;

/// Writes what Jury's recursion says.
fn put_jury<K: Sink>(sink: &mut K, jury: Jury) -> Result<(), Failed>
    ensures { Writes (K.seen sink.old) (K.seen sink.new) result (report.jury_text jury) }
{
    match jury {
        Jury::Inside => put_all(sink, b"jury inside\n"),
        Jury::NotInside { row } => put_number_line(sink, b"jury not-inside ", row.into()),
        Jury::Wide { row } => put_number_line(sink, b"jury wide ", row.into()),
    }
}

/// Writes the polynomial, how many offers for it were refused, and what Jury's recursion says.
fn put_cause<K: Sink>(sink: &mut K, poly: &Poly, offers: u64, jury: Jury) -> Result<(), Failed>
    ensures { Writes (K.seen sink.old) (K.seen sink.new) result
        (report.no_form_text poly.now offers jury) }
{
    put_line(sink, b"polynomial", poly.coefficients())?;
    put_number_line(sink, b"cause NO_FORM offers ", offers)?;
    put_jury(sink, jury)
}

/// Writes where a value is no word.
fn put_break<K: Sink>(sink: &mut K, sample: u64, value: u64, exact: &i128) -> Result<(), Failed>
    ensures { Writes (K.seen sink.old) (K.seen sink.new) result
        (report.break_text sample value exact.now) }
{
    put_numbered(sink, b"overflow sample ", sample)?;
    put_numbered(sink, b" value ", value)?;
    put_line(sink, b" exact", slice::from_ref(exact))
}

/// Writes how many operations a sample takes, and how many registers it loads.
fn put_counts<K: Sink>(sink: &mut K, products: u64, sums: u64, moves: u64) -> Result<(), Failed>
    ensures { Writes (K.seen sink.old) (K.seen sink.new) result
        (report.counts_text products sums moves) }
{
    put_numbered(sink, b"products ", products)?;
    put_numbered(sink, b" sums ", sums)?;
    put_number_line(sink, b" moves ", moves)
}

/// Writes the time between two samples.
fn put_time<K: Sink>(sink: &mut K, time: &Frac) -> Result<(), Failed>
    ensures { Writes (K.seen sink.old) (K.seen sink.new) result (report.time_text time.now) }
{
    put_fragments(
        sink,
        &[
            Fragment::Bytes(b" sample-time "),
            Fragment::Number(time.num()),
            Fragment::Bytes(b"/"),
            Fragment::Number(time.den()),
            Fragment::Bytes(b"\n"),
        ],
    )
}

/// Writes what a sample takes, and the time that it has.
fn put_timing<K: Sink>(sink: &mut K, found: &TimingReport) -> Result<(), Failed>
    ensures { Writes (K.seen sink.old) (K.seen sink.new) result (report.timing_text found.now) }
{
    let counts = &found.counts;
    put_counts(
        sink,
        counts.products.into(),
        counts.sums.into(),
        counts.moves.into(),
    )?;
    put_number_line(sink, b"cycles ", found.cycles)?;
    put_numbered(sink, b"clock ", found.clock)?;
    put_time(sink, &found.sample_time)
}

/// Writes the text of a trace.
fn put_trace<K: Sink>(sink: &mut K, trace: &Trace) -> Result<(), Failed>
    ensures { Writes (K.seen sink.old) (K.seen sink.new) result (report.trace_text trace.now) }
{
    put_line(sink, b"inputs", trace.inputs.as_slice())?;
    put_line(sink, b"outputs", trace.outputs.as_slice())?;
    put_break(sink, trace.sample.into(), trace.value.into(), &trace.exact)
}

/// Writes the text of a start with its period.
fn put_cycle<K: Sink>(sink: &mut K, cycle: &Cycle) -> Result<(), Failed>
    ensures { Writes (K.seen sink.old) (K.seen sink.new) result (report.cycle_text cycle.now) }
{
    put_line(sink, b"start", cycle.start.as_slice())?;
    put_number_line(sink, b"period ", cycle.period.into())?;
    put_line(sink, b"outputs", cycle.outputs.as_slice())
}

/// Writes the bound of an inequality.
fn put_bound<K: Sink>(sink: &mut K, bound: &i64) -> Result<(), Failed>
    ensures { Writes (K.seen sink.old) (K.seen sink.new) result (report.bound_text bound.now) }
{
    put_fragments(
        sink,
        &[
            Fragment::Bytes(b" <= "),
            Fragment::Number((*bound).into()),
            Fragment::Bytes(b"\n"),
        ],
    )
}

/// Writes an inequality over the registers.
fn put_inequality<K: Sink>(sink: &mut K, inequality: &Inequality) -> Result<(), Failed>
    ensures { Writes (K.seen sink.old) (K.seen sink.new) result
        (report.inequality_text inequality.now) }
{
    put_all(sink, b"inequality")?;
    put_numbers(sink, &inequality.coefficients)?;
    put_bound(sink, &inequality.bound)
}

/// Writes a line for each inequality.
fn put_inequalities<K: Sink>(sink: &mut K, inequalities: &[Inequality]) -> Result<(), Failed>
    ensures { Writes (K.seen sink.old) (K.seen sink.new) result
        (report.inequalities_text inequalities.now) }
{
    for inequality in inequalities {
        put_inequality(sink, inequality)?;
    }
    Ok(())
}

/// Writes a candidate's depth and its inequalities.
fn put_candidate<K: Sink>(sink: &mut K, candidate: &Candidate) -> Result<(), Failed>
    ensures { Writes (K.seen sink.old) (K.seen sink.new) result
        (report.candidate_text candidate.now) }
{
    put_number_line(sink, b"depth ", candidate.depth.into())?;
    put_inequalities(sink, &candidate.inequalities)
}

/// Counts a set for which a search for what is wrong with it gave up.
fn spent_of(set: &KeptSet) -> u64
    ensures { result ≡ cond (report.is_spent set.now) 1 0 }
{
    match set.why {
        Why::Spent { .. } => 1,
        _ => 0,
    }
}

/// For how many of the sets a search for what is wrong with it gave up.
fn spent_in(kept: &[KeptSet]) -> u64
    ensures { result ≡ length (filter report.is_spent kept.now) }
{
    let mut spent = 0;
    for set in kept {
        spent += spent_of(set);
    }
    spent
}

/// Writes how many sets were offered, and for how many of them a search gave up.
fn put_offered_sets<K: Sink>(sink: &mut K, kept: &[KeptSet]) -> Result<(), Failed>
    ensures { Writes (K.seen sink.old) (K.seen sink.new) result
        (report.no_invariant_text (length kept.now) (length (filter report.is_spent kept.now))) }
{
    put_numbered(sink, b"cause NO_INVARIANT offers ", kept.len() as u64)?;
    put_number_line(sink, b" spent ", spent_in(kept))
}

/// Writes a sample's number, its input and its output.
fn put_sample_head<K: Sink>(sink: &mut K, number: u64, x: &i64, y: &i64) -> Result<(), Failed>
    ensures { Writes (K.seen sink.old) (K.seen sink.new) result
        (report.sample_head number x.now y.now) }
{
    put_fragments(
        sink,
        &[
            Fragment::Bytes(b"sample "),
            Fragment::Number(number.into()),
            Fragment::Bytes(b" input "),
            Fragment::Number((*x).into()),
            Fragment::Bytes(b" output "),
            Fragment::Number((*y).into()),
        ],
    )
}

/// Writes a line for a sample.
fn put_sample<K: Sink>(sink: &mut K, number: u64, row: &Row) -> Result<(), Failed>
    ensures { Writes (K.seen sink.old) (K.seen sink.new) result
        (report.sample_text number (row_of row.now)) }
{
    put_sample_head(sink, number, &row.x, &row.y)?;
    put_line(sink, b" exact", row.exact.as_slice())
}

/// Writes a line for each sample.
fn put_samples<K: Sink>(sink: &mut K, rows: &[Row]) -> Result<(), Failed>
    ensures { Writes (K.seen sink.old) (K.seen sink.new) result
        (report.samples_text 0 (map row_of rows.now)) }
{
    for (number, row) in rows.iter().enumerate() {
        put_sample(sink, number as u64, row)?;
    }
    Ok(())
}

/// Writes the output of a sample alone.
fn put_output_line<K: Sink>(sink: &mut K, row: &Row) -> Result<(), Failed>
    ensures { Writes (K.seen sink.old) (K.seen sink.new) result
        (report.output_text (row_of row.now)) }
{
    put_fragments(
        sink,
        &[Fragment::Number(row.y.into()), Fragment::Bytes(b"\n")],
    )
}

/// Writes the outputs of samples alone, one a line.
fn put_outputs<K: Sink>(sink: &mut K, rows: &[Row]) -> Result<(), Failed>
    ensures { Writes (K.seen sink.old) (K.seen sink.new) result
        (flat_map report.output_text (map row_of rows.now)) }
{
    for row in rows {
        put_output_line(sink, row)?;
    }
    Ok(())
}

/// Writes that a search gave up.
fn put_spent<K: Sink>(sink: &mut K, conflicts: u64) -> Result<(), Failed>
    ensures { Writes (K.seen sink.old) (K.seen sink.new) result (report.spent_text conflicts) }
{
    put_number_line(sink, b"cause SPENT conflicts ", conflicts)
}

/// Writes that no depth below the limit is enough.
fn put_too_deep<K: Sink>(sink: &mut K, depth: u64) -> Result<(), Failed>
    ensures { Writes (K.seen sink.old) (K.seen sink.new) result (too_deep_text depth) }
{
    put_number_line(sink, b"cause DEPTH ", depth)
}

/// Writes what stands after an answer's heading, and after the lines that tell words.
fn put_body<K: Sink>(sink: &mut K, answer: &Answer) -> Result<(), Failed>
    requires { HasPlaces answer.now }
    ensures { Writes (K.seen sink.old) (K.seen sink.new) result (report.body_text answer.now) }
{
    match answer {
        Answer::Falls { poly, offer, fall } => put_form(sink, poly, &offer.form, fall),
        Answer::KeptAway {
            poly,
            offer,
            fall,
            value,
        } => put_kept_away(sink, poly, offer, fall, value),
        Answer::OfTable(found) => put_table(sink, found),
        Answer::OfSections(found) => put_forms(sink, found),
        Answer::OfSectionTables(found) => put_section_tables(sink, found),
        Answer::StateFalls { offer, fall, .. } => put_fall(sink, &offer.form, fall),
        Answer::NoStateForm => put_no_form_cause(sink),
        Answer::NoZeros => put_all(sink, b"no zeros to test\n"),
        Answer::NoForm { poly, kept, jury } => put_cause(sink, poly, kept.len() as u64, *jury),
        Answer::Wide { index } => put_number_line(sink, b"cause WIDE index ", (*index).into()),
        Answer::OnTime(found) | Answer::Late(found) => put_timing(sink, found),
        Answer::Never { .. } => put_all(sink, b""),
        Answer::Always { candidate, .. } => put_candidate(sink, candidate),
        Answer::NoInvariant { kept } => put_offered_sets(sink, kept.as_slice()),
        Answer::InRanges { gain, error } => put_measure(sink, gain, error),
        Answer::InEllipsoid(offer) => put_in_ellipsoid(sink, offer),
        Answer::FoundEllipsoid(offer) => write_ellipsoid(sink, offer),
        Answer::NoEllipsoid => put_no_offer_cause(sink),
        Answer::OutOfRange { sample, value } => {
            put_out_of_range(sink, (*sample).into(), *value as u64)
        }
        Answer::TooDeep { depth } => put_too_deep(sink, (*depth).into()),
        Answer::Overflow(trace) => put_trace(sink, trace),
        Answer::Cycles(cycle) => put_cycle(sink, cycle),
        Answer::Spent { log } => put_spent(sink, log.len() as u64),
        Answer::FormulaText(formula) => write_dimacs(formula, sink),
        Answer::Simulated(rows) => put_samples(sink, rows.as_slice()),
        Answer::Outputs(rows) => put_outputs(sink, rows.as_slice()),
        Answer::Code(text) => put_all(sink, text.as_slice()),
        Answer::Words => put_all(sink, b""),
        Answer::Generated(found) => put_tally(sink, found),
        Answer::Checked { error, .. } => put_shown_error(sink, *error),
    }
}

/// Writes what a certificate shows that passed its check.
fn put_certified<K: Sink>(sink: &mut K, answer: &Answer) -> Result<(), Failed>
    ensures { Writes (K.seen sink.old) (K.seen sink.new) result
        (report.certified_text answer.now) }
{
    match answer {
        Answer::Checked { certified, .. } => put_checked_job(sink, certified),
        _ => put_all(sink, b""),
    }
}

/// Writes what stands first in an answer's text.
fn put_opening<K: Sink>(sink: &mut K, asked: Option<Heading>, answer: &Answer) -> Result<(), Failed>
    ensures { Writes (K.seen sink.old) (K.seen sink.new) result
        (report.opening (option_map heading_view asked.entry) answer.now) }
{
    put_heading(sink, verdict_of(answer), asked)?;
    put_certified(sink, answer)
}

/// Writes the lines that tell words, and what stands after them.
fn put_rest<K: Sink>(sink: &mut K, lines: &[u8], answer: &Answer) -> Result<(), Failed>
    requires { HasPlaces answer.now }
    ensures { Writes (K.seen sink.old) (K.seen sink.new) result
        (lines.now ++ report.body_text answer.now) }
{
    put_all(sink, lines)?;
    put_body(sink, answer)
}

/// Writes the text of an answer to a job, or to arguments that ask for none, with these lines that
/// tell words. It takes no memory.
pub(crate) fn put_answer<K: Sink>(
    sink: &mut K,
    asked: Option<Heading>,
    lines: &[u8],
    answer: &Answer,
) -> Result<(), Failed>
    requires { HasPlaces answer.now }
    ensures { Writes (K.seen sink.old) (K.seen sink.new) result
        (report.answer_text (option_map heading_view asked.entry) lines.now answer.now) }
{
    put_opening(sink, asked, answer)?;
    put_rest(sink, lines, answer)
}

/// The status of an answer that was written, or of what was written where there is none.
pub fn status_of(outcome: &Result<Answer, Stop>) -> u8
    ensures { result ≡ report.status_of outcome.now }
{
    match outcome {
        Ok(answer) => verdict_of(answer).status(),
        Err(stop) => stop_status(stop),
    }
}
