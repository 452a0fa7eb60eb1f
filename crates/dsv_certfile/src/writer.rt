// Writing the text of a certificate.
ghost use Rattle.std.specs.Prelude.{◌++◌, ◌∷◌, [], length, map, take, All, OnOk, Some, None};
ghost use Rattle.std.specs.Fmt.{signed_decimal};
ghost use Rattle.std.specs.List.{flat_map};
ghost use Rattle.dsv_base.specs.Taking.{Writes};
ghost use Rattle.dsv_base.specs.Text.{spaced_text};
ghost use Rattle.dsv_lines.specs.Texts.{line_text};
ghost use Rattle.dsv_certfile.specs.Texts.{size_pieces, job_line, inequality_line};
ghost use Rattle.dsv_certfile.specs.Texts.{logs_lines, squares_lines, square_lines, falls_lines};
ghost use Rattle.dsv_certfile.specs.Texts.{squares_body};
ghost use Rattle.dsv_certfile.specs.Texts.{certificate_text, version_line, numbers_line};
ghost use Rattle.dsv_certfile.specs.Texts.{format_lines, head_lines};
ghost use Rattle.dsv_lines.specs.Texts.{piece_text};
ghost use Rattle.dsv_certfile.specs.Typed.{IsTypedInequality, IsTypedSet, AreTypedLogs};
ghost use Rattle.dsv_certfile.specs.Typed.{IsTypedRow, IsTypedFactor, IsTypedMatrix};
ghost use Rattle.dsv_certfile.specs.Typed.{AreTypedRows};
ghost use Rattle.dsv_certfile.specs.Typed.{AreTypedSquares, IsTypedOffer, IsTypedBody};
ghost use Rattle.dsv_names.specs.Properties.{property_name};
ghost use Rattle.dsv_names.specs.Realisations.{realisation_name};
ghost use Rattle.dsv_names.specs.Roundings.{rounding_name};
ghost use Rattle.dsv_names.specs.OverflowModes.{overflow_mode_name};
ghost use Rattle.dsv_certfile.specs.Texts.{kind_line, candidate_counts, squares_head};
ghost use Rattle.dsv_certfile.specs.Texts.{roundoff_counts, range_line, coefficient_line};
ghost use Rattle.dsv_certfile.specs.declared.certificate.Certificate.TheVariants as certificate;
ghost use Rattle.dsv_certfile.specs.declared.kind.Kind.TheVariants as kind;
ghost use Rattle.dsv_certfile.specs.declared.keyword.Keyword.TheVariants as keyword;

use crate::certificate::Certificate;
use crate::job::{CertWords, CertifiedJob, Size};
use crate::keyword::Keyword;
use crate::output::{
    MatrixRow, put_entries, put_entry, put_log, put_name, put_piece, put_rows, put_word,
};
use dsv_base::{Failed, Items, Sink, put_all, put_line, put_spaced};
use dsv_forms::{Falls, GREATEST_ORDER, Squares};
use dsv_hints::Log;
use dsv_integer::Numeral;
use dsv_roundoff::{RoundoffOffer, WordRange};
use dsv_template::{Candidate, Inequality, ThreeLogs};

// ---- the first lines

/// Writes the size after a space, where a job has one.
fn put_size<K: Sink>(sink: &mut K, size: Size) -> Result<(), Failed>
    ensures { Writes (K.seen sink.old) (K.seen sink.new) result
        (flat_map (spaced_text piece_text) (size_pieces size)) }
{
    match size {
        Size::NoSize => put_all(sink, b""),
        Size::Samples(samples) => put_spaced(sink, samples),
        Size::Unbounded => put_all(sink, b" unbounded"),
        Size::OfLoop => put_all(sink, b" plant"),
    }
}

/// Writes a space before the names of the property and the realisation.
fn put_names<K: Sink>(sink: &mut K, job: &CertifiedJob) -> Result<(), Failed>
    ensures { Writes (K.seen sink.old) (K.seen sink.new) result
        (spaced_text piece_text (property_name job.now.property)
        ++ spaced_text piece_text (realisation_name job.now.design.realisation)) }
{
    put_name(sink, job.property)?;
    put_name(sink, job.design.realisation)
}

/// Writes a space before the names of the rounding and the overflow mode.
fn put_modes<K: Sink>(sink: &mut K, job: &CertifiedJob) -> Result<(), Failed>
    ensures { Writes (K.seen sink.old) (K.seen sink.new) result
        (spaced_text piece_text (rounding_name job.now.design.rounding)
        ++ spaced_text piece_text (overflow_mode_name job.now.design.overflow)) }
{
    put_name(sink, job.design.rounding)?;
    put_name(sink, job.design.overflow)
}

/// Writes the job line.
fn put_job<K: Sink>(sink: &mut K, job: &CertifiedJob) -> Result<(), Failed>
    ensures { Writes (K.seen sink.old) (K.seen sink.new) result (line_text (job_line job.now)) }
{
    put_all(sink, b"job")?;
    put_names(sink, job)?;
    put_modes(sink, job)?;
    put_size(sink, job.size)?;
    put_all(sink, b"\n")
}

/// Writes the kind line of an invariant.
fn put_candidate_kind<K: Sink>(sink: &mut K, candidate: &Candidate) -> Result<(), Failed>
    ensures { Writes (K.seen sink.old) (K.seen sink.new) result (line_text
        (kind_line kind.Invariant (candidate_counts candidate.now))) }
{
    let count = candidate.inequalities.len() as u64;
    put_line(
        sink,
        b"kind invariant",
        &[u64::from(candidate.depth), count],
    )
}

/// Writes the line of the version.
fn put_version<K: Sink>(sink: &mut K, words: CertWords) -> Result<(), Failed>
    ensures { Writes (K.seen sink.old) (K.seen sink.new) result (line_text (version_line words)) }
{
    match words {
        CertWords::Unsaid => put_all(sink, b"dsv-certificate 1\n"),
        CertWords::Said { .. } => put_all(sink, b"dsv-certificate 2\n"),
    }
}

/// Writes the line of the words' format, where the certificate says it.
fn put_format<K: Sink>(sink: &mut K, words: CertWords) -> Result<(), Failed>
    ensures { Writes (K.seen sink.old) (K.seen sink.new) result
        (flat_map line_text (format_lines words)) }
{
    match words {
        CertWords::Unsaid => Ok(()),
        CertWords::Said {
            int_bits,
            frac_bits,
        } => put_line(sink, b"format", &[int_bits, frac_bits]),
    }
}

/// Writes the lines before that of the kind.
fn put_head<K: Sink>(sink: &mut K, job: &CertifiedJob) -> Result<(), Failed>
    ensures { Writes (K.seen sink.old) (K.seen sink.new) result
        (flat_map line_text (head_lines job.now)) }
{
    put_version(sink, job.words)?;
    put_job(sink, job)?;
    put_format(sink, job.words)
}

/// Writes the kind line of hints.
fn put_log_kind<K: Sink>(sink: &mut K) -> Result<(), Failed>
    ensures { Writes (K.seen sink.old) (K.seen sink.new) result
        (line_text (kind_line kind.Hints [])) }
{
    put_all(sink, b"kind hints\n")
}

/// Writes the kind line of a gain.
fn put_gain_kind<K: Sink>(sink: &mut K, depth: u32) -> Result<(), Failed>
    ensures { Writes (K.seen sink.old) (K.seen sink.new) result
        (line_text (kind_line kind.Gain (depth ∷ []))) }
{
    put_line(sink, b"kind gain", &[depth])
}

/// Writes the kind line of a gain of this depth with a box.
fn put_error_kind<K: Sink>(sink: &mut K, depth: u32, offer: &RoundoffOffer) -> Result<(), Failed>
    ensures { Writes (K.seen sink.old) (K.seen sink.new) result
        (line_text (kind_line kind.Error (roundoff_counts depth offer.now))) }
{
    let count = offer.ranges.len() as u64;
    let (depth, error_depth) = (u64::from(depth), u64::from(offer.depth));
    put_line(sink, b"kind error", &[depth, error_depth, count])
}

/// Writes the kind line of a form that falls.
fn put_form_kind<K: Sink>(sink: &mut K, offer: &Falls) -> Result<(), Failed>
    ensures { Writes (K.seen sink.old) (K.seen sink.new) result
        (line_text (kind_line kind.Falls (offer.now.form.d ∷ []))) }
{
    put_line(sink, b"kind falls", &[offer.form.d])
}

/// Writes the kind line of a table.
fn put_table_kind<K: Sink>(sink: &mut K, coefficients: &Items<Numeral>) -> Result<(), Failed>
    ensures { Writes (K.seen sink.old) (K.seen sink.new) result
        (line_text (kind_line kind.Table (length coefficients.now ∷ []))) }
{
    put_line(sink, b"kind table", &[coefficients.len() as u64])
}

// ---- what follows them

/// Writes the line of an inequality.
fn put_inequality<K: Sink>(sink: &mut K, inequality: &Inequality) -> Result<(), Failed>
    ensures text { Writes (K.seen sink.old) (K.seen sink.new) result
        (line_text (inequality_line inequality.now)) }
    ensures typed { OnOk result (IsTypedInequality inequality.now) }
{
    put_all(sink, Keyword::Inequality.text())?;
    put_entries(sink, inequality.coefficients.as_slice())?;
    put_entry(sink, &inequality.bound)?;
    put_all(sink, b"\n")
}

/// Writes the lines of inequalities.
fn put_each_inequality<K: Sink>(sink: &mut K, inequalities: &[Inequality]) -> Result<(), Failed>
    ensures text { Writes (K.seen sink.old) (K.seen sink.new) result
        (flat_map (λ i. line_text (inequality_line i)) inequalities.now) }
    ensures typed { OnOk result (All IsTypedInequality inequalities.now) }
{
    for inequality in inequalities {
        put_inequality(sink, inequality)?;
    }
    Ok(())
}

fn put_inequalities<K: Sink>(sink: &mut K, candidate: &Candidate) -> Result<(), Failed>
    ensures text { Writes (K.seen sink.old) (K.seen sink.new) result
        (flat_map line_text (map inequality_line candidate.now.inequalities.items)) }
    ensures typed { OnOk result (IsTypedSet candidate.now) }
{
    put_each_inequality(sink, candidate.inequalities.as_slice())
}

/// Writes each log after the word of its sentence.
fn put_logs<K: Sink>(sink: &mut K, logs: &ThreeLogs) -> Result<(), Failed>
    ensures text { Writes (K.seen sink.old) (K.seen sink.new) result
        (flat_map line_text (logs_lines logs.now)) }
    ensures typed { OnOk result (AreTypedLogs logs.now) }
{
    put_word(sink, Keyword::Base)?;
    put_log(sink, &logs.base)?;
    put_word(sink, Keyword::Step)?;
    put_log(sink, &logs.step)?;
    put_word(sink, Keyword::Safe)?;
    put_log(sink, &logs.safe)
}

/// Writes the line of a square: its weight, and the first d places of its row.
fn put_square<K: Sink>(sink: &mut K, d: usize, weight: &i128, row: &MatrixRow) -> Result<(), Failed>
    ensures text { Writes (K.seen sink.old) (K.seen sink.new) result
        (line_text (numbers_line keyword.Square (weight.now ∷ take d row.now))) }
    ensures typed { IsTypedRow row.now }
{
    put_all(sink, Keyword::Square.text())?;
    put_entry(sink, weight)?;
    put_entries(sink, &row[..GREATEST_ORDER.min(d)])?;
    put_all(sink, b"\n")
}

fn put_all_squares<K: Sink>(sink: &mut K, d: usize, squares: &Squares) -> Result<(), Failed>
    ensures text { Writes (K.seen sink.old) (K.seen sink.new) result
        (flat_map line_text (square_lines d
        (take squares.now.count squares.now.weights) squares.now.rows)) }
    ensures typed { OnOk result (AreTypedRows squares.now) }
{
    for i in 0..GREATEST_ORDER.min(squares.count as usize) {
        put_square(sink, d, &squares.weights[i], &squares.rows[i])?;
    }
    Ok(())
}

/// Writes a space and the factor of a form.
pub(crate) fn put_factor<K: Sink>(sink: &mut K, factor: &i128) -> Result<(), Failed>
    ensures text { Writes (K.seen sink.old) (K.seen sink.new) result
        (spaced_text signed_decimal factor.now) }
    ensures typed { IsTypedFactor factor.now }
{
    put_spaced(sink, *factor)
}

/// Writes the line that the squares of a form begin with.
fn put_squares_head<K: Sink>(sink: &mut K, word: Keyword, s: &Squares) -> Result<(), Failed>
    ensures text { Writes (K.seen sink.old) (K.seen sink.new) result
        (line_text (squares_head word s.now)) }
    ensures typed { OnOk result (IsTypedFactor s.now.m) }
{
    put_all(sink, word.text())?;
    put_factor(sink, &s.m)?;
    put_spaced(sink, s.count)?;
    put_all(sink, b"\n")
}

/// Writes the squares of a form of d places, and the rest.
pub(crate) fn put_squares_body<K: Sink>(
    sink: &mut K,
    d: usize,
    squares: &Squares,
) -> Result<(), Failed>
    ensures text { Writes (K.seen sink.old) (K.seen sink.new) result
        (flat_map line_text (squares_body d squares.now)) }
    ensures typed { OnOk result (AreTypedRows squares.now × IsTypedMatrix d squares.now.rest) }
{
    put_all_squares(sink, d, squares)?;
    put_rows(sink, Keyword::Rest, d, &squares.rest)
}

/// Writes the same after the line that the squares begin with.
pub(crate) fn put_squares<K: Sink>(
    sink: &mut K,
    word: Keyword,
    d: usize,
    squares: &Squares,
) -> Result<(), Failed>
    ensures text { Writes (K.seen sink.old) (K.seen sink.new) result
        (flat_map line_text (squares_lines word d squares.now)) }
    ensures typed { OnOk result (AreTypedSquares d squares.now) }
{
    put_squares_head(sink, word, squares)?;
    put_squares_body(sink, d, squares)
}

fn put_falls<K: Sink>(sink: &mut K, offer: &Falls) -> Result<(), Failed>
    ensures text { Writes (K.seen sink.old) (K.seen sink.new) result
        (flat_map line_text (falls_lines offer.now)) }
    ensures typed { OnOk result (IsTypedOffer offer.now) }
{
    let d = offer.form.d as usize;
    put_rows(sink, Keyword::Form, d, &offer.form.rows)?;
    put_squares(sink, Keyword::Positive, d, &offer.positive)?;
    put_squares(sink, Keyword::Fall, d, &offer.fall)
}

/// Writes the line of a range.
fn put_range<K: Sink>(sink: &mut K, range: WordRange) -> Result<(), Failed>
    ensures { Writes (K.seen sink.old) (K.seen sink.new) result (line_text (range_line range)) }
{
    put_line(sink, b"box", &[range.low, range.high])
}

/// Writes the lines of ranges.
fn put_each_range<K: Sink>(sink: &mut K, ranges: &[WordRange]) -> Result<(), Failed>
    ensures { Writes (K.seen sink.old) (K.seen sink.new) result
        (flat_map (λ range. line_text (range_line range)) ranges.now) }
{
    for it in ranges {
        put_range(sink, *it)?;
    }
    Ok(())
}

/// Writes the box of an offer.
fn put_box<K: Sink>(sink: &mut K, offer: &RoundoffOffer) -> Result<(), Failed>
    ensures { Writes (K.seen sink.old) (K.seen sink.new) result
        (flat_map line_text (map range_line offer.now.ranges)) }
{
    put_each_range(sink, offer.ranges.as_slice())
}

/// Writes the line of a coefficient.
fn put_coefficient<K: Sink>(sink: &mut K, coefficient: &Numeral) -> Result<(), Failed>
    ensures { Writes (K.seen sink.old) (K.seen sink.new) result
        (line_text (coefficient_line coefficient.now)) }
{
    put_all(sink, Keyword::Coefficient.text())?;
    put_piece(sink, coefficient.text())?;
    put_all(sink, b"\n")
}

/// Writes the lines of coefficients.
fn put_each_coefficient<K: Sink>(sink: &mut K, coefficients: &[Numeral]) -> Result<(), Failed>
    ensures { Writes (K.seen sink.old) (K.seen sink.new) result
        (flat_map (λ c. line_text (coefficient_line c)) coefficients.now) }
{
    for coefficient in coefficients {
        put_coefficient(sink, coefficient)?;
    }
    Ok(())
}

/// Writes the lines of a polynomial.
fn put_polynomial<K: Sink>(sink: &mut K, coefficients: &[Numeral]) -> Result<(), Failed>
    ensures { Writes (K.seen sink.old) (K.seen sink.new) result
        (flat_map line_text (map coefficient_line coefficients.now)) }
{
    put_each_coefficient(sink, coefficients)
}

/// Writes an invariant: its inequalities, and its logs.
fn put_invariant<K: Sink>(
    sink: &mut K,
    candidate: &Candidate,
    logs: &ThreeLogs,
) -> Result<(), Failed>
    ensures text { Writes (K.seen sink.old) (K.seen sink.new) result (flat_map line_text
        (map inequality_line candidate.now.inequalities.items ++ logs_lines logs.now)) }
    ensures typed { OnOk result (IsTypedSet candidate.now × AreTypedLogs logs.now) }
{
    put_inequalities(sink, candidate)?;
    put_logs(sink, logs)
}

// ---- certificates

/// Writes the text of a certificate whose log refutes the formula of its job. It takes no memory;
/// where the sink fails, it took a prefix.
pub fn write_hints<K: Sink>(sink: &mut K, job: &CertifiedJob, log: &Log) -> Result<(), Failed>
    ensures text { Writes (K.seen sink.old) (K.seen sink.new) result
        (certificate_text (certificate.Hints job.now log.now)) }
    ensures typed { OnOk result (IsTypedBody (certificate.Hints job.now log.now)) }
{
    put_head(sink, job)?;
    put_log_kind(sink)?;
    put_log(sink, log)?;
    put_word(sink, Keyword::End)
}

/// Writes the text of a certificate of a set that is never left, as `write_hints` does.
pub fn write_invariant<K: Sink>(
    sink: &mut K,
    job: &CertifiedJob,
    candidate: &Candidate,
    logs: &ThreeLogs,
) -> Result<(), Failed>
    ensures text { Writes (K.seen sink.old) (K.seen sink.new) result
        (certificate_text (certificate.Invariant job.now candidate.now logs.now)) }
    ensures typed { OnOk result
        (IsTypedBody (certificate.Invariant job.now candidate.now logs.now)) }
{
    put_head(sink, job)?;
    put_candidate_kind(sink, candidate)?;
    put_invariant(sink, candidate, logs)?;
    put_word(sink, Keyword::End)
}

/// Writes the text of a certificate of a gain of this depth, as `write_hints` does.
pub fn write_gain<K: Sink>(sink: &mut K, job: &CertifiedJob, depth: u32) -> Result<(), Failed>
    ensures text { Writes (K.seen sink.old) (K.seen sink.new) result
        (certificate_text (certificate.Gain job.now depth None)) }
    ensures typed { OnOk result (IsTypedBody (certificate.Gain job.now depth None)) }
{
    put_head(sink, job)?;
    put_gain_kind(sink, depth)?;
    put_word(sink, Keyword::End)
}

/// Writes the text of a certificate of a gain of this depth with an offer that shows how far
/// outputs are from those of exact runs, as `write_hints` does.
pub fn write_error<K: Sink>(
    sink: &mut K,
    job: &CertifiedJob,
    depth: u32,
    offer: &RoundoffOffer,
) -> Result<(), Failed>
    ensures text { Writes (K.seen sink.old) (K.seen sink.new) result
        (certificate_text (certificate.Gain job.now depth (Some offer.now))) }
    ensures typed { OnOk result
        (IsTypedBody (certificate.Gain job.now depth (Some offer.now))) }
{
    put_head(sink, job)?;
    put_error_kind(sink, depth, offer)?;
    put_box(sink, offer)?;
    put_word(sink, Keyword::End)
}

/// Writes the text of a certificate of a form that falls, as `write_hints` does.
pub fn write_falls<K: Sink>(sink: &mut K, job: &CertifiedJob, offer: &Falls) -> Result<(), Failed>
    ensures text { Writes (K.seen sink.old) (K.seen sink.new) result
        (certificate_text (certificate.Falls job.now offer.now)) }
    ensures typed { OnOk result (IsTypedBody (certificate.Falls job.now offer.now)) }
{
    put_head(sink, job)?;
    put_form_kind(sink, offer)?;
    put_falls(sink, offer)?;
    put_word(sink, Keyword::End)
}

/// Writes the text of a certificate of a polynomial whose table shows that all its roots are inside
/// the unit circle, as `write_hints` does.
pub fn write_table<K: Sink>(
    sink: &mut K,
    job: &CertifiedJob,
    coefficients: &Items<Numeral>,
) -> Result<(), Failed>
    ensures text { Writes (K.seen sink.old) (K.seen sink.new) result
        (certificate_text (certificate.Table job.now coefficients.now)) }
    ensures typed { OnOk result (IsTypedBody (certificate.Table job.now coefficients.now)) }
{
    put_head(sink, job)?;
    put_table_kind(sink, coefficients)?;
    put_polynomial(sink, coefficients.as_slice())?;
    put_word(sink, Keyword::End)
}

/// Writes the text of the certificate, as `write_hints` does.
pub fn write<K: Sink>(certificate: &Certificate, sink: &mut K) -> Result<(), Failed>
    ensures text { Writes (K.seen sink.old) (K.seen sink.new) result
        (certificate_text certificate.now) }
    ensures typed { OnOk result (IsTypedBody certificate.now) }
{
    match certificate {
        Certificate::Hints { job, log } => write_hints(sink, job, log),
        Certificate::Invariant {
            job,
            candidate,
            logs,
        } => write_invariant(sink, job, candidate, logs),
        Certificate::Gain { job, depth, offer } => match offer {
            Some(offer) => write_error(sink, job, *depth, offer),
            None => write_gain(sink, job, *depth),
        },
        Certificate::Falls { job, offer } => write_falls(sink, job, offer),
        Certificate::Table { job, coefficients } => write_table(sink, job, coefficients),
    }
}
