// Writes why a controller file is refused, or a file of inputs, with no memory.
ghost use Rattle.std.specs.Prelude.{◌≡◌};
ghost use Rattle.dsv_base.specs.Taking.{Writes};
ghost use Rattle.dsv_report.specs.Refusals.{code_of, place_of, detail_head, detail_name};
ghost use Rattle.dsv_report.specs.Refusals.{file_text, quant_code, quant_text};
ghost use Rattle.dsv_report.specs.Refusals.{quant_text_after, input_code, input_text};
ghost use Rattle.dsv_report.specs.Refusals.{inputs_text, wide_code_text};

use crate::fragments::{Fragment, put_fragments};
use crate::lines::put_number_line;
use crate::stop::InputsFault;
use dsv_base::{Failed, Sink, put_all};
use dsv_input_file::InputsRefusal;
use dsv_names::Named;
use dsv_quantiser::QuantRefusal;
use dsv_reader::FileRefusal;

/// The code and the name of a refusal.
#[tactic(auto, unfolding(crate::specs::Refusals::code_of))]
fn code_of(refusal: FileRefusal) -> &'static [u8]
    ensures { result.now ≡ code_of refusal }
{
    match refusal {
        FileRefusal::Utf8 { .. } => b"FILE REFUSED 1 UTF8 at ",
        FileRefusal::Token { .. } => b"FILE REFUSED 2 TOKEN at ",
        FileRefusal::Unexpected { .. } => b"FILE REFUSED 3 UNEXPECTED at ",
        FileRefusal::FieldTwice { .. } => b"FILE REFUSED 4 FIELD_TWICE at ",
        FileRefusal::FieldMissing { .. } => b"FILE REFUSED 5 FIELD_MISSING at ",
        FileRefusal::Number { .. } => b"FILE REFUSED 6 NUMBER at ",
        FileRefusal::SizeMismatch { .. } => b"FILE REFUSED 7 SIZE_MISMATCH at ",
        FileRefusal::Length { .. } => b"FILE REFUSED 8 LENGTH at ",
        FileRefusal::LeadingZero { .. } => b"FILE REFUSED 9 LEADING_ZERO at ",
        FileRefusal::FractionWide { .. } => b"FILE REFUSED 10 FRACTION_WIDE at ",
        FileRefusal::Width { .. } => b"FILE REFUSED 11 WIDTH at ",
        FileRefusal::NoMemory => b"NO MEMORY ",
    }
}

/// The offset where a refusal stands.
fn place_of(refusal: FileRefusal) -> u64
    ensures { result ≡ place_of refusal }
{
    match refusal {
        FileRefusal::Utf8 { at }
        | FileRefusal::Token { at }
        | FileRefusal::Unexpected { at, wanted: _ }
        | FileRefusal::FieldTwice { at }
        | FileRefusal::FieldMissing { at, field: _ }
        | FileRefusal::Number { at }
        | FileRefusal::SizeMismatch { at }
        | FileRefusal::Length { at }
        | FileRefusal::LeadingZero { at }
        | FileRefusal::FractionWide { at }
        | FileRefusal::Width { at } => at,
        FileRefusal::NoMemory => 0,
    }
}

/// What stands before the detail of a refusal.
fn detail_head(refusal: FileRefusal) -> &'static [u8]
    ensures { result.now ≡ detail_head refusal }
{
    match refusal {
        FileRefusal::Unexpected { .. } => b" wanted ",
        FileRefusal::FieldMissing { .. } => b" field ",
        _ => b"",
    }
}

/// What is wanted where a refusal stands, or which field.
fn detail_name(refusal: FileRefusal) -> &'static [u8]
    ensures { result.now ≡ detail_name refusal }
{
    match refusal {
        FileRefusal::Unexpected { at: _, wanted } => wanted.name().as_bytes(),
        FileRefusal::FieldMissing { at: _, field } => field.name().as_bytes(),
        _ => b"",
    }
}

/// Writes the first fault of a file.
pub fn put_file_refusal<K: Sink>(sink: &mut K, refusal: FileRefusal) -> Result<(), Failed>
    ensures { Writes (K.seen sink.old) (K.seen sink.new) result (file_text refusal) }
{
    put_fragments(
        sink,
        &[
            Fragment::Bytes(code_of(refusal)),
            Fragment::Number(place_of(refusal).into()),
            Fragment::Bytes(detail_head(refusal)),
            Fragment::Bytes(detail_name(refusal)),
            Fragment::Bytes(b"\n"),
        ],
    )
}

/// The code and the name of a refusal.
#[tactic(auto, unfolding(crate::specs::Refusals::quant_code))]
fn quant_code(refusal: QuantRefusal) -> &'static [u8]
    ensures { result.now ≡ quant_code refusal }
{
    match refusal {
        QuantRefusal::CoefficientRange { .. } => b"FILE REFUSED 21 COEFFICIENT_RANGE ",
        QuantRefusal::DeltaNotPositive { .. } => b"FILE REFUSED 22 DELTA_NOT_POSITIVE wanted ",
        QuantRefusal::RangeEmpty { .. } => b"FILE REFUSED 23 RANGE_EMPTY ",
        QuantRefusal::FractionWide { .. } => b"FILE REFUSED 24 FRACTION_WIDE ",
    }
}

fn put_quant_refusal_after<K: Sink>(
    sink: &mut K,
    code: &[u8],
    refusal: QuantRefusal,
) -> Result<(), Failed>
    ensures { Writes (K.seen sink.old) (K.seen sink.new) result
        (quant_text_after code.now refusal) }
{
    let code = Fragment::Bytes(code);
    let space = Fragment::Bytes(b" ");
    let end = Fragment::Bytes(b"\n");
    match refusal {
        QuantRefusal::CoefficientRange {
            list,
            index,
            wanted,
        } => {
            let name = Fragment::Bytes(list.name().as_bytes());
            let place = Fragment::Number(index.into());
            let middle = Fragment::Bytes(b" wanted ");
            let word = Fragment::Number(wanted);
            put_fragments(sink, &[code, name, space, place, middle, word, end])
        }
        QuantRefusal::DeltaNotPositive { wanted } => {
            put_fragments(sink, &[code, Fragment::Number(wanted), end])
        }
        QuantRefusal::RangeEmpty { lo, hi } => {
            let (lo, hi) = (Fragment::Number(lo), Fragment::Number(hi));
            put_fragments(sink, &[code, lo, space, hi, end])
        }
        QuantRefusal::FractionWide { list, index } => {
            let name = Fragment::Bytes(list.name().as_bytes());
            put_fragments(
                sink,
                &[code, name, space, Fragment::Number(index.into()), end],
            )
        }
    }
}

/// Writes why a controller has no words.
pub fn put_quant_refusal<K: Sink>(sink: &mut K, refusal: QuantRefusal) -> Result<(), Failed>
    ensures { Writes (K.seen sink.old) (K.seen sink.new) result (quant_text refusal) }
{
    put_quant_refusal_after(sink, quant_code(refusal), refusal)
}

/// The code and the name of the refusal of an input.
#[tactic(auto, unfolding(crate::specs::Refusals::input_code))]
fn input_code() -> &'static [u8]
    ensures { result.now ≡ input_code }
{
    b"FILE REFUSED 25 INPUT_RANGE "
}

/// Writes the refusal of an input.
pub fn put_input_range<K: Sink>(sink: &mut K, index: u32, value: &i128) -> Result<(), Failed>
    ensures { Writes (K.seen sink.old) (K.seen sink.new) result (input_text index value.now) }
{
    put_fragments(
        sink,
        &[
            Fragment::Bytes(input_code()),
            Fragment::Number(index.into()),
            Fragment::Bytes(b" "),
            Fragment::Number(*value),
            Fragment::Bytes(b"\n"),
        ],
    )
}

/// Writes that a value needs more than 64 bits in C.
pub(crate) fn put_wide_code<K: Sink>(sink: &mut K, value: u64) -> Result<(), Failed>
    ensures { Writes (K.seen sink.old) (K.seen sink.new) result (wide_code_text value) }
{
    put_number_line(sink, b"CODE REFUSED 71 WIDE value ", value)
}

/// Writes why a file of inputs is refused.
pub(crate) fn put_inputs_refusal<K: Sink>(sink: &mut K, fault: InputsFault) -> Result<(), Failed>
    ensures { Writes (K.seen sink.old) (K.seen sink.new) result (inputs_text fault) }
{
    match fault {
        InputsFault::Text(InputsRefusal::Number { line }) => {
            put_number_line(sink, b"INPUTS REFUSED 81 NUMBER line ", line)
        }
        InputsFault::Text(InputsRefusal::Many) => put_all(sink, b"INPUTS REFUSED 82 MANY\n"),
        InputsFault::Text(InputsRefusal::NoNumbers) => put_all(sink, b"INPUTS REFUSED 83 NONE\n"),
        InputsFault::TooLong => put_all(sink, b"INPUTS REFUSED 84 TOO_LONG\n"),
    }
}
