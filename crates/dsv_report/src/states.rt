// Writes what is found of state-space controllers, and why their files are refused, with no memory.
ghost use Rattle.std.specs.Prelude.{◌≡◌};
ghost use Rattle.dsv_base.specs.Taking.{Writes};
ghost use Rattle.dsv_report.specs.StateTexts.{no_state_form_text, state_code, state_text_after};
ghost use Rattle.dsv_report.specs.StateTexts.{state_text, state_quant_code, state_quant_text_after};
ghost use Rattle.dsv_report.specs.StateTexts.{state_quant_text};

use crate::fragments::{Fragment, put_fragments};
use crate::lines::put_number_line;
use dsv_base::{Failed, Sink, put_all};
use dsv_names::Named;
use dsv_state_file::StateRefusal;
use dsv_state_space::StateQuantRefusal;

// ---- forms

/// Writes that no form was found.
pub(crate) fn put_no_form_cause<K: Sink>(sink: &mut K) -> Result<(), Failed>
    ensures { Writes (K.seen sink.old) (K.seen sink.new) result no_state_form_text }
{
    put_all(sink, b"cause NO_FORM\n")
}

// ---- refusals

/// The code and the name of a refusal of the text.
#[tactic(auto, unfolding(crate::specs::StateTexts::state_code))]
fn state_code(refusal: StateRefusal) -> &'static [u8]
    ensures { result.now ≡ state_code refusal }
{
    match refusal {
        StateRefusal::Line { .. } => b"STATE FILE REFUSED 41 LINE ",
        StateRefusal::Number { .. } => b"STATE FILE REFUSED 42 NUMBER ",
        StateRefusal::Width { .. } => b"STATE FILE REFUSED 43 WIDTH ",
    }
}

/// Writes the fields of a refusal of the text after its code.
fn put_state_refusal_after<K: Sink>(
    sink: &mut K,
    code: &[u8],
    refusal: StateRefusal,
) -> Result<(), Failed>
    ensures { Writes (K.seen sink.old) (K.seen sink.new) result
        (state_text_after code.now refusal) }
{
    match refusal {
        StateRefusal::Line { line } | StateRefusal::Width { line } => {
            put_number_line(sink, code, line)
        }
        StateRefusal::Number { line, place } => put_fragments(
            sink,
            &[
                Fragment::Bytes(code),
                Fragment::Number(line.into()),
                Fragment::Bytes(b" "),
                Fragment::Number(place.into()),
                Fragment::Bytes(b"\n"),
            ],
        ),
    }
}

/// Writes the first fault of a state-space controller's file.
pub(crate) fn put_state_refusal<K: Sink>(sink: &mut K, refusal: StateRefusal) -> Result<(), Failed>
    ensures { Writes (K.seen sink.old) (K.seen sink.new) result (state_text refusal) }
{
    put_state_refusal_after(sink, state_code(refusal), refusal)
}

/// The code and the name of a refusal of the words.
#[tactic(auto, unfolding(crate::specs::StateTexts::state_quant_code))]
fn state_quant_code(refusal: StateQuantRefusal) -> &'static [u8]
    ensures { result.now ≡ state_quant_code refusal }
{
    match refusal {
        StateQuantRefusal::CoefficientRange { .. } => b"STATE FILE REFUSED 44 COEFFICIENT_RANGE ",
        StateQuantRefusal::FractionWide { .. } => b"STATE FILE REFUSED 45 FRACTION_WIDE ",
        StateQuantRefusal::RangeEmpty { .. } => b"STATE FILE REFUSED 46 RANGE_EMPTY ",
    }
}

/// Writes the fields of a refusal of the words after its code.
fn put_state_quant_refusal_after<K: Sink>(
    sink: &mut K,
    code: &[u8],
    refusal: StateQuantRefusal,
) -> Result<(), Failed>
    ensures { Writes (K.seen sink.old) (K.seen sink.new) result
        (state_quant_text_after code.now refusal) }
{
    let code = Fragment::Bytes(code);
    let space = Fragment::Bytes(b" ");
    let end = Fragment::Bytes(b"\n");
    match refusal {
        StateQuantRefusal::CoefficientRange {
            place,
            row,
            column,
            wanted,
        } => {
            let name = Fragment::Bytes(place.name().as_bytes());
            let (row, column) = (
                Fragment::Number(row.into()),
                Fragment::Number(column.into()),
            );
            let word = Fragment::Number(wanted);
            put_fragments(
                sink,
                &[code, name, space, row, space, column, space, word, end],
            )
        }
        StateQuantRefusal::FractionWide { place, row, column } => {
            let name = Fragment::Bytes(place.name().as_bytes());
            let (row, column) = (
                Fragment::Number(row.into()),
                Fragment::Number(column.into()),
            );
            put_fragments(sink, &[code, name, space, row, space, column, end])
        }
        StateQuantRefusal::RangeEmpty { lo, hi } => {
            let (lo, hi) = (Fragment::Number(lo), Fragment::Number(hi));
            put_fragments(sink, &[code, lo, space, hi, end])
        }
    }
}

/// Writes why a state-space controller has no words.
pub(crate) fn put_state_quant_refusal<K: Sink>(
    sink: &mut K,
    refusal: StateQuantRefusal,
) -> Result<(), Failed>
    ensures { Writes (K.seen sink.old) (K.seen sink.new) result (state_quant_text refusal) }
{
    put_state_quant_refusal_after(sink, state_quant_code(refusal), refusal)
}
