// The text of a subject's C.
#![tactic(auto, using(dsv_algebra::proofs::Casts::casts))]

ghost use Rattle.std.specs.Prelude.{◌≡◌, length, map, IfOk, IfErr};
ghost use Rattle.dsv_base.specs.Taking.{Writes};
ghost use Rattle.dsv_system.specs.RowViews.{row_of};
ghost use Rattle.dsv_code.specs.Code.{test_of, code_bytes, IsCodeOf, IsCodeless};

use crate::notes::CodeNotes;
use dsv_base::{Bytes, Failed, NoMemory, Sink};
use dsv_c::wide_value;
use dsv_ctext::{Labels, Remarks, put_program, put_test};
use dsv_netlist::Netlist;
use dsv_realise::{Asking, Subject};
use dsv_system::Row;
use dsv_word::Format;
use dsv_word_lines::TextSink;
use std::alloc::Global;

/// Why there is no C.
#[derive(Clone, Copy, Debug, PartialEq, Eq)]
pub enum CodeRefusal {
    /// The first value that needs more than 64 bits, counted from 0 as reports count values.
    Wide { value: u32 },
    NoMemory,
}

impl From<NoMemory> for CodeRefusal {
    ghost use Rattle.std.specs.Prelude.{◌≡◌};
    ghost use Rattle.dsv_code.specs.declared.code.CodeRefusal.TheVariants as refusal;

    ghost from_gives = { λ _ e. e ≡ refusal.NoMemory };

    fn from(_: NoMemory) -> Self {
        CodeRefusal::NoMemory
    }
}

/// Writes the test over the inputs of these rows, if there are any.
fn put_rows<K: Sink>(
    sink: &mut K,
    format: &Format,
    prefix: &[u8],
    rows: &[Row],
) -> Result<(), Failed>
    ensures { Writes (K.seen sink.old) (K.seen sink.new) result
        (test_of format.now prefix.now (map row_of rows.now)) }
{
    match rows {
        [] => Ok(()),
        [_, ..] => put_test(sink, format, prefix, rows),
    }
}

/// Writes the test of a netlist's program.
fn put_net_test<K: Sink>(
    sink: &mut K,
    net: &Netlist,
    prefix: &[u8],
    rows: &[Row],
) -> Result<(), Failed>
    ensures { Writes (K.seen sink.old) (K.seen sink.new) result
        (test_of net.now.format prefix.now (map row_of rows.now)) }
{
    let format = net.format();
    put_rows(sink, &format, prefix, rows)
}

/// Writes a program and its test.
fn put_code<K: Sink>(
    sink: &mut K,
    net: &Netlist,
    labels: &Labels,
    rows: &[Row],
) -> Result<(), Failed>
    requires named { length labels.now.members.now ≡ length net.now.next }
    ensures { Writes (K.seen sink.old) (K.seen sink.new) result (code_bytes net.now
        labels.now.prefix.now labels.now.members.now labels.now.remarks (map row_of rows.now)) }
{
    put_program(sink, net, labels)?;
    put_net_test(sink, net, labels.prefix, rows)
}

/// The text of a program and its test.
fn code_text(alloc: Global, net: &Netlist, labels: &Labels, rows: &[Row]) -> Result<Bytes, NoMemory>
    requires named { length labels.now.members.now ≡ length net.now.next }
    ensures { IfOk result (λ text. text ≡ code_bytes net.now labels.now.prefix.now
        labels.now.members.now labels.now.remarks (map row_of rows.now)) }
{
    let mut text = TextSink::new(alloc);
    match put_code(&mut text, net, labels, rows) {
        Ok(()) => Ok(text.into_bytes()),
        Err(_) => Err(NoMemory),
    }
}

/// The C of a subject: the text of its netlist's program, whose names begin so, and then the test
/// over the inputs of these rows, if there are any.
///
/// # Errors
///
/// The first value that needs more than 64 bits; or there was no memory.
pub fn code_of<S: Subject>(
    alloc: Global,
    asking: &Asking<S>,
    notes: &CodeNotes,
    prefix: &str,
    rows: &[Row],
) -> Result<Bytes, CodeRefusal>
    requires named { length notes.now.members ≡ (S.view asking.now.subject.now).runs.many }
    ensures text { IfOk result (IsCodeOf (S.view asking.now.subject.now) prefix.now
        notes.now.members notes.now.origin (map row_of rows.now)) }
    ensures refused { IfErr result (IsCodeless (S.view asking.now.subject.now)) }
{
    let net = &asking.net;
    let _count = net.len(); // that it is a netlist, for the proof
    if let Some(value) = wide_value(net) {
        return Err(CodeRefusal::Wide { value });
    }
    let labels = Labels {
        prefix: prefix.as_bytes(),
        members: notes.members.as_slice(),
        remarks: Remarks {
            origin: notes.origin,
            format: net.format(),
            low: asking.low,
            high: asking.high,
        },
    };
    Ok(code_text(alloc, net, &labels, rows)?)
}
