// The comments that say what the code is of.
#![tactic(auto, using(dsv_algebra::proofs::Casts::casts))]

ghost use Rattle.std.specs.Prelude.{◌≡◌, pos};
ghost use Rattle.std.specs.Fmt.{signed_decimal};
ghost use Rattle.dsv_word.specs.Words.{width, lo, hi};
ghost use Rattle.dsv_base.specs.Taking.{Writes};
ghost use Rattle.dsv_ctext.specs.Comments.{origin_text, origin_end, title_modes, title_words};
ghost use Rattle.dsv_ctext.specs.Comments.{title_text, range_text, step_remark};

use crate::fragments::{Fragment, put_fragments};
use crate::functions::{high_of, low_of};
use dsv_base::{Failed, Sink, put_all, put_number};
use dsv_names::{Named, Realisation};
use dsv_word::Format;

/// What the code is of.
#[derive(Clone, Copy, Debug, PartialEq, Eq)]
pub enum Origin {
    /// A controller, and whether its accumulator is wide.
    Controller {
        realisation: Realisation,
        wide: bool,
    },
    /// So many controllers in series, which are alike.
    Cascade {
        sections: u32,
        realisation: Realisation,
        wide: bool,
    },
    /// A state-space controller of so many states.
    States {
        states: u32,
    },
}

/// What comments say: what the code is of, its words, and the least and the greatest input of the
/// verdicts.
#[derive(Clone, Copy)]
pub struct Remarks {
    pub origin: Origin,
    pub format: Format,
    pub low: i64,
    pub high: i64,
}

/// Writes what the code is of.
fn put_origin<K: Sink>(sink: &mut K, origin: &Origin) -> Result<(), Failed>
    ensures { Writes (K.seen sink.old) (K.seen sink.new) result (origin_text origin.now) }
{
    match origin {
        Origin::Controller { realisation, .. } => put_fragments(
            sink,
            &[
                Fragment::Bytes(realisation.name().as_bytes()),
                Fragment::Bytes(b" "),
            ],
        ),
        Origin::Cascade {
            sections,
            realisation,
            ..
        } => put_fragments(
            sink,
            &[
                Fragment::Bytes(b"sections "),
                Fragment::Number((*sections).into()),
                Fragment::Bytes(b" "),
                Fragment::Bytes(realisation.name().as_bytes()),
                Fragment::Bytes(b" "),
            ],
        ),
        Origin::States { states } => put_fragments(
            sink,
            &[
                Fragment::Bytes(b"state-space "),
                Fragment::Number((*states).into()),
                Fragment::Bytes(b" "),
            ],
        ),
    }
}

/// What stands after the modes.
fn origin_end(origin: &Origin) -> &'static [u8]
    ensures { result.now ≡ origin_end origin.now }
{
    match origin {
        Origin::Controller { wide: true, .. } | Origin::Cascade { wide: true, .. } => {
            b", wide accumulator\n"
        }
        _ => b"\n",
    }
}

/// Writes the modes.
fn put_modes<K: Sink>(sink: &mut K, remarks: &Remarks) -> Result<(), Failed>
    ensures { Writes (K.seen sink.old) (K.seen sink.new) result (title_modes remarks.now) }
{
    put_fragments(
        sink,
        &[
            Fragment::Bytes(remarks.format.rounding.name().as_bytes()),
            Fragment::Bytes(b" "),
            Fragment::Bytes(remarks.format.overflow.name().as_bytes()),
            Fragment::Bytes(origin_end(&remarks.origin)),
        ],
    )
}

/// Writes how many bits words have.
fn put_bits<K: Sink>(sink: &mut K, format: &Format) -> Result<(), Failed>
    ensures { Writes (K.seen sink.old) (K.seen sink.new) result
        (signed_decimal (pos (width format.now))) }
{
    put_number(sink, i128::from(format.width()))
}

/// Writes how many of them stand after the point.
fn put_after<K: Sink>(sink: &mut K, format: &Format) -> Result<(), Failed>
    ensures { Writes (K.seen sink.old) (K.seen sink.new) result
        (signed_decimal (pos format.now.frac_bits)) }
{
    put_number(sink, i128::from(format.frac_bits))
}

/// Writes what words are.
fn put_words<K: Sink>(sink: &mut K, format: &Format) -> Result<(), Failed>
    ensures { Writes (K.seen sink.old) (K.seen sink.new) result (title_words format.now) }
{
    put_all(sink, b"   Words have ")?;
    put_bits(sink, format)?;
    put_all(sink, b" bits, ")?;
    put_after(sink, format)?;
    put_all(sink, b" of them after the point: w stands for w / 2^")?;
    put_after(sink, format)?;
    put_all(sink, b".\n   Written by dsv. */\n")
}

/// Writes the comment at the beginning.
pub(crate) fn put_title<K: Sink>(sink: &mut K, remarks: &Remarks) -> Result<(), Failed>
    ensures { Writes (K.seen sink.old) (K.seen sink.new) result (title_text remarks.now) }
{
    put_all(sink, b"/* ")?;
    put_origin(sink, &remarks.origin)?;
    put_modes(sink, remarks)?;
    put_words(sink, &remarks.format)
}

/// Writes a range.
fn put_range<K: Sink>(sink: &mut K, low: &i64, high: &i64) -> Result<(), Failed>
    ensures { Writes (K.seen sink.old) (K.seen sink.new) result (range_text low.now high.now) }
{
    put_fragments(
        sink,
        &[
            Fragment::Number((*low).into()),
            Fragment::Bytes(b" to "),
            Fragment::Number((*high).into()),
        ],
    )
}

/// Writes the range of all words.
fn put_word_range<K: Sink>(sink: &mut K, format: &Format) -> Result<(), Failed>
    ensures { Writes (K.seen sink.old) (K.seen sink.new) result
        (range_text (lo (width format.now)) (hi (width format.now))) }
{
    let low = Fragment::Number(low_of(format));
    let high = Fragment::Number(high_of(format));
    put_fragments(sink, &[low, Fragment::Bytes(b" to "), high])
}

/// Writes the comment before the step function.
pub(crate) fn put_step_remark<K: Sink>(sink: &mut K, remarks: &Remarks) -> Result<(), Failed>
    ensures { Writes (K.seen sink.old) (K.seen sink.new) result (step_remark remarks.now) }
{
    put_all(sink, b"/* y(n) of the input x(n), which is a word: ")?;
    put_word_range(sink, &remarks.format)?;
    put_all(sink, b".\n   Verdicts speak of inputs from ")?;
    put_range(sink, &remarks.low, &remarks.high)?;
    put_all(sink, b". */\n")
}
