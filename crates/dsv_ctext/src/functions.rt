// The helper functions.
#![tactic(auto, using(dsv_algebra::proofs::Casts::casts))]

ghost use Rattle.std.specs.Prelude.{◌≡◌, ◌≤◌, ◌<◌, ◌^◌, ◌-◌, pos, []};
ghost use Rattle.dsv_base.specs.Taking.{Writes};
ghost use Rattle.dsv_word.specs.Words.{width, lo, hi};
ghost use Rattle.dsv_names.specs.declared.overflow_mode.OverflowMode.TheVariants as overflow_mode;
ghost use Rattle.dsv_c.specs.Programs.{word_type, addend_code, floor_code, fitted_value};
ghost use Rattle.dsv_c.specs.Programs.{rounded_code, fitted_code};
ghost use Rattle.dsv_c.specs.Syntax.{Rounded, Fitted, Cast, Local};
ghost use Rattle.dsv_ctext.specs.HelperTexts.{function_head, helper_local_line, function_tail};
ghost use Rattle.dsv_ctext.specs.HelperTexts.{function_text};
ghost use Rattle.dsv_ctext.specs.HelperTexts.{cast_start, wrap_start, wrap_end, low_part};
ghost use Rattle.dsv_ctext.specs.HelperTexts.{high_part};

use crate::fragments::{Fragment, put_fragments};
use crate::names::{fitted_head, rounded_head, type_name};
use crate::types::word_type;
use dsv_base::{Failed, Sink};
use dsv_c::CType;
use dsv_names::{OverflowMode, Rounding};
use dsv_word::Format;

/// Two to that power.
#[tactic(auto, using(crate::proofs::Powers::power_small))]
fn power(bits: u32) -> i128
    requires { bits ≤ 48 }
    ensures value { result ≡ pos (2 ^ bits) }
{
    1i128 << bits
}

/// Two to that power, less 1.
#[tactic(auto, using(crate::proofs::Powers::power_small, crate::proofs::Powers::less_one))]
fn mask(bits: u32) -> i128
    requires { bits ≤ 48 }
    ensures { result ≡ pos (2 ^ bits - 1) }
{
    power(bits) - 1
}

/// Writes the beginning of the function that rounds.
fn put_rounded_start<K: Sink>(sink: &mut K, c_type: CType) -> Result<(), Failed>
    ensures { Writes (K.seen sink.old) (K.seen sink.new) result
        (function_head (Rounded c_type)
        (record { parameter = c_type; locals = []; value = Local 0; result = c_type })) }
{
    let name = Fragment::Bytes(type_name(c_type));
    let head = Fragment::Bytes(rounded_head(c_type));
    put_fragments(
        sink,
        &[
            Fragment::Bytes(b"static "),
            name,
            Fragment::Bytes(b" "),
            head,
            name,
            Fragment::Bytes(b" v)\n{\n"),
        ],
    )
}

/// Writes the local of the function that rounds.
fn put_addend<K: Sink>(sink: &mut K, format: &Format, c_type: CType) -> Result<(), Failed>
    ensures { Writes (K.seen sink.old) (K.seen sink.new) result
        (helper_local_line
        (record { type = c_type; value = addend_code format.now.rounding format.now.frac_bits })) }
{
    let start = Fragment::Bytes(b"    const ");
    let name = Fragment::Bytes(type_name(c_type));
    let bits = format.frac_bits;
    match format.rounding {
        Rounding::Floor => put_fragments(sink, &[start, name, Fragment::Bytes(b" t = v;\n")]),
        Rounding::Ceil => put_fragments(
            sink,
            &[
                start,
                name,
                Fragment::Bytes(b" t = v + "),
                Fragment::Number(mask(bits)),
                Fragment::Bytes(b";\n"),
            ],
        ),
        Rounding::Nearest => {
            if bits == 0 {
                put_fragments(sink, &[start, name, Fragment::Bytes(b" t = v;\n")])
            } else {
                put_fragments(
                    sink,
                    &[
                        start,
                        name,
                        Fragment::Bytes(b" t = v + "),
                        Fragment::Number(power(bits - 1)),
                        Fragment::Bytes(b";\n"),
                    ],
                )
            }
        }
    }
}

/// Writes the end of the function that rounds.
fn put_floor<K: Sink>(sink: &mut K, bits: u32) -> Result<(), Failed>
    requires { bits ≤ 48 }
    ensures { Writes (K.seen sink.old) (K.seen sink.new) result
        (function_tail (floor_code 1 bits)) }
{
    put_fragments(
        sink,
        &[
            Fragment::Bytes(b"    return (t - (t & "),
            Fragment::Number(mask(bits)),
            Fragment::Bytes(b")) / "),
            Fragment::Number(power(bits)),
            Fragment::Bytes(b";\n}\n\n"),
        ],
    )
}

/// Writes the function that divides by 2 to the number of bits after the point, and makes whole.
pub(crate) fn put_rounded<K: Sink>(
    sink: &mut K,
    format: &Format,
    c_type: CType,
) -> Result<(), Failed>
    ensures { Writes (K.seen sink.old) (K.seen sink.new) result
        (function_text
        (record { name = Rounded c_type; function = rounded_code format.now c_type })) }
{
    let bits = format.frac_bits;
    put_rounded_start(sink, c_type)?;
    put_addend(sink, format, c_type)?;
    put_floor(sink, bits)
}

/// The least word.
pub(crate) fn low_of(format: &Format) -> i128
    ensures { result ≡ lo (width format.now) }
{
    i128::from(format.lo())
}

/// The greatest word.
pub(crate) fn high_of(format: &Format) -> i128
    ensures { result ≡ hi (width format.now) }
{
    i128::from(format.hi())
}

/// Writes the beginning of the function that gives a word.
fn put_fitted_start<K: Sink>(sink: &mut K, word: CType, c_type: CType) -> Result<(), Failed>
    ensures { Writes (K.seen sink.old) (K.seen sink.new) result
        (function_head (Fitted c_type)
        (record { parameter = c_type; locals = []; value = Local 0; result = word })) }
{
    let parameter = Fragment::Bytes(type_name(c_type));
    let name = Fragment::Bytes(type_name(word));
    let head = Fragment::Bytes(fitted_head(c_type));
    put_fragments(
        sink,
        &[
            Fragment::Bytes(b"static "),
            name,
            Fragment::Bytes(b" "),
            head,
            parameter,
            Fragment::Bytes(b" v)\n{\n"),
        ],
    )
}

/// Writes a result's cast.
fn put_cast_start<K: Sink>(sink: &mut K, word: CType) -> Result<(), Failed>
    ensures { Writes (K.seen sink.old) (K.seen sink.new) result (cast_start word) }
{
    put_fragments(
        sink,
        &[
            Fragment::Bytes(b"    return ("),
            Fragment::Bytes(type_name(word)),
            Fragment::Bytes(b")"),
        ],
    )
}

/// Writes the first part of a word that wraps.
fn put_wrap_start<K: Sink>(sink: &mut K, bits: u32) -> Result<(), Failed>
    requires { bits ≤ 48 }
    ensures { Writes (K.seen sink.old) (K.seen sink.new) result (wrap_start bits) }
{
    put_fragments(
        sink,
        &[
            Fragment::Bytes(b"(((v & "),
            Fragment::Number(mask(bits)),
            Fragment::Bytes(b") ^ "),
        ],
    )
}

/// Writes the second part of a word that wraps.
fn put_wrap_end<K: Sink>(sink: &mut K, bits: u32) -> Result<(), Failed>
    requires least { 1 ≤ bits }
    requires most { bits ≤ 48 }
    ensures { Writes (K.seen sink.old) (K.seen sink.new) result (wrap_end bits) }
{
    let half = Fragment::Number(power(bits - 1));
    put_fragments(
        sink,
        &[
            half,
            Fragment::Bytes(b") - "),
            half,
            Fragment::Bytes(b");\n}\n\n"),
        ],
    )
}

/// Writes the end of the function that wraps.
fn put_wrap<K: Sink>(sink: &mut K, word: CType, bits: u32) -> Result<(), Failed>
    requires least { 1 ≤ bits }
    requires most { bits ≤ 48 }
    ensures { Writes (K.seen sink.old) (K.seen sink.new) result
        (function_tail (Cast word (fitted_value overflow_mode.Wrap bits))) }
{
    put_cast_start(sink, word)?;
    put_wrap_start(sink, bits)?;
    put_wrap_end(sink, bits)
}

/// Writes the first part of a word that saturates.
fn put_low<K: Sink>(sink: &mut K, format: &Format) -> Result<(), Failed>
    ensures { Writes (K.seen sink.old) (K.seen sink.new) result
        (low_part (lo (width format.now))) }
{
    let low = Fragment::Number(low_of(format));
    put_fragments(
        sink,
        &[
            Fragment::Bytes(b"(v < "),
            low,
            Fragment::Bytes(b" ? "),
            low,
            Fragment::Bytes(b" : ("),
        ],
    )
}

/// Writes the second part of a word that saturates.
fn put_high<K: Sink>(sink: &mut K, format: &Format) -> Result<(), Failed>
    ensures { Writes (K.seen sink.old) (K.seen sink.new) result
        (high_part (hi (width format.now))) }
{
    let high = Fragment::Number(high_of(format));
    put_fragments(
        sink,
        &[
            high,
            Fragment::Bytes(b" < v ? "),
            high,
            Fragment::Bytes(b" : v));\n}\n\n"),
        ],
    )
}

/// Writes the end of the function that saturates.
fn put_saturate<K: Sink>(sink: &mut K, word: CType, format: &Format) -> Result<(), Failed>
    ensures { Writes (K.seen sink.old) (K.seen sink.new) result
        (function_tail (Cast word (fitted_value overflow_mode.Saturate (width format.now)))) }
{
    put_cast_start(sink, word)?;
    put_low(sink, format)?;
    put_high(sink, format)
}

/// Writes the end of the function that gives a word.
fn put_fit<K: Sink>(sink: &mut K, format: &Format, word: CType) -> Result<(), Failed>
    ensures { Writes (K.seen sink.old) (K.seen sink.new) result
        (function_tail (Cast word (fitted_value format.now.overflow (width format.now)))) }
{
    let bits = format.width();
    match format.overflow {
        OverflowMode::Wrap => put_wrap(sink, word, bits),
        OverflowMode::Saturate => put_saturate(sink, word, format),
    }
}

/// Writes the function that gives a word.
pub(crate) fn put_fitted<K: Sink>(
    sink: &mut K,
    format: &Format,
    c_type: CType,
) -> Result<(), Failed>
    ensures { Writes (K.seen sink.old) (K.seen sink.new) result
        (function_text
        (record { name = Fitted c_type; function = fitted_code format.now c_type })) }
{
    let word = word_type(format);
    put_fitted_start(sink, word, c_type)?;
    put_fit(sink, format, word)
}
