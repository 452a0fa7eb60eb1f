// Writing the text of an ellipsoid.
ghost use Rattle.std.specs.Prelude.{◌++◌, OnOk};
ghost use Rattle.std.specs.Fmt.{signed_decimal};
ghost use Rattle.std.specs.List.{flat_map};
ghost use Rattle.dsv_base.specs.Taking.{Writes};
ghost use Rattle.dsv_base.specs.Text.{spaced_text};
ghost use Rattle.dsv_lines.specs.Texts.{line_text, piece_text};
ghost use Rattle.dsv_certfile.specs.Ellipsoids.{states_line, levels_line, first_line};
ghost use Rattle.dsv_certfile.specs.Ellipsoids.{first_lines, ellipsoid_body, ellipsoid_text};
ghost use Rattle.dsv_certfile.specs.Keywords.{keyword_text};
ghost use Rattle.dsv_certfile.specs.Typed.{IsTypedFactor, AreTypedLevels, IsTypedFirst};
ghost use Rattle.dsv_certfile.specs.Typed.{AreTypedRows, IsTypedMatrix, IsTypedEllipsoid};

use crate::ellipsoid::Ellipsoid;
use crate::keyword::Keyword;
use crate::output::{put_entry, put_piece, put_rows, put_word};
use crate::writer::{put_factor, put_squares, put_squares_body};
use dsv_base::{Failed, Sink, put_all, put_line, put_spaced};

/// Writes the line of the states.
fn put_states<K: Sink>(sink: &mut K, states: u32) -> Result<(), Failed>
    ensures { Writes (K.seen sink.old) (K.seen sink.new) result (line_text (states_line states)) }
{
    put_line(sink, b"states", &[states])
}

/// Writes a word and a number, a space before each.
fn put_term<K: Sink>(sink: &mut K, word: Keyword, number: &i128) -> Result<(), Failed>
    ensures text { Writes (K.seen sink.old) (K.seen sink.new) result
        (spaced_text piece_text (keyword_text word) ++ spaced_text signed_decimal number.now) }
    ensures typed { OnOk result (IsTypedFactor number.now) }
{
    put_piece(sink, word.text())?;
    put_factor(sink, number)
}

/// Writes the line of the level.
fn put_levels<K: Sink>(sink: &mut K, offer: &Ellipsoid) -> Result<(), Failed>
    ensures text { Writes (K.seen sink.old) (K.seen sink.new) result
        (line_text (levels_line offer.now)) }
    ensures typed { OnOk result (AreTypedLevels offer.now) }
{
    put_all(sink, Keyword::Level.text())?;
    put_factor(sink, &offer.level)?;
    put_term(sink, Keyword::Lambda, &offer.lambda)?;
    put_term(sink, Keyword::Mu, &offer.mu)?;
    put_all(sink, b"\n")
}

/// Writes the numbers of the first form before those of its squares, a space before each.
fn put_first_numbers<K: Sink>(sink: &mut K, offer: &Ellipsoid) -> Result<(), Failed>
    ensures text { Writes (K.seen sink.old) (K.seen sink.new) result
        (spaced_text signed_decimal offer.now.kappa ++ (spaced_text signed_decimal offer.now.nu
        ++ spaced_text signed_decimal offer.now.bound)) }
    ensures typed { OnOk result (IsTypedFactor offer.now.kappa × IsTypedFactor offer.now.nu) }
{
    put_factor(sink, &offer.kappa)?;
    put_factor(sink, &offer.nu)?;
    put_entry(sink, &offer.bound)
}

/// Writes the line of the first form.
fn put_first_line<K: Sink>(sink: &mut K, offer: &Ellipsoid) -> Result<(), Failed>
    ensures text { Writes (K.seen sink.old) (K.seen sink.new) result
        (line_text (first_line offer.now)) }
    ensures typed { OnOk result (IsTypedFirst offer.now) }
{
    put_all(sink, Keyword::First.text())?;
    put_first_numbers(sink, offer)?;
    put_factor(sink, &offer.first.m)?;
    put_spaced(sink, offer.first.count)?;
    put_all(sink, b"\n")
}

/// Writes the line of the first form, its squares, and the rest.
fn put_first<K: Sink>(sink: &mut K, offer: &Ellipsoid) -> Result<(), Failed>
    ensures text { Writes (K.seen sink.old) (K.seen sink.new) result
        (flat_map line_text (first_lines offer.now)) }
    ensures typed { OnOk result (IsTypedFirst offer.now × AreTypedRows offer.now.first
        × IsTypedMatrix offer.now.form.d offer.now.first.rest) }
{
    put_first_line(sink, offer)?;
    put_squares_body(sink, offer.form.d as usize, &offer.first)
}

/// Writes what follows the line of the states, but for the last line.
fn put_body<K: Sink>(sink: &mut K, offer: &Ellipsoid) -> Result<(), Failed>
    ensures text { Writes (K.seen sink.old) (K.seen sink.new) result
        (flat_map line_text (ellipsoid_body offer.now)) }
    ensures typed { OnOk result (IsTypedEllipsoid offer.now) }
{
    let d = offer.form.d as usize;
    put_rows(sink, Keyword::Form, d, &offer.form.rows)?;
    put_levels(sink, offer)?;
    put_squares(sink, Keyword::Step, d + 1, &offer.step)?;
    put_first(sink, offer)
}

/// Writes the text of an ellipsoid. It takes no memory; where the sink fails, it took a prefix.
pub fn write_ellipsoid<K: Sink>(sink: &mut K, offer: &Ellipsoid) -> Result<(), Failed>
    ensures text { Writes (K.seen sink.old) (K.seen sink.new) result (ellipsoid_text offer.now) }
    ensures typed { OnOk result (IsTypedEllipsoid offer.now) }
{
    put_all(sink, b"dsv-ellipsoid 1\n")?;
    put_states(sink, offer.form.d)?;
    put_body(sink, offer)?;
    put_word(sink, Keyword::End)
}
