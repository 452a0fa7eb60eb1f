// Writes what is found of ellipsoids, and why one is refused, with no memory.
ghost use Rattle.std.specs.Prelude.{◌≡◌, ◌≤◌};
ghost use Rattle.dsv_base.specs.Taking.{Writes};
ghost use Rattle.dsv_report.specs.EllipsoidTexts.{level_text};
ghost use Rattle.dsv_report.specs.EllipsoidTexts.{in_ellipsoid_text, no_offer_text};
ghost use Rattle.dsv_report.specs.EllipsoidTexts.{offer_refused, offer_fault_text};
ghost use Rattle.dsv_report.specs.EllipsoidTexts.{ellipsoid_code, ellipsoid_refusal_text};

use crate::certificates::fault_name;
use crate::forms::put_rows;
use crate::fragments::{Fragment, put_fragments};
use crate::stop::CertificateFault;
use dsv_base::{Failed, Sink, put_all};
use dsv_certfile::{Ellipsoid, TextFault};
use dsv_ellipsoid::EllipsoidRefusal;

// ---- ellipsoids

/// Writes the level, and the greatest size of an output.
fn put_level<K: Sink>(sink: &mut K, offer: &Ellipsoid) -> Result<(), Failed>
    ensures { Writes (K.seen sink.old) (K.seen sink.new) result (level_text offer.now) }
{
    put_fragments(
        sink,
        &[
            Fragment::Bytes(b"ellipsoid level "),
            Fragment::Number(offer.level),
            Fragment::Bytes(b" bound "),
            Fragment::Number(offer.bound.into()),
            Fragment::Bytes(b"\n"),
        ],
    )
}

/// Writes the level, the bound and the form.
pub(crate) fn put_in_ellipsoid<K: Sink>(sink: &mut K, offer: &Ellipsoid) -> Result<(), Failed>
    requires { offer.now.form.d ≤ 8 }
    ensures { Writes (K.seen sink.old) (K.seen sink.new) result (in_ellipsoid_text offer.now) }
{
    put_level(sink, offer)?;
    put_rows(sink, b"form", &offer.form)
}

/// Writes that no ellipsoid was found.
pub(crate) fn put_no_offer_cause<K: Sink>(sink: &mut K) -> Result<(), Failed>
    ensures { Writes (K.seen sink.old) (K.seen sink.new) result no_offer_text }
{
    put_all(sink, b"cause NO_OFFER\n")
}

// ---- refusals

/// What the refusal of a text begins with.
#[tactic(auto, unfolding(crate::specs::EllipsoidTexts::offer_refused))]
fn offer_heading() -> &'static [u8]
    ensures { result.now ≡ offer_refused }
{
    b"ELLIPSOID REFUSED line "
}

/// Writes the first fault of a text that offers no ellipsoid.
pub(crate) fn put_offer_fault<K: Sink>(
    sink: &mut K,
    line: u64,
    fault: TextFault,
) -> Result<(), Failed>
    ensures { Writes (K.seen sink.old) (K.seen sink.new) result (offer_fault_text line fault) }
{
    put_fragments(
        sink,
        &[
            Fragment::Bytes(offer_heading()),
            Fragment::Number(line.into()),
            Fragment::Bytes(fault_name(CertificateFault::Text(fault))),
        ],
    )
}

/// The code and the name of a refusal of the check.
#[tactic(auto, unfolding(crate::specs::EllipsoidTexts::ellipsoid_code))]
fn ellipsoid_code(refusal: &EllipsoidRefusal) -> &'static [u8]
    ensures { result.now ≡ ellipsoid_code refusal.now }
{
    match refusal {
        EllipsoidRefusal::Shape => b"ELLIPSOID REFUSED 51 SHAPE",
        EllipsoidRefusal::Sign { .. } => b"ELLIPSOID REFUSED 52 SIGN",
        EllipsoidRefusal::Wide { .. } => b"ELLIPSOID REFUSED 53 WIDE",
        EllipsoidRefusal::Level => b"ELLIPSOID REFUSED 54 LEVEL",
        EllipsoidRefusal::Step(_) => b"ELLIPSOID REFUSED 55 STEP",
        EllipsoidRefusal::First(_) => b"ELLIPSOID REFUSED 56 FIRST",
        EllipsoidRefusal::Bound => b"ELLIPSOID REFUSED 57 BOUND",
        EllipsoidRefusal::Interval { .. } => b"ELLIPSOID REFUSED 58 INTERVAL",
    }
}

/// Writes the first test that refuses an ellipsoid, with its numbers.
pub(crate) fn put_ellipsoid_refusal<K: Sink>(
    sink: &mut K,
    refusal: &EllipsoidRefusal,
) -> Result<(), Failed>
    ensures { Writes (K.seen sink.old) (K.seen sink.new) result
        (ellipsoid_refusal_text refusal.now) }
{
    let code = Fragment::Bytes(ellipsoid_code(refusal));
    let space = Fragment::Bytes(b" ");
    let end = Fragment::Bytes(b"\n");
    match refusal {
        EllipsoidRefusal::Sign { place } | EllipsoidRefusal::Wide { place } => {
            put_fragments(sink, &[code, space, Fragment::Number((*place).into()), end])
        }
        EllipsoidRefusal::Interval { value, low, high } => {
            let value = Fragment::Number((*value).into());
            let (low, high) = (Fragment::Number(*low), Fragment::Number(*high));
            put_fragments(sink, &[code, space, value, space, low, space, high, end])
        }
        _ => put_fragments(sink, &[code, end]),
    }
}
