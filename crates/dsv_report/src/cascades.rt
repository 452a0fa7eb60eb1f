// Writes what is found of a cascade's sections, with no memory.
ghost use Rattle.std.specs.Prelude.{◌≡◌, map};
ghost use Rattle.std.specs.List.{All};
ghost use Rattle.dsv_base.specs.Taking.{Writes};
ghost use Rattle.dsv_cascade.specs.Sections.{place_of};
ghost use Rattle.dsv_report.specs.CascadeTexts.{section_line, section_text, cause_text};
ghost use Rattle.dsv_report.specs.CascadeTexts.{wide_text, no_closed_form_text, fault_text};
ghost use Rattle.dsv_report.specs.CascadeTexts.{forms_text};
ghost use Rattle.dsv_report.specs.CascadeTexts.{cascade_code, cascade_refusal_text};
ghost use Rattle.dsv_report.specs.CascadeTexts.{sections_text, section_table_text};
ghost use Rattle.dsv_report.specs.CascadeTexts.{section_tables_text};
ghost use Rattle.dsv_report.specs.Lines.{numbered_lines};
ghost use Rattle.dsv_report.specs.Printing.{SectionHasPlaces, FaultHasPlaces, FormsHavePlaces};

use crate::forms::{put_form, put_kept_away};
use crate::lines::{put_number_line, put_numbered};
use crate::tables::put_table;
use dsv_base::{Failed, Sink};
use dsv_cascade::{CascadeForms, CascadeRefusal, SectionFault, SectionOffer};
use dsv_command::SectionNames;
use dsv_poly_table::SectionTables;
use dsv_table::TableFinding;

/// Writes how many sections there are: one before these later ones.
pub(crate) fn put_section_count<K: Sink>(sink: &mut K, later: &SectionNames) -> Result<(), Failed>
    ensures { Writes (K.seen sink.old) (K.seen sink.new) result
        (sections_text (map (λ name. name.now) later.now.items)) }
{
    put_numbered(sink, b" sections ", later.len() as u64 + 1)
}

/// Writes the section that what follows is said of.
pub(crate) fn put_section<K: Sink>(sink: &mut K, section: u64) -> Result<(), Failed>
    ensures { Writes (K.seen sink.old) (K.seen sink.new) result (section_line section) }
{
    put_number_line(sink, b"section ", section)
}

/// Writes the section of this number.
fn put_section_of<K: Sink>(sink: &mut K, section: u32) -> Result<(), Failed>
    ensures { Writes (K.seen sink.old) (K.seen sink.new) result (section_line section) }
{
    put_section(sink, u64::from(section))
}

/// Writes what shows a section to be stable.
fn put_offer<K: Sink>(sink: &mut K, section: u64, offer: &SectionOffer) -> Result<(), Failed>
    requires { SectionHasPlaces offer.now }
    ensures { Writes (K.seen sink.old) (K.seen sink.new) result (section_text section offer.now) }
{
    put_section(sink, section)?;
    put_form(sink, &offer.poly, &offer.offer.form, &offer.fall)
}

/// Writes what shows each section to be stable.
fn put_offers<K: Sink>(sink: &mut K, offers: &[SectionOffer]) -> Result<(), Failed>
    requires { All SectionHasPlaces offers.now }
    ensures { Writes (K.seen sink.old) (K.seen sink.new) result
        (numbered_lines section_text 0 offers.now) }
{
    for (section, offer) in offers.iter().enumerate() {
        put_offer(sink, section as u64, offer)?;
    }
    Ok(())
}

/// Writes why a section isn't decided.
fn put_undecided<K: Sink>(sink: &mut K, word: &[u8], section: u64, index: u64) -> Result<(), Failed>
    ensures { Writes (K.seen sink.old) (K.seen sink.new) result
        (cause_text word.now section index) }
{
    put_numbered(sink, word, section)?;
    put_number_line(sink, b" index ", index)
}

/// Writes that a number on the way to a section's polynomial is too wide.
fn put_wide_section<K: Sink>(sink: &mut K, section: u64, index: u64) -> Result<(), Failed>
    ensures { Writes (K.seen sink.old) (K.seen sink.new) result (wide_text section index) }
{
    put_undecided(sink, b"cause WIDE section ", section, index)
}

/// Writes that a section's polynomial has no closed form.
fn put_no_closed_form<K: Sink>(sink: &mut K, section: u64, index: u64) -> Result<(), Failed>
    ensures { Writes (K.seen sink.old) (K.seen sink.new) result
        (no_closed_form_text section index) }
{
    put_undecided(sink, b"cause NO_CLOSED_FORM section ", section, index)
}

/// Writes why closed forms don't show the section of this number to be stable.
fn put_fault<K: Sink>(sink: &mut K, section: u32, fault: &SectionFault) -> Result<(), Failed>
    requires { FaultHasPlaces fault.now }
    ensures { Writes (K.seen sink.old) (K.seen sink.new) result (fault_text section fault.now) }
{
    match fault {
        SectionFault::KeptAway {
            poly,
            offer,
            fall,
            value,
        } => {
            put_section_of(sink, section)?;
            put_kept_away(sink, poly, offer, fall, value)
        }
        SectionFault::Wide { index } => put_wide_section(
            sink,
            u64::from(section),
            u64::from(*index),
        ),
        SectionFault::NoClosedForm { index } => {
            put_no_closed_form(sink, u64::from(section), u64::from(*index))
        }
    }
}

/// Writes what closed forms say of a cascade's sections.
pub(crate) fn put_forms<K: Sink>(sink: &mut K, found: &CascadeForms) -> Result<(), Failed>
    requires { FormsHavePlaces found.now }
    ensures { Writes (K.seen sink.old) (K.seen sink.new) result (forms_text found.now) }
{
    match found {
        CascadeForms::Falls(offers) => put_offers(sink, offers.as_slice()),
        CascadeForms::NotAll { section, fault } => put_fault(sink, *section, fault),
    }
}

/// Writes what the table of a section says.
fn put_section_table<K: Sink>(
    sink: &mut K,
    section: u64,
    found: &TableFinding,
) -> Result<(), Failed>
    ensures { Writes (K.seen sink.old) (K.seen sink.new) result
        (section_table_text section found.now) }
{
    put_section(sink, section)?;
    put_table(sink, found)
}

/// Writes what the table of each section says.
fn put_findings<K: Sink>(sink: &mut K, findings: &[TableFinding]) -> Result<(), Failed>
    ensures { Writes (K.seen sink.old) (K.seen sink.new) result
        (numbered_lines section_table_text 0 findings.now) }
{
    for (section, found) in findings.iter().enumerate() {
        put_section_table(sink, section as u64, found)?;
    }
    Ok(())
}

/// Writes what tables say of a cascade's sections.
pub(crate) fn put_section_tables<K: Sink>(sink: &mut K, found: &SectionTables) -> Result<(), Failed>
    ensures { Writes (K.seen sink.old) (K.seen sink.new) result (section_tables_text found.now) }
{
    match found {
        SectionTables::Inside(findings) => put_findings(sink, findings.as_slice()),
        SectionTables::NotInside { section, found } => {
            put_section_table(sink, *section as u64, found)
        }
        SectionTables::Wide { section, index } => {
            put_wide_section(sink, *section as u64, u64::from(*index))
        }
    }
}

/// The code and the name of a refusal.
#[tactic(auto, unfolding(crate::specs::CascadeTexts::cascade_code))]
fn cascade_code(refusal: CascadeRefusal) -> &'static [u8]
    ensures { result.now ≡ cascade_code refusal }
{
    match refusal {
        CascadeRefusal::Order { .. } => b"CASCADE REFUSED 31 ORDER ",
        CascadeRefusal::Mixed { .. } => b"CASCADE REFUSED 32 MIXED ",
    }
}

/// The section that a refusal names.
fn place_of(refusal: CascadeRefusal) -> u32
    ensures { result ≡ place_of refusal }
{
    match refusal {
        CascadeRefusal::Order { section } | CascadeRefusal::Mixed { section } => section,
    }
}

/// Writes why sections make no cascade.
pub(crate) fn put_cascade_refusal<K: Sink>(
    sink: &mut K,
    refusal: CascadeRefusal,
) -> Result<(), Failed>
    ensures { Writes (K.seen sink.old) (K.seen sink.new) result (cascade_refusal_text refusal) }
{
    put_number_line(sink, cascade_code(refusal), u64::from(place_of(refusal)))
}
