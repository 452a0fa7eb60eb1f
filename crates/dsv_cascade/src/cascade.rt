// Cascades of sections.
ghost use Rattle.std.specs.Prelude.{◌≡◌, ◌<◌, ◌∷◌, ◌↔◌, true, length};
ghost use Rattle.std.specs.Prelude.{IfOk, IfErr, IfSome, IfNone};
ghost use Rattle.std.specs.List.{All};
ghost use Rattle.dsv_cascade.specs.Sections.{most_sections, place_of, IsAlike, Fits, IsCascade};
ghost use Rattle.dsv_cascade.specs.Sections.{IsMisfit, IsRefused};
ghost use Rattle.dsv_cascade.specs.Cascades.{sections_of};

use dsv_base::NoMemory;
use dsv_names::Realisation;
use dsv_quantiser::Quantised;
use dsv_word::Format;
use std::marker::Model;

/// The most sections of a cascade.
pub const MOST_SECTIONS: usize = 8;

/// The greatest order of a section.
const MOST_SECTION_ORDER: usize = 2;

/// Why sections make no cascade. Sections count from 0.
#[derive(Clone, Copy, Debug, PartialEq, Eq)]
pub enum CascadeRefusal {
    /// This section is of an order over 2.
    Order { section: u32 },
    /// This section's format, realisation or accumulator isn't that of section 0.
    Mixed { section: u32 },
}

/// Sections in series, one to `MOST_SECTIONS`: each gets the output of the one before it as its
/// input. They are of order 0 to 2, and share format, realisation and accumulator.
#[derive(Drop)]
pub struct Cascade {
    first: Quantised,
    later: Vec<Quantised>,
}

impl Model for Cascade {
    ghost use Rattle.dsv_cascade.specs.Cascades.{CascadeView};
    ghost use Rattle.dsv_cascade.specs.Sections.{IsCascade};

    ghost Value = { CascadeView };

    ghost view = { λ c. record { first = c.first; later = c.later.items } };

    ghost invariant = { λ c. IsCascade (record { first = c.first; later = c.later.items }) };
}

/// Whether the formats are the same.
fn have_one_format(first: Format, second: Format) -> bool
    ensures { (result ≡ true) ↔ (second ≡ first) }
{
    second == first
}

/// Whether the realisations are the same.
fn have_one_realisation(first: Realisation, second: Realisation) -> bool
    ensures { (result ≡ true) ↔ (second ≡ first) }
{
    second == first
}

/// Whether a section has the format, the realisation and the accumulator of another.
fn is_alike(first: &Quantised, section: &Quantised) -> bool
    ensures { (result ≡ true) ↔ IsAlike first.now section.now }
{
    have_one_format(first.format(), section.format())
        && have_one_realisation(first.realisation(), section.realisation())
        && section.is_wide() == first.is_wide()
}

/// Why this section can't stand at this place after section 0, if it can't.
fn section_refusal(first: &Quantised, section: &Quantised, place: u32) -> Option<CascadeRefusal>
    ensures fits { IfNone result (Fits first.now section.now) }
    ensures misfit { IfSome result (IsMisfit first.now section.now) }
    ensures place { IfSome result (λ why. place_of why ≡ place) }
{
    if section.order() > MOST_SECTION_ORDER {
        Some(CascadeRefusal::Order { section: place })
    } else if !is_alike(first, section) {
        Some(CascadeRefusal::Mixed { section: place })
    } else {
        None
    }
}

/// Why these sections can't stand after section 0, if they can't.
fn later_refusal(first: &Quantised, later: &[Quantised]) -> Option<CascadeRefusal>
    requires few { length later.now < most_sections }
    requires first { Fits first.now first.now }
    ensures fit { IfNone result (All (Fits first.now) (first.now ∷ later.now)) }
    ensures refused { IfSome result (IsRefused first.now (first.now ∷ later.now)) }
{
    for i in 0..later.len() {
        if let Some(refusal) = section_refusal(first, &later[i], i as u32 + 1) {
            return Some(refusal);
        }
    }
    None
}

impl Cascade {
    /// The cascade of section 0 and at most seven sections after it. It takes no memory.
    ///
    /// # Errors
    ///
    /// At the first section that doesn't fit: `Order` where its order is over 2, and else `Mixed`,
    /// where it isn't alike to section 0.
    pub fn new(first: Quantised, later: Vec<Quantised>) -> Result<Cascade, CascadeRefusal>
        requires few { length later.items < most_sections }
        ensures same { IfOk result
            (λ cascade. cascade ≡ record { first = first; later = later.items }) }
        ensures fit { IfOk result (λ cascade. All (Fits first) (first ∷ later.items)) }
        ensures refused { IfErr result (IsRefused first (first ∷ later.items)) }
    {
        if let Some(refusal) = section_refusal(&first, &first, 0) {
            return Err(refusal);
        }
        if let Some(refusal) = later_refusal(&first, later.as_slice()) {
            return Err(refusal);
        }
        Ok(Cascade { first, later })
    }

    /// The sections in one list, section 0 first. It takes memory for one section, and fails only
    /// for want of that.
    pub fn into_sections(self) -> Result<Vec<Quantised>, NoMemory>
        ensures { IfOk result (λ sections. sections.items ≡ sections_of self) }
    {
        let mut sections = self.later;
        sections.insert(0, self.first)?;
        Ok(sections)
    }

    /// Section 0, whose format is the cascade's and whose inputs are its inputs.
    pub fn first_section(&self) -> &Quantised
        ensures same { result.now ≡ self.now.first }
        ensures cascade { IsCascade self.now }
    {
        &self.first
    }

    /// The sections after section 0.
    pub fn later_sections(&self) -> &[Quantised]
        ensures same { result.now ≡ self.now.later }
        ensures cascade { IsCascade self.now }
    {
        self.later.as_slice()
    }
}
