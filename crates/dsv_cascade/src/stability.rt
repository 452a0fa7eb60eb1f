// The poles of a cascade's sections, judged by closed forms.
ghost use Rattle.std.specs.Prelude.{◌≡◌, ◌+◌, ◌≤◌, [], ◌∷◌, pos, nat_lt, length};
ghost use Rattle.std.specs.Prelude.{Some, None, Err, IfOk, IfErr, IfSome, IfNone};
ghost use Rattle.std.specs.List.{All};
ghost use Rattle.std.specs.Int.RustNames.{unsigned_abs};
ghost use Rattle.dsv_meaning.specs.Equations.{order};
ghost use Rattle.dsv_closed_forms.specs.ClosedForm.{closed_form_of, second_limit};
ghost use Rattle.dsv_forms.specs.declared.offers.FormOffer.TheVariants as offered;
ghost use Rattle.dsv_lyapunov.specs.Answers.{offer_in, IsStable, IsShown};
ghost use Rattle.dsv_tested.specs.Tested.{tested_of};
ghost use Rattle.dsv_tested.specs.declared.side.Side.TheVariants.{Denominator};
ghost use Rattle.dsv_cascade.specs.Cascades.{sections_of};
ghost use Rattle.dsv_cascade.specs.Sections.{most_section_order};
ghost use Rattle.dsv_cascade.specs.Stability.{HasPoly, HasFault, IsStableSection};
ghost use Rattle.dsv_cascade.specs.Stability.{IsFirstOver, AreJudged};

use crate::cascade::{Cascade, MOST_SECTIONS};
use arrayvec::ArrayVec;
use dsv_closed_forms::closed_form;
use dsv_delta::PolyWide;
use dsv_forms::{Falls, Form, FormOffer, KeptAway, Poly};
use dsv_lyapunov::{CheckedForm, accepted_form};
use dsv_quantiser::Quantised;
use dsv_tested::{Side, Tested, polynomial_of};
use std::marker::Model;

/// The greatest size of a number at which a polynomial of order 2 has a closed form.
const SECOND_LIMIT: u64 = 1 << 23;

/// What shows a section to be stable: the polynomial whose roots are its poles, the closed form
/// that strictly falls along each of its trajectories, and what this loses in a step.
#[derive(Drop)]
pub struct SectionOffer {
    pub poly: Poly,
    pub offer: Falls,
    pub fall: Form,
}

/// What shows each section to be stable, section 0 first.
#[derive(Drop)]
pub struct SectionOffers {
    items: ArrayVec<SectionOffer, MOST_SECTIONS>,
}

impl Model for SectionOffers {
    ghost use Rattle.std.specs.Prelude.{List};
    ghost use Rattle.dsv_cascade.specs.declared.stability.SectionOffer.{SectionOffer};

    ghost Value = { List SectionOffer };

    ghost view = { λ offers. offers.items.items };
}

impl SectionOffers {
    /// How many sections there are.
    pub fn len(&self) -> usize
        ensures { result ≡ length self.now }
    {
        self.items.len()
    }

    /// What shows the sections to be stable, section 0 first.
    pub fn as_slice(&self) -> &[SectionOffer]
        ensures { result.now ≡ self.now }
    {
        self.items.as_slice()
    }
}

/// Why closed forms don't show a section to be stable.
#[derive(Drop)]
pub enum SectionFault {
    /// It isn't stable: the form has a negative value at the start, and rises in no step.
    KeptAway {
        poly: Poly,
        offer: KeptAway,
        fall: Form,
        value: i128,
    },
    /// A number on the way to its polynomial is too wide, at this index.
    Wide {
        index: u32,
    },
    /// Its polynomial has no closed form: its number at this index is the first that is over 2^23
    /// in size.
    NoClosedForm {
        index: u32,
    },
}

/// What closed forms say of a cascade's sections, which are judged in their order.
#[derive(Drop)]
pub enum CascadeForms {
    /// All sections are stable.
    Falls(SectionOffers),
    /// The section of this number, from 0 on, is the first that isn't shown to be stable.
    NotAll { section: u32, fault: SectionFault },
}

/// The closed form of a polynomial, checked, where it has one.
fn checked_form(poly: &Poly) -> Option<CheckedForm>
    ensures none { IfNone result (closed_form_of poly.now ≡ None) }
    ensures closed { IfSome result (λ found. closed_form_of poly.now ≡ Some (offer_in found)) }
    ensures shown { IfSome result (IsShown poly.now) }
{
    let offer = closed_form(poly)?;
    Some(accepted_form(poly, &offer))
}

/// The polynomial 1.
fn unit_poly() -> Poly
    ensures { result ≡ pos 1 ∷ [] }
{
    match Poly::new(&[1]) {
        Ok(poly) => poly,
        Err(_) => unreachable!(),
    }
}

impl Default for SectionOffer {
    ghost is_default = { λ s. (s.poly ≡ pos 1 ∷ [])
        × (closed_form_of s.poly ≡ Some (offered.Falls s.offer))
        × IsStable s.poly s.offer.form s.fall };

    /// The polynomial 1 with the form of no place, which is its closed form.
    fn default() -> Self {
        let poly = unit_poly();
        match checked_form(&poly) {
            Some(CheckedForm::Falls { offer, fall }) => SectionOffer { poly, offer, fall },
            _ => unreachable!(),
        }
    }
}

/// Whether the number is over 2^23 in size.
fn is_over(c: &i64) -> bool
    ensures { result ≡ nat_lt second_limit (unsigned_abs c.now) }
{
    c.unsigned_abs() > SECOND_LIMIT
}

/// The index of the first number that is over 2^23 in size, of a list that has one.
fn first_over(c: &[i64]) -> u32
    requires few { length c.now ≤ most_section_order + 1 }
    requires over { All (λ d. unsigned_abs d ≤ second_limit) c.now → ⊥ }
    ensures { IsFirstOver c.now result }
{
    for i in 0..c.len() {
        if is_over(&c[i]) {
            return i as u32;
        }
    }
    unreachable!()
}

/// The polynomial whose roots are a section's poles.
fn section_poly(section: &Quantised) -> Result<Poly, PolyWide>
    requires { order section.now ≤ most_section_order }
    ensures has { IfOk result (HasPoly section.now) }
    ensures few { IfOk result (λ poly. length poly ≤ most_section_order + 1) }
    ensures wide { IfErr result (λ wide. tested_of section.now Denominator ≡ Err wide) }
{
    match polynomial_of(section, Side::Denominator)? {
        Tested::Poly(poly) => Ok(poly),
        Tested::NoZeros => unreachable!(),
    }
}

/// What shows a section to be stable, or why nothing does.
fn section_offer(section: &Quantised) -> Result<SectionOffer, SectionFault>
    requires { order section.now ≤ most_section_order }
    ensures stable { IfOk result (IsStableSection section.now) }
    ensures fault { IfErr result (HasFault section.now) }
{
    let poly = match section_poly(section) {
        Ok(poly) => poly,
        Err(PolyWide { index }) => return Err(SectionFault::Wide { index }),
    };
    match checked_form(&poly) {
        Some(CheckedForm::Falls { offer, fall }) => Ok(SectionOffer { poly, offer, fall }),
        Some(CheckedForm::KeptAway { offer, fall, value }) => Err(SectionFault::KeptAway {
            poly,
            offer,
            fall,
            value,
        }),
        None => Err(SectionFault::NoClosedForm {
            index: first_over(poly.coefficients()),
        }),
    }
}

/// Whether the sections of a cascade are stable, by the closed forms of the polynomials whose roots
/// are their poles. They are judged in their order, up to the first that isn't shown to be. It
/// takes no memory.
pub fn cascade_stability(cascade: &Cascade) -> CascadeForms
    ensures { AreJudged (sections_of cascade.now) result }
{
    let mut items = ArrayVec::new();
    match section_offer(cascade.first_section()) {
        Ok(offer) => items.push(offer),
        Err(fault) => return CascadeForms::NotAll { section: 0, fault },
    }
    for section in cascade.later_sections() {
        match section_offer(section) {
            Ok(offer) => items.push(offer),
            Err(fault) => {
                let section = items.len() as u32;
                return CascadeForms::NotAll { section, fault };
            }
        }
    }
    CascadeForms::Falls(SectionOffers { items })
}
