// The theorem on closed forms.
ghost use Rattle.std.specs.Prelude.{◌≡◌, List, [], ◌∷◌, Some, ℤ};
ghost use Rattle.dsv_forms.specs.declared.offers.FormOffer.{FormOffer};
ghost use Rattle.dsv_forms.specs.Poly.{IsPoly};
ghost use Rattle.dsv_closed_forms.specs.ClosedForm.{closed_form_of, first_leads, second_leads};
ghost use Rattle.dsv_closed_forms.specs.ClosedForm.{offers_fall, IsAccepted};

/// The law of closed forms, for proofs: what the closed form of a polynomial offers, its check
/// accepts. For order 1 it is a form that falls exactly where the leading coefficient is greater
/// than the size of the other one; for order 2 exactly where it is greater than the size of the
/// last one and their sum than the size of the middle one. The call does nothing.
pub fn closed_forms_are_accepted()
    ensures accepted { (cs : List ℤ) (offer : FormOffer) → IsPoly cs
        → closed_form_of cs ≡ Some offer
        → IsAccepted cs offer }
    ensures first { (c0 c1 : ℤ) (offer : FormOffer)
        → closed_form_of (c0 ∷ c1 ∷ []) ≡ Some offer
        → offers_fall offer ≡ first_leads (c0 ∷ c1 ∷ []) }
    ensures second { (c0 c1 c2 : ℤ) (offer : FormOffer)
        → closed_form_of (c0 ∷ c1 ∷ c2 ∷ []) ≡ Some offer
        → offers_fall offer ≡ second_leads c0 c1 c2 }
{}
