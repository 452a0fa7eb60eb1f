// Objects that offer forms.
ghost use Rattle.std.specs.Prelude.{◌≡◌, Bool, true, List, Option, Some, ℤ, IfSome, IfNone};
ghost use Rattle.std.specs.Prelude.{slice_get, drop};
ghost use Rattle.dsv_forms.specs.declared.offers.FormOffer.{FormOffer};
ghost use Rattle.dsv_forms.specs.declared.refusal.FormRefusal.{FormRefusal};
ghost use Rattle.dsv_lyapunov.specs.Answers.{GivesAccepted};

use dsv_forms::{FormOffer, FormRefusal, Poly};

/// An object that offers forms for polynomials. What it offers is checked and needs no trust.
pub trait FormProposer: Drop {
    /// The offer that it gave last.
    ghost last: { Self → Option FormOffer };

    /// It has nothing more to offer.
    ghost dry: { Self → Bool };

    /// The check accepts what it offers next for this polynomial.
    ghost sure: { Self → List ℤ → Type 0 };

    /// What it will offer for a polynomial, where it tells that.
    ghost to_come: { Self → List ℤ → Option (List FormOffer) };

    /// It has heard that its last offer was refused so.
    ghost heard: { Self → FormRefusal → Type 0 };

    /// Offers a form for the polynomial, or has none.
    fn propose(&mut self, poly: &Poly) -> Option<FormOffer>
        ensures gave { IfSome result (λ offer. last self.new ≡ Some offer) }
        ensures none { IfNone result (dry self.new ≡ true) }
        ensures none_last { IfNone result (last self.new ≡ last self.old) }
        ensures sure { sure self.old poly.now → GivesAccepted poly.now result }
        // Where it tells what is to come, it offers the first of these and leaves the others.
        ensures told { IfSome (to_come self.old poly.now)
            (λ offers. result ≡ slice_get offers 0) }
        ensures left { IfSome (to_come self.old poly.now)
            (λ offers. to_come self.new poly.now ≡ Some (drop 1 offers)) };

    /// Hears why its offer was refused.
    fn tell(&mut self, refusal: &FormRefusal)
        ensures last { last self.new ≡ last self.old }
        ensures dry { dry self.new ≡ dry self.old }
        ensures told { to_come self.new ≡ to_come self.old }
        ensures heard { heard self.new refusal.now };
}
