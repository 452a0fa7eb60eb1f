// The proposer that is built in.
ghost use Rattle.std.specs.Prelude.{◌≡◌, nat_le, false, None, Some, List, ℤ};
ghost use Rattle.dsv_sums.specs.SumForms.{first_offer, most_looks};
ghost use Rattle.dsv_lyapunov.specs.Answers.{IsThere};
ghost use Rattle.dsv_lyapunov.specs.Offers.{HasSum, all_offers, sums_of};

use crate::FormProposer;
use dsv_forms::{FormOffer, FormRefusal, Poly};
use dsv_sums::{MOST_LOOKS, first_offer};

/// Offers sums of a polynomial's steps (`dsv_sums`), those that their check accepts. It goes
/// through its looks once, whatever polynomials it is asked for, and is dry after the last.
#[derive(Drop)]
pub struct SumProposer {
    /// The number of the next look.
    look: u32,
    /// The offer that it gave last.
    last: Option<FormOffer>,
}

impl SumProposer {
    /// A proposer that has looked for nothing yet. It takes no memory.
    #[tactic(auto, unfolding(crate::specs::Offers::HasSum, crate::specs::Offers::sums_of))]
    pub fn new() -> SumProposer
        // It is sure of each polynomial for which one of its looks finds an offer.
        ensures sure { (poly : List ℤ) → HasSum poly
            → ⟦<SumProposer as FormProposer>⟧.sure result poly }
        // It tells the accepted offers of all its looks.
        ensures told { (poly : List ℤ)
            → ⟦<SumProposer as FormProposer>⟧.to_come result poly ≡ Some (sums_of poly) }
        ensures last { ⟦<SumProposer as FormProposer>⟧.last result ≡ None }
        ensures dry { ⟦<SumProposer as FormProposer>⟧.dry result ≡ false }
    {
        SumProposer {
            look: 0,
            last: None,
        }
    }
}

impl FormProposer for SumProposer {
    ghost last = { λ p. p.last };

    ghost dry = { λ p. nat_le most_looks p.look };

    ghost sure = { λ p poly. IsThere (first_offer poly p.look) };

    ghost to_come = { λ p poly. Some (all_offers poly p.look) };

    // What it hears changes nothing.
    ghost heard = { λ _ _. Unit {0} };

    fn propose(&mut self, poly: &Poly) -> Option<FormOffer> {
        if self.look >= MOST_LOOKS {
            return None;
        }
        match first_offer(poly, self.look) {
            Some(found) => {
                let offer = FormOffer::Falls(found.offer);
                self.look = found.look + 1;
                self.last = Some(offer);
                Some(offer)
            }
            None => {
                self.look = MOST_LOOKS;
                None
            }
        }
    }

    fn tell(&mut self, _refusal: &FormRefusal) {}
}
