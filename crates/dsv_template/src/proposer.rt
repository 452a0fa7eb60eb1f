// Objects that offer candidates.
ghost use Rattle.std.specs.Prelude.{◌≡◌, Bool, true, List, [], Option, Some, drop};
ghost use Rattle.std.specs.Prelude.{IfOk, IfSome, IfNone, OnErr, slice_get};
ghost use Rattle.dsv_template.specs.declared.candidate.Candidate.{Candidate};
ghost use Rattle.dsv_template.specs.declared.shape.Shape.{Shape};
ghost use Rattle.dsv_template.specs.declared.verdict.Why.{Why};
ghost use Rattle.dsv_template.specs.Shapes.{IsLawful};

use crate::candidate::Candidate;
use crate::shape::Shape;
use crate::verdict::Why;
use dsv_base::NoMemory;
use std::alloc::Global;

/// An object that offers candidates for the registers of controllers. What it offers is judged and
/// needs no trust.
pub trait InvariantProposer: Drop {
    /// The candidate that it gave last.
    ghost last: { Self → Option Candidate };

    /// It has said that it has no more.
    ghost dry: { Self → Bool };

    /// What it will offer for a shape, where it tells that.
    ghost to_come: { Self → Shape → Option (List Candidate) };

    /// It has heard that this was found of its last offer.
    ghost heard: { Self → Why → Type 0 };

    /// Offers a candidate for a controller of this shape, or has no more.
    fn propose(&mut self, alloc: Global, shape: &Shape) -> Result<Option<Candidate>, NoMemory>
        requires { IsLawful shape.now }
        ensures gave { IfOk result (λ o. IfSome o (λ c. last self.new ≡ Some c)) }
        ensures none { IfOk result (λ o. IfNone o (dry self.new ≡ true)) }
        ensures none_last { IfOk result (λ o. IfNone o (last self.new ≡ last self.old)) }
        ensures failed_last { OnErr result (last self.new ≡ last self.old) }
        ensures failed_dry { OnErr result (dry self.new ≡ dry self.old) }
        ensures failed_told { OnErr result (to_come self.new ≡ to_come self.old) }
        // Where it tells what is to come, it offers the first of these and leaves the others.
        ensures told { IfSome (to_come self.old shape.now)
            (λ cs. IfOk result (λ o. o ≡ slice_get cs 0)) }
        ensures left { IfSome (to_come self.old shape.now)
            (λ cs. IfOk result (λ o. to_come self.new shape.now ≡ Some (drop 1 cs))) };

    /// Hears what was found of its offer.
    fn tell(&mut self, verdict: &Why)
        ensures last { last self.new ≡ last self.old }
        ensures dry { dry self.new ≡ dry self.old }
        ensures told { to_come self.new ≡ to_come self.old }
        ensures heard { heard self.new verdict.now };

    /// One that has said that it has no more offers nothing.
    ghost dry_is_empty: { (x : Self) (shape : Shape) → dry x ≡ true
        → IfSome (to_come x shape) (λ cs. cs ≡ List.[]) };
}
