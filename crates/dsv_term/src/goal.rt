// A goal: a term that is 1 exactly for the input values that are looked for.
ghost use Rattle.std.specs.Prelude.{◌≡◌, ◌<◌, length, IfOk};
ghost use Rattle.dsv_term.specs.Terms.{width_of};

use crate::lists::InputList;
use crate::node::TermId;
use crate::terms::Terms;
use dsv_base::NoMemory;
use std::alloc::Global;

/// Terms with a root of one bit, and the widths of their inputs.
#[derive(Drop)]
pub struct Goal {
    pub terms: Terms,
    pub root: TermId,
    pub inputs: InputList,
    ghost stands: { root.0 < length terms.nodes },
    ghost one_bit: { width_of terms root ≡ 1 },
    ghost all_inputs: { inputs ≡ terms.inputs },
}

impl Goal {
    /// The goal of a root.
    pub fn new(alloc: Global, terms: Terms, root: TermId) -> Result<Goal, NoMemory>
        requires stands { root.0 < length terms.nodes }
        requires one_bit { width_of terms root ≡ 1 }
        ensures terms { IfOk result (λ goal. goal.terms ≡ terms) }
        ensures root { IfOk result (λ goal. goal.root ≡ root) }
    {
        let inputs = InputList::from_slice(alloc, terms.inputs())?;
        Ok(Goal {
            terms,
            root,
            inputs,
        })
    }
}
