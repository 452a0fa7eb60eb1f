// Lists of terms.
ghost use Rattle.std.specs.Prelude.{◌≡◌, replicate, IfOk};
ghost use Rattle.dsv_term.specs.Building.{built_of};
ghost use Rattle.dsv_term.specs.Terms.{HasBits};
ghost use Rattle.dsv_unroll.specs.Goals.{conjunction_from};
ghost use Rattle.dsv_unroll.specs.Ready.{AreBits};

use dsv_base::NoMemory;
use dsv_term::{TermId, Terms};
use std::alloc::Global;

/// A term so many times.
pub(crate) fn repeated_term(alloc: Global, id: TermId, count: u32) -> Result<Vec<TermId>, NoMemory>
    ensures { IfOk result (λ ids. ids.items ≡ replicate count id) }
{
    let mut ids = Vec::new(alloc);
    for i in 0..count {
        ids.push(id)?;
    }
    Ok(ids)
}

/// A bit and these.
pub(crate) fn conjunction(
    terms: &mut Terms,
    first: TermId,
    tests: &[TermId],
) -> Result<TermId, NoMemory>
    requires first { HasBits terms.old first 1 }
    requires tests { AreBits terms.old tests.now }
    ensures built { IfOk result (λ all.
        built_of terms.new all ≡ conjunction_from (built_of terms.old first) tests.now) }
    ensures bit { IfOk result (λ all. HasBits terms.new all 1) }
{
    let mut all = first;
    for test in tests {
        all = terms.and(all, *test)?;
    }
    Ok(all)
}
