// Runs of a netlist out of a candidate's set.
#![tactic(auto, using(dsv_algebra::proofs::Casts::casts))]

ghost use Rattle.std.specs.Prelude.{◌≡◌, ◌≤◌, ℕ, true, false, length, take, IfOk, IfSome, IfNone};
ghost use Rattle.std.specs.List.{All};
ghost use Rattle.dsv_bounded.specs.Questions.{AreRegisters};
ghost use Rattle.dsv_netlist.specs.Systems.{system_of};
ghost use Rattle.dsv_system.specs.Systems.{registers_after};
ghost use Rattle.dsv_template.specs.Candidates.{IsInSet, is_shaped};
ghost use Rattle.dsv_word.specs.Words.{IsWord};
ghost use Rattle.dsv_invariant.specs.Breaking.{DoLeave};

use dsv_base::{NoMemory, WordList};
use dsv_bounded::zero_words;
use dsv_netlist::Netlist;
use dsv_system::ExactList;
use dsv_template::Candidate;
use std::alloc::Global;

/// Whether the registers of a netlist are in the set.
fn is_inside(net: &Netlist, candidate: &Candidate, registers: &[i64]) -> bool
    requires shaped { is_shaped (length net.now.next) candidate.now ≡ true }
    requires registers { AreRegisters net.now registers.now }
    ensures inside { result ≡ true → IsInSet candidate.now registers.now }
    ensures outside { result ≡ false → IsInSet candidate.now registers.now → ⊥ }
{
    candidate.contains(registers)
}

/// After how many of these inputs the registers of a netlist are outside the set for the first
/// time.
fn first_leaving(
    net: &Netlist,
    candidate: &Candidate,
    registers: &mut [i64],
    inputs: &[i64],
) -> Option<usize>
    requires shaped { is_shaped (length net.now.next) candidate.now ≡ true }
    requires registers { AreRegisters net.now registers.old }
    requires inputs { All (IsWord net.now.format) inputs.now }
    ensures few { IfSome result (λ count. count ≤ length inputs.now) }
    ensures outside { IfSome result (λ count. IsInSet candidate.now
        (registers_after (system_of net.now) registers.old (take count inputs.now)) → ⊥) }
    ensures none { IfNone result ((n : ℕ) → n ≤ length inputs.now → IsInSet candidate.now
        (registers_after (system_of net.now) registers.old (take n inputs.now))) }
{
    for (i, x) in inputs.iter().enumerate() {
        if !is_inside(net, candidate, registers) {
            return Some(i);
        }
        let mut exact = ExactList::new();
        net.step(registers, *x, &mut exact);
    }
    if is_inside(net, candidate, registers) {
        None
    } else {
        Some(inputs.len())
    }
}

/// These inputs up to the first state, from registers of zeros, that isn't in the set.
pub(crate) fn leaving_inputs(
    alloc: Global,
    net: &Netlist,
    candidate: &Candidate,
    inputs: &[i64],
) -> Result<WordList, NoMemory>
    requires shaped { is_shaped (length net.now.next) candidate.now ≡ true }
    requires inputs { All (IsWord net.now.format) inputs.now }
    requires leaves { (n : ℕ) × DoLeave net.now candidate.now (take n inputs.now) }
    ensures first { IfOk result (λ found. (n : ℕ) × (found ≡ take n inputs.now)) }
    ensures leaves { IfOk result (DoLeave net.now candidate.now) }
{
    let mut registers = zero_words(alloc, net.registers())?.into_vec();
    match first_leaving(net, candidate, registers.as_mut_slice(), inputs) {
        Some(count) => Ok(WordList::from_slice(alloc, &inputs[..count])?),
        None => unreachable!(),
    }
}
