// The formula of a goal: the inputs have the first variables, the nodes one circuit after the
// other, and the root is a clause of its one literal. A node's bits are kept, so that each circuit
// is made once, however many nodes name it.
ghost use Rattle.std.specs.Prelude.{◌≡◌, ◌+◌, ◌<◌, ◌≤◌, ◌^◌, [], length, map, All, IfOk, OnOk};
ghost use Rattle.dsv_cnf.specs.Formula.{IsOver};
ghost use Rattle.dsv_term.specs.Terms.{AreTerms};
ghost use Rattle.dsv_term.specs.Word.{IsWidth};
ghost use Rattle.dsv_blast.specs.Blast.{run_from, places_from, total, input_places, blast_of};
ghost use Rattle.dsv_blast.specs.Blast.{first_circuit, cnf_of, IsExact, IsDecisive};

use crate::circuit::{Circuit, accept_variables};
use crate::places::BitPlaces;
use crate::term_bits::node_bits;
use crate::words::Bits;
use dsv_base::{Items, NoMemory};
use dsv_cnf::{Formula, Lit};
use dsv_term::{Goal, Terms};
use std::alloc::Global;

/// The formula of a goal, and the literals of each input.
#[derive(Drop)]
pub struct Blasted {
    pub formula: Formula,
    pub inputs: BitPlaces,
    ghost over: { All (IsOver formula.vars) inputs },
    ghost widths: { All IsWidth (map length inputs) },
}

/// So many variables in a row.
fn run(alloc: Global, first: u32, width: u32) -> Result<Bits, NoMemory>
    requires { first + width ≤ 2 ^ 31 }
    ensures { IfOk result (λ bits. bits ≡ run_from first width) }
{
    let mut bits = Items::new(alloc);
    for i in 0..width {
        bits.push(Lit::new(first + i, true))?;
    }
    Ok(bits)
}

/// The places of inputs, and how many variables they have.
#[derive(Drop)]
struct Placed {
    places: BitPlaces,
    vars: u32,
}

/// The variables of inputs that are so wide: one after another from 0 on.
fn place_inputs(alloc: Global, widths: &[u32]) -> Result<Placed, NoMemory>
    ensures places { IfOk result (λ placed. placed.places ≡ places_from 0 widths.now) }
    ensures vars { IfOk result (λ placed. placed.vars ≡ total widths.now) }
    ensures few { IfOk result (λ placed. placed.vars < 2 ^ 31) }
{
    let mut places = BitPlaces::new(alloc)?;
    let mut vars: u32 = 0;
    for width in widths {
        accept_variables(vars, *width)?;
        let bits = run(alloc, vars, *width)?;
        places.push(bits.as_slice())?;
        vars += *width;
    }
    Ok(Placed { places, vars })
}

/// The gates of terms, the places of their inputs and the bits of each term.
#[derive(Drop)]
struct Wiring {
    circuit: Circuit,
    places: BitPlaces,
    bits: BitPlaces,
}

/// The gates of all terms, after those of none.
fn wire_nodes(
    alloc: Global,
    terms: &Terms,
    places: &BitPlaces,
    circuit: &mut Circuit,
    bits: &mut BitPlaces,
) -> Result<(), NoMemory>
    requires places { places.now ≡ input_places terms.now }
    requires none { circuit.old ≡ first_circuit (total terms.now.inputs) }
    requires no_bits { bits.old ≡ [] }
    ensures circuit { OnOk result (circuit.new ≡ (blast_of terms.now).circuit) }
    ensures bits { OnOk result (bits.new ≡ (blast_of terms.now).bits) }
    ensures terms { OnOk result (AreTerms terms.now) }
{
    for node in terms.nodes() {
        let word = node_bits(alloc, circuit, places, bits, *node)?;
        bits.push(word.as_slice())?;
    }
    Ok(())
}

/// The gates of all terms.
fn wire(alloc: Global, terms: &Terms) -> Result<Wiring, NoMemory>
    ensures circuit { IfOk result (λ w. w.circuit ≡ (blast_of terms.now).circuit) }
    ensures bits { IfOk result (λ w. w.bits ≡ (blast_of terms.now).bits) }
    ensures places { IfOk result (λ w. w.places ≡ input_places terms.now) }
    ensures terms { IfOk result (λ _. AreTerms terms.now) }
{
    let Placed { places, vars } = place_inputs(alloc, terms.inputs())?;
    let mut bits = BitPlaces::new(alloc)?;
    let mut circuit = Circuit::new(alloc, vars)?;
    wire_nodes(alloc, terms, &places, &mut circuit, &mut bits)?;
    Ok(Wiring {
        circuit,
        places,
        bits,
    })
}

/// The formula of a goal: an assignment satisfies it exactly where each gate has its value, so that
/// the bits of each term spell its word, and the root is 1. Too large a formula is want of memory.
pub fn blast(alloc: Global, goal: &Goal) -> Result<Blasted, NoMemory>
    ensures formula { IfOk result (λ b. b.formula ≡ cnf_of goal.now.terms goal.now.root) }
    ensures exact { IfOk result (λ b. IsExact goal.now.terms goal.now.root b.formula) }
    ensures inputs { IfOk result (λ b. b.inputs ≡ input_places goal.now.terms) }
    // What a solver finds for the formula is so of the goal.
    ensures decisive { IfOk result
        (λ b. IsDecisive goal.now.terms goal.now.root b.formula b.inputs) }
{
    let mut wiring = wire(alloc, &goal.terms)?;
    wiring.circuit.push(wiring.bits.at(goal.root.0 as usize))?;
    Ok(Blasted {
        formula: wiring.circuit.into_formula(),
        inputs: wiring.places,
    })
}
