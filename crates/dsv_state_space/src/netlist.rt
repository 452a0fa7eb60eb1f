// The netlist of a state-space controller.
ghost use Rattle.std.specs.Prelude.{◌≡◌, ◌<◌, ◌≤◌, ◌+◌, ◌*◌, ◌^◌, length, IfOk};
ghost use Rattle.dsv_netlist.specs.Counts.{counts_of};
ghost use Rattle.dsv_realise.specs.Making.{made_at, chained_at, no_places};
ghost use Rattle.dsv_realise.specs.Netlists.{sources};
ghost use Rattle.dsv_state_space.specs.Equations.{state_summands, state_space_of, state_products};
ghost use Rattle.dsv_state_space.specs.Netlists.{with_state_line, with_states, output_of};
ghost use Rattle.dsv_state_space.specs.Netlists.{net_of_state};
ghost use Rattle.dsv_state_space.specs.StateView.{most_states};
ghost use Rattle.dsv_system.specs.Systems.{behaviour_of, Agree};
ghost use Rattle.dsv_netlist.specs.Systems.{runs_of};

use crate::system::StateSystem;
use dsv_base::NoMemory;
use dsv_meaning::Summand;
use dsv_netlist::{Netlist, Node};
use dsv_realise::{Summands, narrow_line, push_products, source_nodes};
use std::alloc::Global;

/// The summands of a line over the nodes of the input and of the states.
fn line_summands(first: i64, row: &[i64]) -> Summands
    requires { length row.now ≤ most_states }
    ensures value { result.items ≡ state_summands first row.now 0 (λ i. i) 1 }
    ensures many { length result.items ≡ length row.now + 1 }
{
    let mut summands = Summands::new();
    summands.push(Summand::Times {
        away: false,
        coeff: first,
        word: 0,
    });
    push_products(&mut summands, false, row, 1);
    summands
}

/// The nodes of a line; answers the number of the one that has its value.
fn state_line(nodes: &mut Vec<Node>, first: i64, row: &[i64]) -> Result<u32, NoMemory>
    requires few { length nodes.old.items < 2 ^ 15 }
    requires short { length row.now ≤ most_states }
    ensures made { IfOk result (λ place. made_at nodes.new.items place
        ≡ with_state_line nodes.old.items first row.now) }
    ensures few { IfOk result (λ place. length nodes.new.items
        ≤ length nodes.old.items + 45) }
{
    narrow_line(nodes, line_summands(first, row).as_slice())
}

/// The nodes of the output's line; answers the number of the one that has it.
fn output_line(nodes: &mut Vec<Node>, system: &StateSystem) -> Result<u32, NoMemory>
    requires { length nodes.old.items < 2 ^ 15 }
    ensures made { IfOk result (λ place. made_at nodes.new.items place
        ≡ with_state_line nodes.old.items system.now.d system.now.c) }
    ensures few { IfOk result (λ place. length nodes.new.items
        ≤ length nodes.old.items + 45) }
{
    let _states = system.states(); // how many words c has, for the proof
    state_line(nodes, system.d(), system.c())
}

/// The nodes of the new states, each with its line; answers the numbers of those that have them.
fn new_states(
    alloc: Global,
    nodes: &mut Vec<Node>,
    system: &StateSystem,
) -> Result<Vec<u32>, NoMemory>
    requires { length nodes.old.items ≤ 2 ^ 10 }
    ensures { IfOk result (λ next. chained_at nodes.new.items next.items
        ≡ with_states system.now.b system.now.a (no_places nodes.old.items)) }
{
    let (rows, inputs) = (system.a(), system.b());
    let mut next = Vec::new(alloc);
    for i in 0..rows.len() {
        let place = state_line(nodes, inputs[i], rows[i].as_slice())?;
        next.push(place)?;
    }
    Ok(next)
}

/// The netlist of a state-space controller: node 0 is the input, node k + 1 state k, and then come
/// the operations of the output's line and of the line of each new state. From every start its
/// steps give the outputs, the exact values and the states of the equations.
pub fn state_net(alloc: Global, system: &StateSystem) -> Result<Netlist, NoMemory>
    ensures net { IfOk result (λ net. net ≡ net_of_state system.now) }
    ensures runs { IfOk result
        (λ net. Agree (runs_of net) (behaviour_of (state_space_of system.now))) }
    ensures products { IfOk result
        (λ net. (counts_of net).products ≡ state_products system.now) }
{
    let mut nodes = source_nodes(alloc, system.states())?;
    let output = output_line(&mut nodes, system)?;
    let next = new_states(alloc, &mut nodes, system)?;
    let net = Netlist::new(nodes, next, output, 0, system.format());
    Ok(net.unwrap())
}
