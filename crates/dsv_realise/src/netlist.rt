// Quantised controllers made netlists.
ghost use Rattle.std.specs.Prelude.{◌≡◌, IfOk};
ghost use Rattle.dsv_meaning.specs.Equations.{order, forward_registers_of};
ghost use Rattle.dsv_meaning.specs.Systems.{equations_of};
ghost use Rattle.dsv_netlist.specs.Counts.{counts_of};
ghost use Rattle.dsv_realise.specs.Netlists.{net_of};
ghost use Rattle.dsv_realise.specs.Running.{counts_as};
ghost use Rattle.dsv_realise.specs.Parts.{parts_as};
ghost use Rattle.dsv_system.specs.Systems.{behaviour_of, Agree};
ghost use Rattle.dsv_netlist.specs.Systems.{runs_of};

use crate::parts::Parts;
use crate::realisations::{
    delta_form_one, delta_form_two, direct_form_one, direct_form_two, transposed_delta_form_two,
    transposed_form_two,
};
use dsv_base::NoMemory;
use dsv_meaning::forward_registers;
use dsv_names::Realisation;
use dsv_netlist::Netlist;
use dsv_quantiser::Quantised;
use std::alloc::Global;

/// The parts of the netlist of a quantised controller.
fn parts(alloc: Global, quantised: &Quantised) -> Result<Parts, NoMemory>
    ensures { IfOk result (λ parts. parts_as quantised.now.realisation quantised.now parts
        ≡ net_of quantised.now) }
{
    match quantised.realisation() {
        Realisation::Dfi => direct_form_one(alloc, quantised),
        Realisation::Dfii => direct_form_two(alloc, quantised),
        Realisation::Tdfii => transposed_form_two(alloc, quantised),
        Realisation::Ddfi => delta_form_one(alloc, quantised),
        Realisation::Ddfii => delta_form_two(alloc, quantised),
        Realisation::Tddfii => transposed_delta_form_two(alloc, quantised),
    }
}

/// The netlist of a quantised controller: node 0 is the input, node k + 1 register k, and then come
/// the operations of its lines, in their order. From every start its steps give the outputs, the
/// exact values and the registers of the written equations.
pub fn realise(alloc: Global, quantised: &Quantised) -> Result<Netlist, NoMemory>
    ensures net { IfOk result (λ net. net ≡ net_of quantised.now) }
    ensures runs { IfOk result
        (λ net. Agree (runs_of net) (behaviour_of (equations_of quantised.now))) }
    ensures counts { IfOk result (λ net. counts_of net
        ≡ counts_as quantised.now.realisation (order quantised.now)) }
    ensures forward { IfOk result (λ net. net.feed_forward
        ≡ forward_registers_of quantised.now.realisation (order quantised.now)) }
{
    let parts = parts(alloc, quantised)?;
    let feed_forward = forward_registers(quantised.realisation(), quantised.order() as u32);
    let net = Netlist::new(
        parts.nodes,
        parts.next,
        parts.output,
        feed_forward,
        quantised.format(),
    );
    Ok(net.unwrap())
}
