// Runs of netlists over inputs.
ghost use Rattle.std.specs.Prelude.{◌≡◌, length, IfOk};
ghost use Rattle.std.specs.List.{All};
ghost use Rattle.dsv_word.specs.Words.{IsWord};
ghost use Rattle.dsv_system.specs.Systems.{rows, zeros};
ghost use Rattle.dsv_system.specs.RowViews.{row_of};
ghost use Rattle.dsv_system.specs.Runs.{row_at};
ghost use Rattle.dsv_netlist.specs.Nodes.{step_of};
ghost use Rattle.dsv_netlist.specs.Systems.{system_of};

use dsv_base::NoMemory;
use dsv_netlist::Netlist;
use dsv_system::{ExactList, Row, Rows};
use std::alloc::Global;

/// A netlist's registers with a zero in each.
pub(crate) fn zero_registers(alloc: Global, net: &Netlist) -> Result<Vec<i64>, NoMemory>
    ensures zeros { IfOk result (λ registers. registers.items ≡ zeros (length net.now.next)) }
    ensures words { IfOk result (λ registers. All (IsWord net.now.format) registers.items) }
{
    Ok(vec![in alloc; 0i64; net.registers() as usize]?)
}

/// The row of a netlist's step, which loads the registers.
pub(crate) fn next_row(net: &Netlist, registers: &mut [i64], x: &i64) -> Row
    requires many { length registers.old ≡ length net.now.next }
    requires words { All (IsWord net.now.format) registers.old }
    requires input { IsWord net.now.format x.now }
    ensures row { row_of result ≡ row_at (step_of net.now registers.old x.now) x.now }
    ensures registers { registers.new ≡ (step_of net.now registers.old x.now).past }
    ensures many { length registers.new ≡ length net.now.next }
    ensures words { All (IsWord net.now.format) registers.new }
{
    let mut exact = ExactList::new();
    let y = net.step(registers, *x, &mut exact);
    Row { x: *x, y, exact }
}

/// The rows of a netlist's steps over these inputs, from the words in the registers.
fn rows_of(
    alloc: Global,
    net: &Netlist,
    registers: &mut [i64],
    inputs: &[i64],
) -> Result<Rows, NoMemory>
    requires many { length registers.old ≡ length net.now.next }
    requires words { All (IsWord net.now.format) registers.old }
    requires inputs { All (IsWord net.now.format) inputs.now }
    ensures { IfOk result (λ found. found ≡ rows (system_of net.now) registers.old inputs.now) }
{
    let mut rows = Vec::new(alloc);
    for x in inputs {
        let row = next_row(net, registers, x);
        rows.push(row)?;
    }
    Ok(Rows::from(rows))
}

/// The rows of a netlist over these inputs, from registers of zeros.
pub fn simulate_netlist(alloc: Global, net: &Netlist, inputs: &[i64]) -> Result<Rows, NoMemory>
    requires { All (IsWord net.now.format) inputs.now }
    ensures { IfOk result (λ found. found
        ≡ rows (system_of net.now) (zeros (length net.now.next)) inputs.now) }
{
    let mut registers = zero_registers(alloc, net)?;
    rows_of(alloc, net, registers.as_mut_slice(), inputs)
}
