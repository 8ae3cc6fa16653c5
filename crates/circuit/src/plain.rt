// The plain circuit: the values of all wires on given input bits, and the outputs.

ghost use Rattle.std.specs.Prelude.{◌≡◌, true, false, length, take, is_ok, if◌then◌else◌, slice_index_or};
ghost use Rattle.refusal.specs.Told.{Finds};
ghost use Rattle.wires.specs.Read.{wiring_of};
ghost use Rattle.wires.specs.Wires.{output_wires};
ghost use Rattle.circuit.specs.Plain.{value_from, values_of, at_outputs, plain_outputs, plain_fault, PlainRun};

use refusal::{Buffer, Refusal, check_length};
use slices::item_or;
use wires::{Circuit, look_up};

// The bit at a place among the first bits, false past them.
fn bit_below(bits: &[bool], end: u16, at: u16) -> bool
    ensures { result ≡ slice_index_or (take end bits.now) at false }
{
    if at < end {
        item_or(bits, usize::from(at), false)
    } else {
        false
    }
}

// The value of a wire, from those of the wires below it.
fn value_from(circuit: &Circuit, inputs: &[bool], values: &[bool], wire: u16) -> bool
    ensures { result ≡ value_from (wiring_of circuit.now) inputs.now (take wire values.now) wire }
{
    if circuit.is_input(wire) {
        return item_or(inputs, usize::from(wire), false);
    }
    let (first, second) = circuit.pair(wire);
    look_up(
        circuit.truth_table(wire),
        bit_below(values, wire, first),
        bit_below(values, wire, second),
    )
}

fn fill_values(circuit: &Circuit, inputs: &[bool], values: &mut [bool])
    requires { length values.old ≡ circuit.now.wires }
    ensures { values.new ≡ values_of (wiring_of circuit.now) inputs.now }
{
    // By index, for each value is found from those below it in the same buffer.
    for wire in 0..circuit.wires {
        let value = value_from(circuit, inputs, values, wire);
        values[usize::from(wire)] = value;
    }
}

fn pick_outputs(circuit: &Circuit, values: &[bool], outputs: &mut [bool])
    requires { length outputs.old ≡ length (output_wires (wiring_of circuit.now)) }
    ensures { outputs.new ≡ at_outputs (wiring_of circuit.now) values.now }
{
    let wires = (0..circuit.wires).filter(|wire| circuit.is_output(*wire));
    for (next, wire) in wires.enumerate() {
        outputs[next] = item_or(values, usize::from(wire), false);
    }
}

// The values of all wires and the outputs, on these input bits; a bit that is not given counts as 0.
pub fn run_plain(
    circuit: &Circuit,
    inputs: &[bool],
    values: &mut [bool],
    outputs: &mut [bool],
) -> Result<(), Refusal>
    ensures fault { Finds result (plain_fault (wiring_of circuit.now) (length values.old) (length outputs.old)) }
    ensures values { values.new ≡ (if is_ok result then values_of (wiring_of circuit.now) inputs.now else values.old) }
    ensures outputs { outputs.new ≡ (if is_ok result then plain_outputs (wiring_of circuit.now) inputs.now else outputs.old) }
    ensures run { is_ok result ≡ true → PlainRun (wiring_of circuit.now) inputs.now values.new outputs.new }
{
    check_length(values.len(), usize::from(circuit.wires), Buffer::Work)?;
    let marked = usize::from(circuit.count_outputs());
    check_length(outputs.len(), marked, Buffer::Outputs)?;
    fill_values(circuit, inputs, values);
    pick_outputs(circuit, values, outputs);
    Ok(())
}
