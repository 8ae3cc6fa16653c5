// The public part of a circuit, as a form carries it: everything but the truth tables of its gates.

ghost use Rattle.std.specs.Prelude.{◌≡◌, ◌*◌, true, length, is_ok, if◌then◌else◌};
ghost use Rattle.refusal.specs.Told.{Finds};
ghost use Rattle.wires.specs.Read.{wiring_of};
ghost use Rattle.circuit.specs.Check.{table_wiring};
ghost use Rattle.circuit.specs.Public.{public_kind, public_byte, public_first, public_arrays, public_table, public_fault, PublicOf};

use crate::check::table_length;
use refusal::Refusal;
use slices::item_or;
use wires::Circuit;

// The kind of a wire with a gate's truth table blank.
fn public_kind(circuit: &Circuit, wire: u16) -> u8
    ensures { result ≡ public_kind (wiring_of circuit.now) wire }
{
    let kind = circuit.kind(wire);
    if circuit.is_input(wire) {
        kind
    } else {
        kind / 16 * 16
    }
}

// A byte of the public arrays.
pub fn public_byte(circuit: &Circuit, at: usize) -> u8
    ensures { result ≡ public_byte (wiring_of circuit.now) at }
{
    if at < usize::from(circuit.wires) {
        public_kind(circuit, at as u16)
    } else {
        item_or(circuit.arrays, at, 0)
    }
}

// The public arrays, as many bytes of them as there is room for.
pub fn public_arrays(circuit: &Circuit, arrays: &mut [u8])
    ensures first { arrays.new ≡ public_first (wiring_of circuit.now) (length arrays.old) }
    ensures whole { length arrays.old ≡ 5 * circuit.now.wires → arrays.new ≡ public_arrays (wiring_of circuit.now) }
{
    for (at, byte) in arrays.iter_mut().enumerate() {
        *byte = public_byte(circuit, at);
    }
}

// The public table, written into a buffer of a table's length.
pub fn public_table(circuit: &Circuit, table: &mut [u8]) -> Result<(), Refusal>
    ensures fault { Finds result (public_fault (wiring_of circuit.now) (length table.old)) }
    ensures table { table.new ≡ (if is_ok result then public_table (wiring_of circuit.now) else table.old) }
    ensures shows { is_ok result ≡ true → PublicOf (wiring_of circuit.now) (table_wiring table.new) }
{
    if table.len() != table_length(circuit.wires) {
        return Err(Refusal::Length);
    }
    let [n0, n1] = circuit.wires.to_le_bytes();
    let [m0, m1] = circuit.inputs.to_le_bytes();
    table[..4].copy_from_slice(&[n0, n1, m0, m1]);
    public_arrays(circuit, &mut table[4..]);
    Ok(())
}
