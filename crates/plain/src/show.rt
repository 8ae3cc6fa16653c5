// What is printed of a table, and bits as text.

use circuit::Table;
use std::alloc::{AllocError, Global};
use std::io;
use wires::{Circuit, Class};

// How many inputs are of a side.
fn inputs_of(circuit: &Circuit, side: u8) -> usize {
    (0..circuit.inputs)
        .filter(|wire| circuit.side(*wire) == side)
        .count()
}

// How many gates are of a class.
fn gates_of(circuit: &Circuit, class: Class) -> usize {
    (circuit.inputs..circuit.wires)
        .filter(|gate| circuit.class(*gate) == class)
        .count()
}

// The sizes of a table: wires, inputs by side, gates by class, outputs.
pub(crate) fn sizes(rt: &HostRuntime, table: &Table) -> io::Result<()> {
    let circuit = table.circuit();
    let Circuit { wires, inputs, .. } = circuit;
    let [first, second] = [0, 1].map(|side| inputs_of(&circuit, side));
    let [free, even, odd, hidden] = [Class::Free, Class::Even, Class::Odd, Class::Hidden].map(
        |class| gates_of(&circuit, class),
    );
    println!(rt; "wires {wires}")?;
    println!(rt; "inputs {inputs}: side 0 {first}, side 1 {second}")?;
    println!(rt;
        "gates {}: free {free}, even {even}, odd {odd}, hidden {hidden}",
        wires - inputs
    )?;
    println!(rt; "outputs {}", table.outputs())
}

// Bits as digits 0 and 1.
pub(crate) fn digits(heap: Global, bits: &[bool]) -> Result<String, AllocError> {
    bits.iter()
        .map(|bit| if *bit { '1' } else { '0' })
        .collect(heap)
}

// The bits of a text of this many digits, each 0 or 1.
pub(crate) fn bits_of(
    heap: Global,
    text: &[u8],
    count: usize,
) -> Result<Option<Vec<bool>>, AllocError> {
    if text.len() != count {
        return Ok(None);
    }
    text.iter()
        .map(|digit| match digit {
            b'0' => Some(false),
            b'1' => Some(true),
            _ => None,
        })
        .collect(heap)
}
