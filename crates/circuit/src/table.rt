// A checked table: its circuit, with the numbers of garbled gates and of outputs.

ghost use Rattle.std.specs.Prelude.{◌≡◌, ◌≤◌, length};
ghost use Rattle.wires.specs.Wires.{garbled_wires, output_wires};
ghost use Rattle.wires.specs.Read.{wiring_of};

use wires::Circuit;

// The wires of a table that passed its check, and two counts of them.
#[derive(Clone, Copy)]
pub struct Table<'a> {
    circuit: Circuit<'a>,
    garbled: u16,
    outputs: u16,
    ghost within: { circuit.inputs ≤ circuit.wires },
    ghost gates: { garbled ≡ length (garbled_wires (wiring_of circuit)) },
    ghost marks: { outputs ≡ length (output_wires (wiring_of circuit)) },
}

impl<'a> Table<'a> {
    // A circuit with its counts, of which that of the outputs was made before.
    pub(crate) fn counted(circuit: Circuit<'a>, outputs: u16) -> Table<'a>
        requires within { circuit.inputs ≤ circuit.wires }
        requires marks { outputs ≡ length (output_wires (wiring_of circuit)) }
        ensures { result.circuit ≡ circuit.entry }
    {
        Table {
            circuit,
            garbled: circuit.count_garbled(),
            outputs,
        }
    }

    // The wires.
    pub fn circuit(&self) -> Circuit<'a>
        ensures { result ≡ self.now.circuit }
    {
        self.circuit
    }

    // The number of garbled gates.
    pub fn garbled(&self) -> u16
        ensures { result ≡ self.now.garbled }
    {
        self.garbled
    }

    // The number of outputs.
    pub fn outputs(&self) -> u16
        ensures { result ≡ self.now.outputs }
    {
        self.outputs
    }
}
