// What is proved of a whole circuit: garbling and evaluating it gives the right outputs, and what the server sees tells
// nothing of truth tables and input bits beyond the public table and the outputs.
#![tactic(auto)]

ghost use Rattle.std.specs.Prelude.{◌≡◌};
ghost use Rattle.label.specs.Sums.{halves};
ghost use Rattle.gate.specs.Sums.{shifted};
ghost use Rattle.circuit_laws.specs.CircuitBlind.{rows_for, CircuitBlind};
ghost use Rattle.circuit_laws.specs.CircuitComputes.{CircuitComputes};
ghost use Rattle.circuit_laws.specs.MondayRound.{MondayRound};

use gate::shift;
use label::Label;

// How many rows an answer table needs for a circuit of so many wires. With that many, each view of the server has equally
// many causes under any two secrets with one public table and equal outputs; and there is a round that meets all premises.
pub fn rows_wanted(wires: u16) -> u32
    ensures value { result ≡ rows_for wires }
    ensures blind { CircuitBlind }
    ensures monday { MondayRound }
{
    // Three for each wire, two more for each at the end, and two between.
    5 * u32::from(wires) + 2
}

// The label of a bit, from the offset and the false label. On the labels of its input bits a circuit is evaluated to the
// labels of all its values, and to the outputs of the plain circuit.
pub fn label_of(delta: Label, false_label: Label, bit: bool) -> Label
    ensures value { result ≡ shifted halves delta false_label bit }
    ensures computes { CircuitComputes }
{
    shift(delta, false_label, bit)
}
