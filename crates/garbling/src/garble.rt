// One wire of a garbling: its false label, and the garbled gate where there is one.

ghost use Rattle.std.specs.Prelude.{◌≡◌};
ghost use Rattle.label.specs.Hashes.{Asked};
ghost use Rattle.wires.specs.Read.{wiring_of};
ghost use Rattle.wires.specs.Wires.{class_at, truth_at};
ghost use Rattle.gate.specs.Classes.{parity_of};
ghost use Rattle.gate.specs.Gates.{garbled_gate, gate_questions};
ghost use Rattle.garbling.specs.Tweaks.{gate_tweak};
ghost use Rattle.garbling.specs.Tape.{offset_in, dice_in};
ghost use Rattle.garbling.specs.Words.{labels_kept};
ghost use Rattle.garbling.specs.Steps.{made_from, made_asks};

use crate::tape::{draw_dice, draw_input, draw_offset};
use crate::words::labels_below;
use gate::{GarbledGate, LabelPair, Parity, SentGate, free_gate, garble_gate};
use label::{Hash, Label};
use wires::{Circuit, Class};

// What is made of a wire: its false label, and what is sent of its gate where that is garbled.
#[derive(Clone, Copy)]
pub struct MadeWire {
    pub label: Label,
    pub gate: Option<SentGate>,
}

// The parity by which a class is garbled. For this crate alone, which asks of garbled gates only: by a From, anybody's free gate
// would be an even one.
pub(crate) fn parity_of(class: Class) -> Parity
    ensures { result ≡ parity_of class }
{
    match class {
        Class::Free | Class::Even => Parity::Even,
        Class::Odd => Parity::Odd,
        Class::Hidden => Parity::Hidden,
    }
}

// The first of a gate's three tweaks.
pub(crate) fn gate_tweak(wire: u16) -> u32
    ensures { result ≡ gate_tweak wire }
{
    3 * u32::from(wire)
}

// A gate garbled, from the false labels of its pair; `garbled` gates came before it.
fn garble_with<H: Hash>(
    hash: &mut H,
    circuit: &Circuit,
    drawn: &[u8],
    labels: LabelPair,
    wire: u16,
    garbled: u16,
) -> GarbledGate
    ensures value { result ≡ garbled_gate (H.function hash.old) (parity_of (class_at (wiring_of circuit.now) wire)) (truth_at (wiring_of circuit.now) wire) (dice_in drawn.now circuit.now.inputs garbled) (offset_in drawn.now) labels.first labels.second (gate_tweak wire) }
    ensures kept { H.function hash.new ≡ H.function hash.old }
    ensures asked { Asked H.asks (gate_questions (offset_in drawn.now) labels.first labels.second (gate_tweak wire)) hash.old hash.new }
{
    let parity = parity_of(circuit.class(wire));
    let truth_table = circuit.truth_table(wire);
    let dice = draw_dice(drawn, circuit.inputs, garbled);
    let delta = draw_offset(drawn);
    garble_gate(
        hash,
        parity,
        truth_table,
        dice,
        delta,
        labels,
        gate_tweak(wire),
    )
}

// A wire made, from the labels kept of those below; `garbled` gates came before it.
pub fn garble_wire<H: Hash>(
    hash: &mut H,
    circuit: &Circuit,
    drawn: &[u8],
    words: &[u64],
    wire: u16,
    garbled: u16,
) -> MadeWire
    ensures value { result ≡ made_from (wiring_of circuit.now) drawn.now (H.function hash.old) (labels_kept words.now wire) wire garbled }
    ensures kept { H.function hash.new ≡ H.function hash.old }
    ensures asked { Asked H.asks (made_asks (wiring_of circuit.now) drawn.now (labels_kept words.now wire) wire) hash.old hash.new }
{
    if circuit.is_input(wire) {
        return MadeWire {
            label: draw_input(drawn, wire),
            gate: None,
        };
    }
    let labels = labels_below(circuit, words, wire);
    if !circuit.is_garbled(wire) {
        return MadeWire {
            label: free_gate(labels),
            gate: None,
        };
    }
    let gate = garble_with(hash, circuit, drawn, labels, wire, garbled);
    MadeWire {
        label: gate.label,
        gate: Some(gate.sent),
    }
}
