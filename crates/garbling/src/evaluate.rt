// One wire of an evaluation: the label met on it.

ghost use Rattle.std.specs.Prelude.{◌≡◌};
ghost use Rattle.label.specs.Hashes.{Asked};
ghost use Rattle.wires.specs.Read.{wiring_of};
ghost use Rattle.wires.specs.Wires.{class_at};
ghost use Rattle.gate.specs.Classes.{parity_of};
ghost use Rattle.gate.specs.Gates.{three_questions, evaluated_gate};
ghost use Rattle.garbling.specs.Tweaks.{gate_tweak};
ghost use Rattle.garbling.specs.Words.{kept_at, labels_kept};
ghost use Rattle.garbling.specs.Steps.{met_with, met_asks};

use crate::garble::{gate_tweak, parity_of};
use crate::words::{kept, labels_below};
use gate::{LabelPair, SentGate, evaluate_gate, free_gate};
use label::{Hash, Label};
use wires::Circuit;

// A gate evaluated, on the labels met on its pair.
fn evaluate_with<H: Hash>(
    hash: &mut H,
    circuit: &Circuit,
    sent: SentGate,
    labels: LabelPair,
    wire: u16,
) -> Label
    ensures value { result ≡ evaluated_gate (H.function hash.old) (parity_of (class_at (wiring_of circuit.now) wire)) sent.ciphertexts sent.controls labels.first labels.second (gate_tweak wire) }
    ensures kept { H.function hash.new ≡ H.function hash.old }
    ensures asked { Asked H.asks (three_questions labels.first labels.second (gate_tweak wire)) hash.old hash.new }
{
    let parity = parity_of(circuit.class(wire));
    evaluate_gate(hash, parity, sent, labels, gate_tweak(wire))
}

// The label met on a wire, from the labels kept of those below and the gate that was sent for it; an input has the label kept for it.
pub fn evaluate_wire<H: Hash>(
    hash: &mut H,
    circuit: &Circuit,
    sent: SentGate,
    words: &[u64],
    wire: u16,
) -> Label
    ensures value { result ≡ met_with (wiring_of circuit.now) (H.function hash.old) sent (kept_at words.now wire) (labels_kept words.now wire) wire }
    ensures kept { H.function hash.new ≡ H.function hash.old }
    ensures asked { Asked H.asks (met_asks (wiring_of circuit.now) (labels_kept words.now wire) wire) hash.old hash.new }
{
    if circuit.is_input(wire) {
        return kept(words, wire);
    }
    let labels = labels_below(circuit, words, wire);
    if !circuit.is_garbled(wire) {
        return free_gate(labels);
    }
    evaluate_with(hash, circuit, sent, labels, wire)
}
