// What is proved of one gate: garbling and evaluating belong together, and what the server sees tells nothing of the truth table.
#![tactic(auto)]

ghost use Rattle.std.specs.Prelude.{◌≡◌, true, ◌++◌};
ghost use Rattle.label.specs.Hashes.{Asked};
ghost use Rattle.label.specs.Labels.{colour_of};
ghost use Rattle.label.specs.Sums.{group, halves};
ghost use Rattle.wires.specs.Wires.{truth};
ghost use Rattle.gate.specs.Gates.{garbled_gate, evaluated_gate, gate_questions, three_questions};
ghost use Rattle.gate.specs.Numbers.{mixed, back_left, back_right, left_in, right_in, six_in};
ghost use Rattle.gate.specs.Sums.{shifted};
ghost use Rattle.gate_laws.specs.GateSpace.{GateSpace};
ghost use Rattle.gate_laws.specs.GateLaw.{GateLaw};
ghost use Rattle.gate_laws.specs.ControlLaw.{ControlLaw};
ghost use Rattle.gate_laws.specs.Computes.{AllowedSuits, suits};
ghost use Rattle.gate_laws.specs.GateBlind.{GateBlind};
ghost use Rattle.gate_laws.specs.GateSeen.{GateSeen};
ghost use Rattle.gate_laws.specs.Matrices.{NumbersByInverse, BackByV, ValuesByM, MatrixFacts, ViewsByBasis, ControlsCompressed};
ghost use Rattle.gate_laws.specs.Monday.{MondayGate};

use gate::{
    Colours, GarbledGate, LabelPair, Parity, add_back, evaluate_gate, garble_gate, gate_numbers,
};
use label::{Hash, Label, Xor};

// What the server adds at two colours, from the five numbers of a gate. For every sum: the values of a garbled gate come
// back so, evaluating comes to the label of the truth value, the controls give the view, and all of it is the products
// with the scheme's matrices.
pub fn value_back<T: Xor>(answers: [T; 6], added: [(T, T); 4], colours: Colours) -> (T, T)
    ensures value { result ≡ (back_left (group T.plus T.nought) (mixed (group T.plus T.nought) (six_in (group T.plus T.nought) answers) (left_in (group T.plus T.nought) added) (right_in (group T.plus T.nought) added)) colours.0 colours.1, back_right (group T.plus T.nought) (mixed (group T.plus T.nought) (six_in (group T.plus T.nought) answers) (left_in (group T.plus T.nought) added) (right_in (group T.plus T.nought) added)) colours.0 colours.1) }
    ensures space { GateSpace (group T.plus T.nought) }
    ensures law { GateLaw (group T.plus T.nought) }
    ensures controls { ControlLaw (group T.plus T.nought) }
    ensures inverse { NumbersByInverse (group T.plus T.nought) }
    ensures rows { BackByV (group T.plus T.nought) }
    ensures mixing { ValuesByM (group T.plus T.nought) }
    ensures basis { ViewsByBasis (group T.plus T.nought) }
    ensures compressed { ControlsCompressed (group T.plus T.nought) }
    ensures facts { MatrixFacts }
{
    add_back(gate_numbers(answers, added), colours)
}

// A gate garbled, and evaluated on the labels of two bits: the gate, and the label that the server comes to. It is the
// label of the gate's value; and what the server sees of the gate has equally many causes, whichever truth table of the
// class was garbled.
pub fn play_gate<H: Hash>(
    hash: &mut H,
    parity: Parity,
    truth_table: u8,
    dice: u8,
    delta: Label,
    labels: LabelPair,
    tweak: u32,
    bits: (bool, bool),
) -> (GarbledGate, Label)
    ensures gate { result.0 ≡ garbled_gate (H.function hash.old) parity truth_table dice delta labels.first labels.second tweak }
    ensures value { result.1 ≡ evaluated_gate (H.function hash.old) parity result.0.sent.ciphertexts result.0.sent.controls (shifted halves delta labels.first bits.0) (shifted halves delta labels.second bits.1) tweak }
    ensures right { suits parity truth_table ≡ true → colour_of delta ≡ true → result.1 ≡ shifted halves delta result.0.label (truth truth_table bits.0 bits.1) }
    ensures kept { H.function hash.new ≡ H.function hash.old }
    ensures asked { Asked H.asks (gate_questions delta labels.first labels.second tweak ++ three_questions (shifted halves delta labels.first bits.0) (shifted halves delta labels.second bits.1) tweak) hash.old hash.new }
    ensures allowed { AllowedSuits }
    ensures seen { GateSeen }
    ensures blind { GateBlind }
    ensures monday { MondayGate }
{
    let gate = garble_gate(hash, parity, truth_table, dice, delta, labels, tweak);
    let met = labels.shifted(delta, bits);
    let output = evaluate_gate(hash, parity, gate.sent, met, tweak);
    (gate, output)
}
