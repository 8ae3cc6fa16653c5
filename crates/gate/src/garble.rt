// Garbling a gate: six questions to the hash, eight values, five numbers, for halves and for controls.

ghost use Rattle.std.specs.Prelude.{◌≡◌};
ghost use Rattle.label.specs.Sums.{halves, pairs};
ghost use Rattle.label.specs.Hashes.{Asked};
ghost use Rattle.gate.specs.Numbers.{listed, five_in, six_in};
ghost use Rattle.gate.specs.Views.{views_of};
ghost use Rattle.gate.specs.Sums.{shifted, view_left, view_right, garbled, coded_left, coded_right, controls};
ghost use Rattle.gate.specs.Gates.{six_questions, answers_to, low_bit, high_bit, six_words, six_pairs, trimmed_five, assembled, gate_questions, garbled_gate};

use crate::labels::{LabelPair, shift};
use crate::numbers::gate_numbers;
use crate::views::{Dice, Gate, Parity, Truth, View, draw_views};
use label::{Answer, ControlPair, Hash, Label, Xor};

// What a school sends of a garbled gate: three ciphertexts and five control pairs.
#[derive(Clone, Copy)]
pub struct SentGate {
    pub ciphertexts: [u64; 3],
    pub controls: [ControlPair; 5],
}

// What garbling a gate gives: its false label, and what is sent.
#[derive(Clone, Copy)]
pub struct GarbledGate {
    pub label: Label,
    pub sent: SentGate,
}

// What garbling adds to the answers at one pair of colours: the view's value, and the offset where the truth is 1.
fn added_at(view: View, truth: bool, delta: Label, labels: LabelPair) -> Label
    ensures { result ≡ shifted halves delta (view_left halves view labels.first labels.second, view_right halves view labels.first labels.second) truth }
{
    shift(delta, view.value(labels), truth)
}

// The pair that a view adds to the controls on the left, and on the right.
fn coded(parity: Parity, view: View) -> (ControlPair, ControlPair)
    ensures { result ≡ (coded_left pairs low_bit high_bit parity view, coded_right pairs low_bit high_bit parity view) }
{
    let left = ControlPair {
        low: view.alpha,
        high: view.gamma,
    };
    let right = ControlPair {
        low: view.beta,
        high: view.epsilon,
    };
    (parity.trim(left), parity.trim(right))
}

// The five numbers of the halves: false label and ciphertexts. One by one, as the control numbers below.
fn half_numbers(
    gate: Gate,
    views: [View; 4],
    delta: Label,
    labels: LabelPair,
    words: [u64; 6],
) -> [u64; 5]
    ensures { views ≡ views_of gate.parity gate.truth gate.dice → result ≡ listed (garbled halves gate.parity gate.truth gate.dice delta labels.first labels.second (six_in halves words)) }
{
    let [v00, v01, v10, v11] = views;
    let Truth { t00, t01, t10, t11 } = gate.truth;
    let added = [
        added_at(v00, t00, delta, labels.shifted(delta, (false, false))),
        added_at(v01, t01, delta, labels.shifted(delta, (false, true))),
        added_at(v10, t10, delta, labels.shifted(delta, (true, false))),
        added_at(v11, t11, delta, labels.shifted(delta, (true, true))),
    ];
    gate_numbers(words, added)
}

// The five control numbers, before any high bit is dropped.
fn control_numbers(gate: Gate, views: [View; 4], answered: [ControlPair; 6]) -> [ControlPair; 5]
    ensures { views ≡ views_of gate.parity gate.truth gate.dice → result ≡ listed (controls pairs low_bit high_bit gate.parity gate.truth gate.dice (six_in pairs answered)) }
{
    // One by one, for with `map` over the views the proof didn't close.
    let [v00, v01, v10, v11] = views;
    let added = [
        coded(gate.parity, v00),
        coded(gate.parity, v01),
        coded(gate.parity, v10),
        coded(gate.parity, v11),
    ];
    gate_numbers(answered, added)
}

// The words of six answers; this and the next are functions to state what their `map` gives.
fn words_of(answers: [Answer; 6]) -> [u64; 6]
    ensures { six_in halves result ≡ six_words answers }
{
    answers.map(|answer| answer.word)
}

// The control pairs of six answers.
fn pairs_of(answers: [Answer; 6]) -> [ControlPair; 6]
    ensures { six_in pairs result ≡ six_pairs answers }
{
    answers.map(|answer| answer.pair)
}

// The control numbers with their high bits dropped, but in a hidden gate.
fn trim(parity: Parity, numbers: [ControlPair; 5]) -> [ControlPair; 5]
    ensures { result ≡ listed (trimmed_five parity (five_in pairs numbers)) }
{
    numbers.map(|pair| parity.trim(pair))
}

// A garbled gate, from its six answers.
fn assemble(gate: Gate, delta: Label, labels: LabelPair, answers: [Answer; 6]) -> GarbledGate
    ensures { result ≡ assembled gate.parity gate.truth gate.dice delta labels.first labels.second answers }
{
    let views = draw_views(gate);
    let words = words_of(answers);
    let [left, right, third, fourth, fifth] = half_numbers(gate, views, delta, labels, words);
    let numbers = control_numbers(gate, views, pairs_of(answers));
    GarbledGate {
        label: (left, right),
        sent: SentGate {
            ciphertexts: [third, fourth, fifth],
            controls: trim(gate.parity, numbers),
        },
    }
}

// The six answers of a gate, from its labels of colour 0, in the order asked.
fn ask_six<H: Hash>(hash: &mut H, delta: Label, labels: LabelPair, tweak: u32) -> [Answer; 6]
    ensures value { result ≡ answers_to (H.function hash.old) (six_questions delta labels.first labels.second tweak) }
    ensures kept { H.function hash.new ≡ H.function hash.old }
    ensures asked { Asked H.asks (six_questions delta labels.first labels.second tweak) hash.old hash.new }
{
    let LabelPair {
        first: a,
        second: b,
    } = labels;
    let sum = labels.sum();
    let (a1, b1, sum1) = (a.xor(delta), b.xor(delta), sum.xor(delta));
    let (second, third) = (tweak.wrapping_add(1), tweak.wrapping_add(2));
    let a0_answer = hash.query(a, tweak);
    let a1_answer = hash.query(a1, tweak);
    let b0_answer = hash.query(b, second);
    let b1_answer = hash.query(b1, second);
    let s0_answer = hash.query(sum, third);
    let s1_answer = hash.query(sum1, third);
    [
        a0_answer, a1_answer, b0_answer, b1_answer, s0_answer, s1_answer,
    ]
}

// A gate garbled: its parity and truth table, a dice byte, the offset, its pair's false labels, and the first of its three tweaks.
pub fn garble_gate<H: Hash>(
    hash: &mut H,
    parity: Parity,
    truth_table: u8,
    dice: u8,
    delta: Label,
    labels: LabelPair,
    tweak: u32,
) -> GarbledGate
    ensures value { result ≡ garbled_gate (H.function hash.old) parity truth_table dice delta labels.first labels.second tweak }
    ensures kept { H.function hash.new ≡ H.function hash.old }
    ensures asked { Asked H.asks (gate_questions delta labels.first labels.second tweak) hash.old hash.new }
{
    let colours = labels.colours();
    let gate = Gate {
        parity,
        truth: Truth::by_colours(truth_table, colours),
        dice: Dice::from(dice),
    };
    let colourless = labels.shifted(delta, colours);
    let answers = ask_six(hash, delta, colourless, tweak);
    assemble(gate, delta, colourless, answers)
}
