// Evaluating a gate: three questions to the hash, the view from the controls, the output label.

ghost use Rattle.std.specs.Prelude.{◌≡◌};
ghost use Rattle.label.specs.Sums.{halves, pairs};
ghost use Rattle.label.specs.Hashes.{Asked};
ghost use Rattle.gate.specs.Numbers.{five_in};
ghost use Rattle.gate.specs.Sums.{sum_of, three_in, evaluated};
ghost use Rattle.gate.specs.Gates.{three_questions, answers_to, three_pairs, three_words, view_from, evaluated_gate};

use crate::garble::SentGate;
use crate::labels::{Colours, LabelPair};
use crate::numbers::add_back;
use crate::views::{Parity, View};
use label::{Answer, ControlPair, Hash, Label, Xor};

// The view, from the control numbers and the pairs met.
fn view_from(
    parity: Parity,
    controls: [ControlPair; 5],
    answers: [Answer; 3],
    colours: Colours,
) -> View
    ensures { result ≡ view_from parity (five_in pairs controls) (three_pairs answers) colours.0 colours.1 }
{
    let [a, b, s] = answers;
    let (left, right) = add_back(controls, colours);
    let left = left.xor(a.pair).xor(s.pair);
    let right = right.xor(b.pair).xor(s.pair);
    View {
        alpha: left.low,
        beta: right.low,
        gamma: parity.corner(left.high, colours.0),
        epsilon: parity.corner(right.high, colours.1),
    }
}

// The output label, from ciphertexts, view and the words met.
fn output_label(
    ciphertexts: [u64; 3],
    view: View,
    labels: LabelPair,
    answers: [Answer; 3],
    colours: Colours,
) -> Label
    ensures { result ≡ evaluated halves (three_in halves ciphertexts) view labels.first labels.second (three_words answers) colours.0 colours.1 }
{
    let [third, fourth, fifth] = ciphertexts;
    let [a, b, s] = answers;
    let (left, right) = add_back([0, 0, third, fourth, fifth], colours);
    let (view_left, view_right) = view.value(labels);
    (
        left.xor(a.word).xor(s.word).xor(view_left),
        right.xor(b.word).xor(s.word).xor(view_right),
    )
}

// The three answers that the server meets, in the order asked.
fn ask_three<H: Hash>(hash: &mut H, labels: LabelPair, tweak: u32) -> [Answer; 3]
    ensures value { result ≡ answers_to (H.function hash.old) (three_questions labels.first labels.second tweak) }
    ensures kept { H.function hash.new ≡ H.function hash.old }
    ensures asked { Asked H.asks (three_questions labels.first labels.second tweak) hash.old hash.new }
{
    let sum = labels.sum();
    let a = hash.query(labels.first, tweak);
    let b = hash.query(labels.second, tweak.wrapping_add(1));
    let s = hash.query(sum, tweak.wrapping_add(2));
    [a, b, s]
}

// The label of a gate's output, from what was sent of it, the labels met on its pair, and the first of its three tweaks.
pub fn evaluate_gate<H: Hash>(
    hash: &mut H,
    parity: Parity,
    sent: SentGate,
    labels: LabelPair,
    tweak: u32,
) -> Label
    ensures value { result ≡ evaluated_gate (H.function hash.old) parity sent.ciphertexts sent.controls labels.first labels.second tweak }
    ensures kept { H.function hash.new ≡ H.function hash.old }
    ensures asked { Asked H.asks (three_questions labels.first labels.second tweak) hash.old hash.new }
{
    let colours = labels.colours();
    let answers = ask_three(hash, labels, tweak);
    let view = view_from(parity, sent.controls, answers, colours);
    output_label(sent.ciphertexts, view, labels, answers, colours)
}

// The label of a free gate's output: the sum of its pair's, with no question asked.
pub fn free_gate(labels: LabelPair) -> Label
    ensures { result ≡ sum_of halves labels.first labels.second }
{
    labels.sum()
}
