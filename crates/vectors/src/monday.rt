// The gate of the Monday round, an AND of one wire a side: garbled once, evaluated under all four pairs of answers.

use form::control_word;
use gate::{Colours, Dice, Gate, LabelPair, Parity, Truth, View, draw_views, garble_gate, shift};
use gate_laws::play_gate;
use label::{Answer, AnswerTable, ControlPair, Label, Row};
use std::{array, io};

const DELTA: Label = (1, 2);

const LABELS: LabelPair = LabelPair {
    first: (16, 32),
    second: (65, 130),
};

const TWEAK: u32 = 6;

// The answer for a number: 256 times it, and its two low bits.
// The tests of sittings have these rows too: a program cannot use a crate of tests, and no library call needs a sample.
fn answer(number: u16) -> Answer {
    Answer {
        word: 256 * u64::from(number),
        pair: ControlPair::in_bits(u64::from(number)),
    }
}

// Row r has the answers for the numbers 2r and 2r + 1.
fn rows() -> [Row; 17] {
    array::from_fn(|r| Row {
        zero: answer(2 * r as u16),
        one: answer(2 * r as u16 + 1),
    })
}

// The view at two colours.
fn view_at(colours: Colours) -> View {
    let views = draw_views(Gate {
        parity: Parity::Odd,
        truth: Truth::by_colours(8, LABELS.colours()),
        dice: Dice::from(0),
    });
    views[2 * usize::from(colours.0) + usize::from(colours.1)]
}

// One pair of answers: the labels met, their colours, the view there, the output label, and the bit that it stands for.
fn play(rt: &HostRuntime, hash: &mut AnswerTable, u: bool, v: bool) -> io::Result<()> {
    let (gate, output) = play_gate(hash, Parity::Odd, 8, 0, DELTA, LABELS, TWEAK, (u, v));
    let met = LABELS.shifted(DELTA, (u, v));
    let LabelPair { first, second } = met;
    let (i, j) = met.colours();
    let view = view_at((i, j));
    let [alpha, beta, gamma, epsilon] = [view.alpha, view.beta, view.gamma, view.epsilon].map(
        u8::from,
    );
    let [u, v, i, j] = [u, v, i, j].map(u8::from);
    let result = if output == gate.label {
        "0"
    } else if output == shift(DELTA, gate.label, true) {
        "1"
    } else {
        "neither"
    };
    println!(rt;
        "Monday {u} {v}: labels {first:?} {second:?}, colours {i} {j}, view ({alpha}, {beta}, {gamma}, {epsilon}), output label {output:?}, output {result}"
    )
}

pub(crate) fn run_monday(rt: &HostRuntime) -> io::Result<()> {
    let rows = rows();
    let mut hash = AnswerTable { rows: &rows };
    let gate = garble_gate(&mut hash, Parity::Odd, 8, 0, DELTA, LABELS, TWEAK);
    println!(rt;
        "Monday gate: false label {:?}, ciphertexts {:?}, control word {}",
        gate.label,
        gate.sent.ciphertexts,
        control_word(gate.sent.controls)
    )?;
    for (u, v) in [(false, false), (false, true), (true, false), (true, true)] {
        play(rt, &mut hash, u, v)?;
    }
    Ok(())
}
