// The lent words in which the labels of the wires so far are kept: two for each wire.

ghost use Rattle.std.specs.Prelude.{◌≡◌};
ghost use Rattle.wires.specs.Read.{wiring_of};
ghost use Rattle.wires.specs.Wires.{first_at, second_at};
ghost use Rattle.garbling.specs.Words.{kept_at, labels_kept, keeping};
ghost use Rattle.garbling.specs.Garbling.{label_in};

use gate::LabelPair;
use label::Label;
use slices::item_or;
use wires::Circuit;

// The label kept for a wire.
pub(crate) fn kept(words: &[u64], wire: u16) -> Label
    ensures { result ≡ kept_at words.now wire }
{
    let at = 2 * usize::from(wire);
    (item_or(words, at, 0), item_or(words, at + 1, 0))
}

// The label kept for a wire among those below another, zero for any further one.
pub fn label_below(words: &[u64], end: u16, wire: u16) -> Label
    ensures { result ≡ label_in (labels_kept words.now end) wire }
{
    if wire < end {
        kept(words, wire)
    } else {
        (0, 0)
    }
}

// The labels kept for the two wires that a gate reads.
pub(crate) fn labels_below(circuit: &Circuit, words: &[u64], wire: u16) -> LabelPair
    ensures { result ≡ record { first = label_in (labels_kept words.now wire) (first_at (wiring_of circuit.now) wire); second = label_in (labels_kept words.now wire) (second_at (wiring_of circuit.now) wire) } }
{
    let (first, second) = circuit.pair(wire);
    LabelPair {
        first: label_below(words, wire, first),
        second: label_below(words, wire, second),
    }
}

// Keeps the label of a wire, where there is room.
pub fn keep_label(words: &mut [u64], wire: u16, label: Label)
    ensures { words.new ≡ keeping words.old wire label }
{
    let at = 2 * usize::from(wire);
    if at + 1 < words.len() {
        words[at] = label.0;
        words[at + 1] = label.1;
    }
}
