// The marks of the outputs: two words for a label, by which it is told from the wire's other label.

ghost use Rattle.std.specs.Prelude.{◌≡◌, true, ◌∷◌};
ghost use Rattle.label.specs.Sums.{halves};
ghost use Rattle.label.specs.Hashes.{Asked};
ghost use Rattle.gate.specs.Sums.{shifted};
ghost use Rattle.gate.specs.Gates.{tweak_after};
ghost use Rattle.garbling.specs.Tweaks.{mark_tweak};
ghost use Rattle.garbling.specs.Marks.{mark_questions, mark_of, same_mark};

use gate::shift;
use label::{Hash, Label};

// Two words.
pub type Mark = (u64, u64);

// The first of the two tweaks of an output, in a circuit of this many wires.
// A struct of the two numbers would be made for each call and taken apart at once.
fn mark_tweak(wires: u16, wire: u16) -> u32
    ensures { result ≡ mark_tweak wires wire }
{
    3 * u32::from(wires) + 2 * u32::from(wire) + 2
}

// The mark of a label at an output.
pub fn query_mark<H: Hash>(hash: &mut H, wires: u16, wire: u16, label: Label) -> Mark
    ensures value { result ≡ mark_of (H.function hash.old) wires wire label }
    ensures kept { H.function hash.new ≡ H.function hash.old }
    ensures asked { Asked H.asks (mark_questions wires wire label) hash.old hash.new }
{
    let tweak = mark_tweak(wires, wire);
    let first = hash.query(label, tweak);
    let second = hash.query(label, tweak.wrapping_add(1));
    (first.word, second.word)
}

// The marks of an output's false and true labels, in this order.
pub fn query_marks<H: Hash>(
    hash: &mut H,
    wires: u16,
    wire: u16,
    delta: Label,
    label: Label,
) -> (Mark, Mark)
    ensures value { result ≡ (mark_of (H.function hash.old) wires wire label, mark_of (H.function hash.old) wires wire (shifted halves delta label true)) }
    ensures kept { H.function hash.new ≡ H.function hash.old }
    ensures asked { Asked H.asks ((label, mark_tweak wires wire) ∷ (label, tweak_after (mark_tweak wires wire) 1) ∷ mark_questions wires wire (shifted halves delta label true)) hash.old hash.new }
{
    let false_mark = query_mark(hash, wires, wire, label);
    let true_mark = query_mark(hash, wires, wire, shift(delta, label, true));
    (false_mark, true_mark)
}

// Whether two marks are the same.
pub fn same_mark(a: Mark, b: Mark) -> bool
    ensures { result ≡ same_mark a b }
{
    a == b
}
