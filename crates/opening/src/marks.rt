// The outputs marked one by one: the marks written to their part of the form, and the first output found whose two marks are equal.

ghost use Rattle.std.specs.Prelude.{◌≡◌, ◌+◌, ◌*◌, ◌<◌, true, false, List, [], ◌∷◌, ◌++◌, length, if◌then◌else◌};
ghost use Rattle.label.specs.Hashes.{Asked};
ghost use Rattle.wires.specs.Read.{wiring_of};
ghost use Rattle.wires.specs.Wires.{is_output};
ghost use Rattle.garbling.specs.Marks.{marks_of, marks_ask, equal_at, equal_below, first_of};
ghost use Rattle.garbling.specs.Evaluation.{output_index};
ghost use Rattle.garbling.specs.Words.{labels_kept};
ghost use Rattle.form.specs.Layout.{mark_bytes};
ghost use Rattle.opening.specs.Rows.{Rows};
ghost use Rattle.opening.specs.MarkSteps.{MarkPair, false_bytes, true_bytes, marks_at, asks_at, first_then};

use crate::rows::write_item;
use circuit::Table;
use garbling::{label_below, query_marks, same_mark};
use label::{Hash, Label, to_bytes};

// How many outputs are marked, and the first among them whose two marks are equal.
#[derive(Clone, Copy)]
struct Marked {
    next: u16,
    equal: Option<u16>,
}

// The first output so far whose marks are equal, or this one.
fn first_equal(so_far: Option<u16>, same: bool, wire: u16) -> Option<u16>
    ensures { result ≡ first_then so_far same wire }
{
    so_far.or(same.then_some(wire))
}

// Marks the next wire, where it is an output: its false mark stands in one row, its true mark in the other.
fn mark_step<H: Hash>(
    hash: &mut H,
    table: &Table,
    delta: Label,
    work: &[u64],
    marks: &mut [u8],
    wire: u16,
    so_far: Marked,
) -> Marked
    requires within { wire < table.now.circuit.wires }
    requires bytes { length marks.old ≡ 32 * table.now.outputs }
    requires index { so_far.next ≡ output_index (wiring_of table.now.circuit) wire }
    ensures next { result.next ≡ output_index (wiring_of table.now.circuit) (wire + 1) }
    ensures equal { result.equal ≡ first_then so_far.equal (equal_at (wiring_of table.now.circuit) (H.function hash.old) delta (labels_kept work.now table.now.circuit.wires) wire) wire }
    ensures rows { (ps : List MarkPair) → length ps ≡ so_far.next → Rows false_bytes true_bytes (16 * table.now.outputs) ps marks.old → Rows false_bytes true_bytes (16 * table.now.outputs) (ps ++ (if is_output (wiring_of table.now.circuit) wire then marks_at (wiring_of table.now.circuit) (H.function hash.old) delta (labels_kept work.now table.now.circuit.wires) wire ∷ [] else [])) marks.new }
    ensures bytes { length marks.new ≡ length marks.old }
    ensures kept { H.function hash.new ≡ H.function hash.old }
    ensures asked { Asked H.asks (asks_at (wiring_of table.now.circuit) delta (labels_kept work.now table.now.circuit.wires) wire) hash.old hash.new }
{
    let circuit = table.circuit();
    if !circuit.is_output(wire) {
        return so_far;
    }
    let label = label_below(work, circuit.wires, wire);
    let (false_mark, true_mark) = query_marks(hash, circuit.wires, wire, delta, label);
    let first = to_bytes(false_mark);
    let second = to_bytes(true_mark);
    write_item(marks, table.outputs(), so_far.next, first, second);
    Marked {
        next: so_far.next + 1,
        equal: first_equal(so_far.equal, same_mark(false_mark, true_mark), wire),
    }
}

// Marks all outputs; the answer is the first whose two marks are equal.
pub(crate) fn mark_outputs<H: Hash>(
    hash: &mut H,
    table: &Table,
    delta: Label,
    work: &[u64],
    marks: &mut [u8],
) -> Option<u16>
    requires bytes { length marks.old ≡ 32 * table.now.outputs }
    ensures equal { result ≡ first_of (equal_below (wiring_of table.now.circuit) (H.function hash.old) delta (labels_kept work.now table.now.circuit.wires) table.now.circuit.wires) }
    ensures marks { marks.new ≡ mark_bytes (marks_of (wiring_of table.now.circuit) (H.function hash.old) delta (labels_kept work.now table.now.circuit.wires) false) (marks_of (wiring_of table.now.circuit) (H.function hash.old) delta (labels_kept work.now table.now.circuit.wires) true) }
    ensures kept { H.function hash.new ≡ H.function hash.old }
    ensures asked { Asked H.asks (marks_ask (wiring_of table.now.circuit) delta (labels_kept work.now table.now.circuit.wires)) hash.old hash.new }
{
    // tried: `(0..wires).filter(..).enumerate()`; the proof did not close, since no invariant stands over such a loop in a generic function
    let mut so_far = Marked {
        next: 0,
        equal: None,
    };
    for wire in 0..table.circuit().wires {
        so_far = mark_step(hash, table, delta, work, marks, wire, so_far);
    }
    so_far.equal
}
