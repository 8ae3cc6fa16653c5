// The buffers of an opening filled: form, store and sheet.

ghost use Rattle.std.specs.Prelude.{◌≡◌, ◌+◌, ◌*◌, ◌≤◌, ◌++◌, length, take};
ghost use Rattle.label.specs.Hashes.{Asked};
ghost use Rattle.wires.specs.Read.{wiring_of};
ghost use Rattle.circuit.specs.Public.{public_arrays};
ghost use Rattle.garbling.specs.Garbling.{falses_of};
ghost use Rattle.garbling.specs.Words.{labels_kept};
ghost use Rattle.form.specs.Layout.{size_bytes, form_length};
ghost use Rattle.ledger.specs.Store.{label_words, store_length};
ghost use Rattle.ledger.specs.Sheet.{blank_sheet, sheet_length};
ghost use Rattle.opening.specs.Opening.{opened_form, equal_output, open_asks};

use crate::gates::garble_wires;
use crate::marks::mark_outputs;
use circuit::{Table, public_arrays};
use garbling::draw_offset;
use label::{Hash, Label};

// The four sizes in front of a form.
fn size_bytes(table: &Table) -> [u8; 8]
    ensures { result ≡ size_bytes table.now.circuit.wires table.now.circuit.inputs table.now.garbled table.now.outputs }
{
    let circuit = table.circuit();
    let [n0, n1] = circuit.wires.to_le_bytes();
    let [m0, m1] = circuit.inputs.to_le_bytes();
    let [q0, q1] = table.garbled().to_le_bytes();
    let [o0, o1] = table.outputs().to_le_bytes();
    [n0, n1, m0, m1, q0, q1, o0, o1]
}

// The public part of a form: its sizes and arrays. Where they end is said here and below in `usize`, for ranges; a reader of
// forms adds in 32 bits, for places.
fn write_public(form: &mut [u8], table: &Table)
    requires { 8 + 5 * table.now.circuit.wires ≤ length form.old }
    ensures front { take (8 + 5 * table.now.circuit.wires) form.new ≡ size_bytes table.now.circuit.wires table.now.circuit.inputs table.now.garbled table.now.outputs ++ public_arrays (wiring_of table.now.circuit) }
    ensures len { length form.new ≡ length form.old }
{
    let circuit = table.circuit();
    let end = 8 + 5 * usize::from(circuit.wires);
    form[..8].copy_from_slice(&size_bytes(table));
    public_arrays(&circuit, &mut form[8..end]);
}

// A whole form; the labels stay in the work words, and the answer is the first output whose two marks are equal.
pub(crate) fn fill_form<H: Hash>(
    hash: &mut H,
    table: &Table,
    drawn: &[u8],
    work: &mut [u64],
    form: &mut [u8],
) -> Option<u16>
    requires room { length form.old ≡ form_length table.now.circuit.wires table.now.garbled table.now.outputs }
    requires words { length work.old ≡ 2 * table.now.circuit.wires }
    ensures form { form.new ≡ opened_form (wiring_of table.now.circuit) drawn.now (H.function hash.old) }
    ensures equal { result ≡ equal_output (wiring_of table.now.circuit) drawn.now (H.function hash.old) }
    ensures labels { labels_kept work.new table.now.circuit.wires ≡ falses_of (wiring_of table.now.circuit) drawn.now (H.function hash.old) }
    ensures words { length work.new ≡ length work.old }
    ensures kept { H.function hash.new ≡ H.function hash.old }
    ensures asked { Asked H.asks (open_asks (wiring_of table.now.circuit) drawn.now (H.function hash.old)) hash.old hash.new }
{
    let gates_at = 8 + 5 * usize::from(table.circuit().wires);
    let marks_at = gates_at + 26 * usize::from(table.garbled());
    write_public(form, table);
    garble_wires(hash, table, drawn, work, &mut form[gates_at..marks_at]);
    mark_outputs(hash, table, draw_offset(drawn), work, &mut form[marks_at..])
}

// The store: the offset, then the labels of the inputs, as they stand in the work words.
pub(crate) fn fill_store(store: &mut [u64], delta: Label, work: &[u64], inputs: u16)
    requires room { length store.old ≡ store_length inputs }
    requires words { 2 * inputs ≤ length work.now }
    ensures { store.new ≡ label_words delta ++ take (2 * inputs) work.now }
{
    store[..2].copy_from_slice(&[delta.0, delta.1]);
    store[2..].copy_from_slice(&work[..2 * usize::from(inputs)]);
}

// A blank sheet.
pub(crate) fn fill_sheet(sheet: &mut [u8], inputs: u16)
    requires { length sheet.old ≡ sheet_length inputs }
    ensures { sheet.new ≡ blank_sheet inputs }
{
    sheet.fill(0);
    sheet[..2].copy_from_slice(&inputs.to_le_bytes());
}
