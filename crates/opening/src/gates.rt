// The wires garbled one by one: the labels kept in the work words, the garbled gates written to their part of the form.

ghost use Rattle.std.specs.Prelude.{◌≡◌, ◌+◌, ◌*◌, ◌<◌, List, [], ◌∷◌, ◌++◌, length, if◌then◌else◌};
ghost use Rattle.label.specs.Hashes.{Asked};
ghost use Rattle.wires.specs.Read.{wiring_of};
ghost use Rattle.wires.specs.Wires.{is_garbled};
ghost use Rattle.gate.specs.declared.garble.SentGate.{SentGate};
ghost use Rattle.garbling.specs.Garbling.{gate_index, gate_from, false_from, falses_of, garble_asks};
ghost use Rattle.garbling.specs.Words.{labels_kept};
ghost use Rattle.garbling.specs.Steps.{made_asks};
ghost use Rattle.form.specs.Layout.{ciphertext_bytes, control_bytes, gate_bytes};
ghost use Rattle.opening.specs.Rows.{Rows};
ghost use Rattle.opening.specs.Opening.{gates_sent};

use crate::rows::write_item;
use circuit::Table;
use form::{ciphertext_bytes, control_word};
use garbling::{garble_wire, keep_label};
use label::Hash;

// Garbles the next wire: its label is kept, and a garbled gate is written, its ciphertexts in one row and its control word in the other; the answer is how many gates are garbled then.
fn garble_step<H: Hash>(
    hash: &mut H,
    table: &Table,
    drawn: &[u8],
    work: &mut [u64],
    gates: &mut [u8],
    wire: u16,
    next: u16,
) -> u16
    requires within { wire < table.now.circuit.wires }
    requires words { length work.old ≡ 2 * table.now.circuit.wires }
    requires bytes { length gates.old ≡ 26 * table.now.garbled }
    requires index { next ≡ gate_index (wiring_of table.now.circuit) wire }
    ensures next { result ≡ gate_index (wiring_of table.now.circuit) (wire + 1) }
    ensures labels { labels_kept work.new (wire + 1) ≡ labels_kept work.old wire ++ (false_from (wiring_of table.now.circuit) drawn.now (H.function hash.old) (labels_kept work.old wire) wire ∷ []) }
    ensures rows { (gs : List SentGate) → length gs ≡ next → Rows ciphertext_bytes control_bytes (24 * table.now.garbled) gs gates.old → Rows ciphertext_bytes control_bytes (24 * table.now.garbled) (gs ++ (if is_garbled (wiring_of table.now.circuit) wire then (gate_from (wiring_of table.now.circuit) drawn.now (H.function hash.old) (labels_kept work.old wire) wire).sent ∷ [] else [])) gates.new }
    ensures words { length work.new ≡ length work.old }
    ensures bytes { length gates.new ≡ length gates.old }
    ensures kept { H.function hash.new ≡ H.function hash.old }
    ensures asked { Asked H.asks (made_asks (wiring_of table.now.circuit) drawn.now (labels_kept work.old wire) wire) hash.old hash.new }
{
    let circuit = table.circuit();
    let made = garble_wire(hash, &circuit, drawn, work, wire, next);
    keep_label(work, wire, made.label);
    match made.gate {
        Some(sent) => {
            let ciphertexts = ciphertext_bytes(sent.ciphertexts);
            let word = control_word(sent.controls).to_le_bytes();
            write_item(gates, table.garbled(), next, ciphertexts, word);
            next + 1
        }
        None => next,
    }
}

// Garbles all wires. Hash, table, drawn bytes and work words go side by side: a struct of them would be taken apart in each clause.
pub(crate) fn garble_wires<H: Hash>(
    hash: &mut H,
    table: &Table,
    drawn: &[u8],
    work: &mut [u64],
    gates: &mut [u8],
)
    requires words { length work.old ≡ 2 * table.now.circuit.wires }
    requires bytes { length gates.old ≡ 26 * table.now.garbled }
    ensures labels { labels_kept work.new table.now.circuit.wires ≡ falses_of (wiring_of table.now.circuit) drawn.now (H.function hash.old) }
    ensures gates { gates.new ≡ gate_bytes (gates_sent (wiring_of table.now.circuit) drawn.now (H.function hash.old)) }
    ensures words { length work.new ≡ length work.old }
    ensures kept { H.function hash.new ≡ H.function hash.old }
    ensures asked { Asked H.asks (garble_asks (wiring_of table.now.circuit) drawn.now (H.function hash.old)) hash.old hash.new }
{
    // each step asks for the words' length again: a type over lent words would be made and taken apart at each
    // an iterator gives no plainer count: every wire is made, and the garbled ones alone are counted
    let mut next = 0;
    for wire in 0..table.circuit().wires {
        next = garble_step(hash, table, drawn, work, gates, wire, next);
    }
}
