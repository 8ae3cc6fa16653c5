// Opening a sitting.

ghost use Rattle.std.specs.Prelude.{◌≡◌, ◌+◌, ◌<◌, ◌≤◌, true, length, is_ok, IfOk, MatchResult};
ghost use Rattle.refusal.specs.Told.{Finds};
ghost use Rattle.label.specs.Hashes.{Asked};
ghost use Rattle.wires.specs.Read.{wiring_of};
ghost use Rattle.circuit.specs.Check.{or_else, table_wiring};
ghost use Rattle.circuit.specs.Public.{PublicOf};
ghost use Rattle.form.specs.Read.{form_wiring};
ghost use Rattle.ledger.specs.Ledger.{empty_ledger, opened_ledger};
ghost use Rattle.ledger.specs.Sheet.{blank_sheet};
ghost use Rattle.garbling.specs.Tape.{need_of, drawn_for};
ghost use Rattle.opening.specs.Opening.{opened_form, opened_store, room_of, tape_fault, equal_output, unless_equal, marks_fault, open_asks, left, zeros, asked_by, open_fault};
ghost use Rattle.opening.specs.Ready.{Ready};
ghost use Rattle.opening.specs.Laws.{Alike, ColoursDiffer};

use crate::fill::{fill_form, fill_sheet, fill_store};
use crate::room::{Room, check_lent};
use crate::tape::{PlaceGuard, Tape};
use circuit::{SIDES, Table};
use garbling::{draw_offset, tape_need};
use label::Hash;
use ledger::Ledger;
use refusal::Refusal;

// The five lent buffers stand one by one down to here, since a struct of them would be taken apart again at each step and clause.

// Fills form, store, sheet and ledger from the drawn bytes; where an output has equal marks, all four are blank, and the answer is that output.
fn fill_buffers<H: Hash>(
    hash: &mut H,
    table: &Table,
    drawn: &[u8],
    side: u8,
    form: &mut [u8],
    store: &mut [u64],
    sheet: &mut [u8],
    ledger: &mut Ledger,
    work: &mut [u64],
) -> Option<u16>
    requires room { Ready table.now (room_of form.old store.old sheet.old work.old) }
    ensures equal { result ≡ equal_output (wiring_of table.now.circuit) drawn.now (H.function hash.old) }
    ensures form { form.new ≡ unless_equal result (opened_form (wiring_of table.now.circuit) drawn.now (H.function hash.old)) (zeros form.old) }
    ensures store { store.new ≡ unless_equal result (opened_store (wiring_of table.now.circuit) drawn.now (H.function hash.old)) (zeros store.old) }
    ensures sheet { sheet.new ≡ unless_equal result (blank_sheet table.now.circuit.inputs) (zeros sheet.old) }
    ensures ledger { ledger.new ≡ unless_equal result (opened_ledger side (wiring_of table.now.circuit)) empty_ledger }
    ensures kept { H.function hash.new ≡ H.function hash.old }
    ensures asked { Asked H.asks (open_asks (wiring_of table.now.circuit) drawn.now (H.function hash.old)) hash.old hash.new }
{
    match fill_form(hash, table, drawn, work, form) {
        Some(wire) => {
            form.fill(0);
            store.fill(0);
            sheet.fill(0);
            ledger.clear();
            Some(wire)
        }
        None => {
            let circuit = table.circuit();
            fill_store(store, draw_offset(drawn), work, circuit.inputs);
            fill_sheet(sheet, circuit.inputs);
            ledger.fill(side, &circuit);
            None
        }
    }
}

// Draws from the tape under a guard, and fills the buffers.
fn open_guarded<H: Hash>(
    tape: &mut Tape,
    hash: &mut H,
    table: &Table,
    side: u8,
    form: &mut [u8],
    store: &mut [u64],
    sheet: &mut [u8],
    ledger: &mut Ledger,
    work: &mut [u64],
) -> Result<(), Refusal>
    requires room { Ready table.now (room_of form.old store.old sheet.old work.old) }
    ensures fault { Finds result (or_else (tape_fault (wiring_of table.now.circuit) tape.old.bytes.now tape.old.place) (marks_fault (equal_output (wiring_of table.now.circuit) (drawn_for (wiring_of table.now.circuit) tape.old.bytes.now tape.old.place) (H.function hash.old)))) }
    ensures place { tape.new.place ≡ left result (tape.old.place + need_of (wiring_of table.now.circuit)) tape.old.place tape.old.place }
    ensures tape { tape.new.bytes ≡ tape.old.bytes }
    ensures form { form.new ≡ left result (opened_form (wiring_of table.now.circuit) (drawn_for (wiring_of table.now.circuit) tape.old.bytes.now tape.old.place) (H.function hash.old)) (zeros form.old) form.old }
    ensures store { store.new ≡ left result (opened_store (wiring_of table.now.circuit) (drawn_for (wiring_of table.now.circuit) tape.old.bytes.now tape.old.place) (H.function hash.old)) (zeros store.old) store.old }
    ensures sheet { sheet.new ≡ left result (blank_sheet table.now.circuit.inputs) (zeros sheet.old) sheet.old }
    ensures ledger { ledger.new ≡ left result (opened_ledger side (wiring_of table.now.circuit)) empty_ledger ledger.old }
    ensures kept { H.function hash.new ≡ H.function hash.old }
    ensures asked { Asked H.asks (asked_by result (open_asks (wiring_of table.now.circuit) (drawn_for (wiring_of table.now.circuit) tape.old.bytes.now tape.old.place) (H.function hash.old))) hash.old hash.new }
{
    let circuit = table.circuit();
    let need = tape_need(circuit.inputs, table.garbled());
    let bytes = tape.bytes;
    let mut guard = PlaceGuard::start(&mut tape.place);
    let at = *guard.place;
    if bytes.len().saturating_sub(at) < need {
        return Err(Refusal::TapeShort);
    }
    *guard.place = at + need;
    let drawn = &bytes[at..at + need];
    let equal = fill_buffers(hash, table, drawn, side, form, store, sheet, ledger, work);
    if let Some(wire) = equal {
        return Err(Refusal::EqualMarks {
            wire: u32::from(wire),
        });
    }
    guard.mark_done();
    Ok(())
}

// An open sitting: whose it is, and how many input wires it has.
#[derive(Drop)]
pub struct OpenSitting {
    side: u8,
    inputs: u16,
}

// The side of this number, if there is one.
fn side_of(side: u32) -> Result<u8, Refusal>
    ensures { MatchResult result (λ s. (s ≡ side) × (side < SIDES)) (λ e. (SIDES ≤ side) × (e ≡ Refusal.NoSuchSide)) }
{
    match u8::try_from(side) {
        Ok(side) if side < SIDES => Ok(side),
        _ => Err(Refusal::NoSuchSide),
    }
}

// The steps of an opening, each in its order; apart, so that the work words are wiped once and not at each return.
fn open_lent<H: Hash>(
    side: u32,
    table: &[u8],
    tape: &mut Tape,
    hash: &mut H,
    form: &mut [u8],
    store: &mut [u64],
    sheet: &mut [u8],
    ledger: &mut Ledger,
    work: &mut [u64],
) -> Result<OpenSitting, Refusal>
    ensures fault { Finds result (open_fault side table.now (room_of form.old store.old sheet.old work.old) tape.old.bytes.now tape.old.place (H.function hash.old)) }
    ensures sitting { IfOk result (λ s. (s.side ≡ side) × (s.inputs ≡ (table_wiring table.now).inputs)) }
    ensures place { tape.new.place ≡ left result (tape.old.place + need_of (table_wiring table.now)) tape.old.place tape.old.place }
    ensures tape { tape.new.bytes ≡ tape.old.bytes }
    ensures form { form.new ≡ left result (opened_form (table_wiring table.now) (drawn_for (table_wiring table.now) tape.old.bytes.now tape.old.place) (H.function hash.old)) (zeros form.old) form.old }
    ensures store { store.new ≡ left result (opened_store (table_wiring table.now) (drawn_for (table_wiring table.now) tape.old.bytes.now tape.old.place) (H.function hash.old)) (zeros store.old) store.old }
    ensures sheet { sheet.new ≡ left result (blank_sheet (table_wiring table.now).inputs) (zeros sheet.old) sheet.old }
    ensures ledger { ledger.new ≡ left result (opened_ledger side (table_wiring table.now)) empty_ledger ledger.old }
    ensures words { length work.new ≡ length work.old }
    ensures kept { H.function hash.new ≡ H.function hash.old }
    ensures asked { Asked H.asks (asked_by result (open_asks (table_wiring table.now) (drawn_for (table_wiring table.now) tape.old.bytes.now tape.old.place) (H.function hash.old))) hash.old hash.new }
{
    let side = side_of(side)?;
    let room = Room {
        form: form.len(),
        store: store.len(),
        sheet: sheet.len(),
        work: work.len(),
    };
    let table = check_lent(table, room)?;
    open_guarded(tape, hash, &table, side, form, store, sheet, ledger, work)?;
    Ok(OpenSitting {
        side,
        inputs: table.circuit().inputs,
    })
}

// Opens a sitting as one side: form, store, sheet and ledger are filled from the table and the tape, the tape's place moves on, and every work word is zero.
pub fn open<H: Hash>(
    side: u32,
    table: &[u8],
    tape: &mut Tape,
    hash: &mut H,
    form: &mut [u8],
    store: &mut [u64],
    sheet: &mut [u8],
    ledger: &mut Ledger,
    work: &mut [u64],
) -> Result<OpenSitting, Refusal>
    ensures fault { Finds result (open_fault side table.now (room_of form.old store.old sheet.old work.old) tape.old.bytes.now tape.old.place (H.function hash.old)) }
    ensures sitting { IfOk result (λ s. (s.side ≡ side) × (s.inputs ≡ (table_wiring table.now).inputs)) }
    ensures place { tape.new.place ≡ left result (tape.old.place + need_of (table_wiring table.now)) tape.old.place tape.old.place }
    ensures tape { tape.new.bytes ≡ tape.old.bytes }
    ensures form { form.new ≡ left result (opened_form (table_wiring table.now) (drawn_for (table_wiring table.now) tape.old.bytes.now tape.old.place) (H.function hash.old)) (zeros form.old) form.old }
    ensures store { store.new ≡ left result (opened_store (table_wiring table.now) (drawn_for (table_wiring table.now) tape.old.bytes.now tape.old.place) (H.function hash.old)) (zeros store.old) store.old }
    ensures sheet { sheet.new ≡ left result (blank_sheet (table_wiring table.now).inputs) (zeros sheet.old) sheet.old }
    ensures ledger { ledger.new ≡ left result (opened_ledger side (table_wiring table.now)) empty_ledger ledger.old }
    ensures work { work.new ≡ zeros work.old }
    ensures kept { H.function hash.new ≡ H.function hash.old }
    ensures asked { Asked H.asks (asked_by result (open_asks (table_wiring table.now) (drawn_for (table_wiring table.now) tape.old.bytes.now tape.old.place) (H.function hash.old))) hash.old hash.new }
    ensures shows { is_ok result ≡ true → PublicOf (table_wiring table.now) (form_wiring form.new) }
    ensures alike { Alike }
    ensures colours { ColoursDiffer }
{
    let opened = open_lent(side, table, tape, hash, form, store, sheet, ledger, work);
    work.fill(0);
    opened
}
