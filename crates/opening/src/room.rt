// What an opening is lent, checked before anything is drawn: the table, and the lengths of the buffers.

ghost use Rattle.std.specs.Prelude.{IfOk};
ghost use Rattle.refusal.specs.Told.{Finds};
ghost use Rattle.circuit.specs.Read.{Holds};
ghost use Rattle.opening.specs.Opening.{room_fault_for, lent_fault};
ghost use Rattle.opening.specs.Ready.{Ready, Early};

use circuit::Table;
use form::form_length;
use ledger::{sheet_length, store_length};
use refusal::{Buffer, Refusal, check_length};

// The lengths of the lent buffers.
#[derive(Clone, Copy)]
pub(crate) struct Room {
    pub(crate) form: usize,
    pub(crate) store: usize,
    pub(crate) sheet: usize,
    pub(crate) work: usize,
}

// Every buffer has the length that the table wants, or the first that has not is named.
fn check_room(table: &Table, room: Room) -> Result<(), Refusal>
    ensures { Finds result (room_fault_for table.now.circuit.wires table.now.circuit.inputs table.now.garbled table.now.outputs room) }
{
    let circuit = table.circuit();
    let form = form_length(circuit.wires, table.garbled(), table.outputs());
    let work = 2 * usize::from(circuit.wires);
    check_length(room.form, form, Buffer::Form)?;
    check_length(room.store, store_length(circuit.inputs), Buffer::Store)?;
    check_length(room.sheet, sheet_length(circuit.inputs), Buffer::Sheet)?;
    check_length(room.work, work, Buffer::Work)
}

// The table is sound and every buffer fits, or the first fault.
pub(crate) fn check_lent(bytes: &[u8], room: Room) -> Result<Table<'_>, Refusal>
    ensures fault { Finds result (lent_fault bytes.now room) }
    ensures holds { IfOk result (Holds bytes.now) }
    ensures ready { IfOk result (λ t. Ready t room) }
    ensures early { Early result }
{
    let table = Table::check(bytes)?;
    check_room(&table, room)?;
    Ok(table)
}
