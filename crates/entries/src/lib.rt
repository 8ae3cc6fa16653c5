// The calls of an open sitting: a bit is entered, changed and released, and the sitting is closed.
#![tactic(auto)]

ghost use Rattle.std.specs.Prelude.{◌≡◌, ◌+◌, ◌*◌, ◌<◌, length, is_ok, IfOk, if◌then◌else◌};
ghost use Rattle.refusal.specs.Told.{Finds};
ghost use Rattle.label.specs.Sums.{halves};
ghost use Rattle.gate.specs.Sums.{shifted};
ghost use Rattle.circuit.specs.Check.{or_else};
ghost use Rattle.ledger.specs.Entries.{act_fault};
ghost use Rattle.ledger.specs.Ledger.{entry_at, moved};
ghost use Rattle.ledger.specs.Store.{stored_offset, stored_label, without_label};
ghost use Rattle.ledger.specs.Sheet.{with_label};
ghost use Rattle.entries.specs.Steps.{store_fault, input_fault, side_fault, given_fault, wire_fault, enter_fault, enter_after, change_fault, change_after, release_fault, release_after, label_for, close_fault, zeroed};
ghost use Rattle.entries.specs.Closing.{FindsOrBack, Counts};
ghost use Rattle.entries.specs.OneLabel.{OneLabel, CountsLines};
ghost use Rattle.entries.specs.Sample.{SampleKept};

use gate::shift;
use label::{Label, to_bytes};
use ledger::{Act, ENTRIES, Ledger, sheet_length, store_length};
use opening::OpenSitting;
use refusal::{Buffer, Refusal, check_length};

// A closed sitting: how many entries still waited, and how many labels were released.
#[derive(Drop)]
pub struct ClosedSitting {
    waiting: u16,
    released: u16,
}

impl ClosedSitting {
    // How many entries still waited.
    pub fn waiting(&self) -> u16
        ensures { result ≡ self.now.waiting }
    {
        self.waiting
    }

    // How many labels were released.
    pub fn released(&self) -> u16
        ensures { result ≡ self.now.released }
    {
        self.released
    }
}

// The number given is an input wire of the ledger.
fn check_input(ledger: &Ledger, wire: u32) -> Result<(), Refusal>
    ensures { Finds result (input_fault ledger.now wire) }
{
    if wire >= u32::from(ledger.inputs()) || wire as usize >= ENTRIES {
        return Err(Refusal::NoSuchInput { given: wire });
    }
    Ok(())
}

// The wire is of the ledger's own side.
fn check_side(ledger: &Ledger, wire: u32) -> Result<(), Refusal>
    ensures { Finds result (side_fault ledger.now wire) }
{
    if ledger.owner(wire) != ledger.side() {
        return Err(Refusal::OtherSide { wire });
    }
    Ok(())
}

// A wire and a bit for it, as given.
fn check_bit(ledger: &Ledger, wire: u32, bit: u32) -> Result<(), Refusal>
    ensures { Finds result (given_fault ledger.now wire bit) }
{
    check_input(ledger, wire)?;
    if bit > 1 {
        return Err(Refusal::NoBit { wire });
    }
    check_side(ledger, wire)
}

// A wire and a bit for it are checked as given, and the act is done on the wire's entry.
fn set_bit(ledger: &mut Ledger, wire: u32, bit: u32, act: Act) -> Result<(), Refusal>
    ensures fault { Finds result (or_else (given_fault ledger.old wire bit) (act_fault (entry_at ledger.old wire) act wire)) }
    ensures ledger { ledger.new ≡ (if is_ok result then moved ledger.old wire act else ledger.old) }
{
    check_bit(ledger, wire, bit)?;
    ledger.move_entry(wire, act)?;
    Ok(())
}

// The calls are lent ledger, store and sheet apart and take a wire: the project asks for these parameters.

// A bit is entered on a wire that has none.
pub fn enter(
    _sitting: &OpenSitting,
    ledger: &mut Ledger,
    wire: u32,
    bit: u32,
) -> Result<(), Refusal>
    ensures fault { Finds result (enter_fault ledger.old wire bit) }
    ensures ledger { ledger.new ≡ (if is_ok result then enter_after ledger.old wire bit else ledger.old) }
{
    set_bit(ledger, wire, bit, Act::Enter { bit: bit == 1 })
}

// A bit that waits is changed.
pub fn change(
    _sitting: &OpenSitting,
    ledger: &mut Ledger,
    wire: u32,
    bit: u32,
) -> Result<(), Refusal>
    ensures fault { Finds result (change_fault ledger.old wire bit) }
    ensures ledger { ledger.new ≡ (if is_ok result then change_after ledger.old wire bit else ledger.old) }
{
    set_bit(ledger, wire, bit, Act::Change { bit: bit == 1 })
}

// A wire, as given.
fn check_wire(ledger: &Ledger, wire: u32) -> Result<(), Refusal>
    ensures { Finds result (wire_fault ledger.now wire) }
{
    check_input(ledger, wire)?;
    check_side(ledger, wire)
}

// A store of so many words has as many as the ledger's number of inputs asks for.
fn check_store(ledger: &Ledger, words: usize) -> Result<(), Refusal>
    ensures { Finds result (store_fault ledger.now words) }
{
    check_length(words, store_length(ledger.inputs()), Buffer::Store)
}

// The label of a wire for a bit is taken out of the store: its two words are zero after.
fn take_label(store: &mut [u64], wire: u32, bit: bool) -> Label
    requires { 3 + 2 * wire < length store.old }
    ensures label { result ≡ shifted halves (stored_offset store.old) (stored_label store.old wire) bit }
    ensures store { store.new ≡ without_label store.old wire }
{
    let at = 2 + 2 * wire as usize;
    let label = shift((store[0], store[1]), (store[at], store[at + 1]), bit);
    store[at..at + 2].copy_from_slice(&[0, 0]);
    label
}

// A label is written on the sheet of so many inputs: its mark, and its bytes in its room.
fn show_label(sheet: &mut [u8], inputs: u16, wire: u32, label: Label)
    requires { (wire < inputs) × (length sheet.old ≡ 2 + 17 * inputs) }
    ensures { sheet.new ≡ with_label inputs sheet.old wire label }
{
    sheet[2 + wire as usize] = 1;
    let room = 2 + usize::from(inputs) + 16 * wire as usize;
    sheet[room..room + 16].copy_from_slice(&to_bytes(label));
}

// The bit that waits on a wire is released: its label goes from the store to the sheet, and the entry is released.
pub fn release(
    _sitting: &OpenSitting,
    ledger: &mut Ledger,
    store: &mut [u64],
    sheet: &mut [u8],
    wire: u32,
) -> Result<(), Refusal>
    ensures fault { Finds result (release_fault ledger.old (length store.old) (length sheet.old) wire) }
    ensures ledger { ledger.new ≡ (if is_ok result then release_after ledger.old wire else ledger.old) }
    ensures store { store.new ≡ (if is_ok result then without_label store.old wire else store.old) }
    ensures sheet { sheet.new ≡ (if is_ok result then with_label ledger.old.inputs sheet.old wire (label_for ledger.old store.old wire) else sheet.old) }
{
    let inputs = ledger.inputs();
    check_store(ledger, store.len())?;
    check_length(sheet.len(), sheet_length(inputs), Buffer::Sheet)?;
    check_wire(ledger, wire)?;
    let bit = ledger.move_entry(wire, Act::Release)?;
    let label = take_label(store, wire, bit);
    show_label(sheet, inputs, wire, label);
    Ok(())
}

// The sitting is closed: the store is zero after, and what is left are the counts of the entries that wait and that are released.
// They are the counts of every book that led here, in which each wire has at most one label.
pub fn close(
    sitting: OpenSitting,
    ledger: &Ledger,
    store: &mut [u64],
) -> Result<ClosedSitting, (OpenSitting, Refusal)>
    ensures fault { FindsOrBack sitting result (close_fault ledger.now (length store.old)) }
    ensures counts { IfOk result (Counts ledger.now) }
    ensures store { store.new ≡ (if is_ok result then zeroed store.old else store.old) }
    ensures lines { IfOk result (CountsLines ledger.now) }
    ensures book { OneLabel }
    ensures sample { SampleKept }
{
    check_store(ledger, store.len()).map_err(|refusal| (sitting, refusal))?;
    store.fill(0);
    Ok(ClosedSitting {
        waiting: ledger.count_waiting(),
        released: ledger.count_released(),
    })
}
