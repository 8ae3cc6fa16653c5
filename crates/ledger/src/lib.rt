// The ledger of a sitting: whose it is, whose each input wire is, and how far each input has come.
#![tactic(auto)]

ghost use Rattle.std.specs.Prelude.{◌≡◌, ◌<◌, is_ok, IfOk, if◌then◌else◌};
ghost use Rattle.refusal.specs.Told.{Finds};
ghost use Rattle.wires.specs.Read.{wiring_of};
ghost use Rattle.ledger.specs.Entries.{act_fault, act_after, act_bit};
ghost use Rattle.ledger.specs.Store.{store_length};
ghost use Rattle.ledger.specs.Sheet.{sheet_length};
ghost use Rattle.ledger.specs.Ledger.{empty_ledger, opened_ledger, owner_of, owners_of, owner_at, entry_at, move_fault, moved, waiting_in, released_in};

use refusal::Refusal;
use slices::item_or;
use std::array;
use wires::Circuit;

// The number of entries: one for each input wire that a circuit may have.
pub const ENTRIES: usize = 512;

// How many words the store of a sitting has, for this many inputs.
pub fn store_length(inputs: u16) -> usize
    ensures { result ≡ store_length inputs }
{
    2 + 2 * usize::from(inputs)
}

// How many bytes a sheet has, for this many inputs.
pub fn sheet_length(inputs: u16) -> usize
    ensures { result ≡ sheet_length inputs }
{
    2 + 17 * usize::from(inputs)
}

// How far an input has come: no bit, a bit that may still change, or its label released.
#[derive(Clone, Copy)]
pub enum Entry {
    Empty,
    Waiting { bit: bool },
    Released,
}

// What a call does to an entry.
#[derive(Clone, Copy)]
pub enum Act {
    Enter { bit: bool },
    Change { bit: bool },
    Release,
}

// The entry's state and the act together decide: the entry moves on, and the answer is the bit that it stands for.
fn decide(entry: &mut Entry, act: Act, wire: u32) -> Result<bool, Refusal>
    ensures fault { Finds result (act_fault entry.old act wire) }
    ensures after { entry.new ≡ (if is_ok result then act_after entry.old act else entry.old) }
    ensures bit { IfOk result (λ b. b ≡ act_bit entry.old act) }
{
    match (*entry, act) {
        (Entry::Empty, Act::Enter { bit }) | (Entry::Waiting { .. }, Act::Change { bit }) => {
            *entry = Entry::Waiting { bit };
            Ok(bit)
        }
        (Entry::Waiting { bit }, Act::Release) => {
            *entry = Entry::Released;
            Ok(bit)
        }
        (Entry::Waiting { .. }, Act::Enter { .. }) => Err(Refusal::AlreadyWaiting { wire }),
        (Entry::Empty, Act::Change { .. } | Act::Release) => Err(Refusal::NoEntry { wire }),
        (Entry::Released, _) => Err(Refusal::AlreadyReleased { wire }),
    }
}

// The own side, the number of input wires, and for each of 512 wires the side that it belongs to and its entry.
// No model: contracts speak of each of the four, so its value would be the same record again.
#[derive(Drop)]
pub struct Ledger {
    side: u8,
    inputs: u16,
    // beside the entries: a rule of the project asks for a table of entries alone, one of which is lent
    sides: [u8; ENTRIES],
    entries: [Entry; ENTRIES],
}

// The side of an input wire of a circuit, 0 past the last.
fn owner_of(circuit: &Circuit, wire: u16) -> u8
    ensures { result ≡ owner_of (wiring_of circuit.now) wire }
{
    if circuit.is_input(wire) {
        circuit.side(wire)
    } else {
        0
    }
}

// The sides of a circuit's inputs, 0 past the last.
fn owners_of(circuit: &Circuit) -> [u8; ENTRIES]
    ensures { result ≡ owners_of (wiring_of circuit.now) ENTRIES }
{
    array::from_fn(|wire| owner_of(circuit, wire as u16))
}

impl Ledger {
    // The ledger of no sitting.
    pub fn new() -> Ledger
        ensures { result ≡ empty_ledger }
    {
        Ledger {
            side: 0,
            inputs: 0,
            sides: [0; ENTRIES],
            entries: [Entry::Empty; ENTRIES],
        }
    }

    // Made the ledger of a sitting that opens: this side's, over this circuit's inputs, every entry empty.
    pub fn fill(&mut self, side: u8, circuit: &Circuit)
        ensures { self.new ≡ opened_ledger side (wiring_of circuit.now) }
    {
        *self = Ledger {
            side,
            inputs: circuit.inputs,
            sides: owners_of(circuit),
            ..Ledger::new()
        };
    }

    // Made the ledger of no sitting.
    pub fn clear(&mut self)
        ensures { self.new ≡ empty_ledger }
    {
        *self = Ledger::new();
    }

    // The own side.
    pub fn side(&self) -> u8
        ensures { result ≡ self.now.side }
    {
        self.side
    }

    // The number of input wires.
    pub fn inputs(&self) -> u16
        ensures { result ≡ self.now.inputs }
    {
        self.inputs
    }

    // The side that an input wire belongs to, 0 past the last.
    pub fn owner(&self, wire: u32) -> u8
        ensures { result ≡ owner_at self.now wire }
    {
        item_or(&self.sides, wire as usize, 0)
    }

    // The entry of a wire; past the last it is empty.
    pub fn entry(&self, wire: u32) -> Entry
        ensures { result ≡ entry_at self.now wire }
    {
        item_or(&self.entries, wire as usize, Entry::Empty)
    }

    // One entry is lent to the act, and the others stay; the answer is the bit that the entry stands for.
    pub fn move_entry(&mut self, wire: u32, act: Act) -> Result<bool, Refusal>
        ensures fault { Finds result (move_fault self.old wire act) }
        ensures ledger { self.new ≡ (if is_ok result then moved self.old wire act else self.old) }
        ensures bit { IfOk result (λ b. b ≡ act_bit (entry_at self.old wire) act) }
    {
        if wire as usize >= ENTRIES {
            return Err(Refusal::NoSuchInput { given: wire });
        }
        decide(&mut self.entries[wire as usize], act, wire)
    }

    // How many entries wait. A chain here and one below: shared, the test would be a parameter with clauses of its own.
    pub fn count_waiting(&self) -> u16
        ensures { result ≡ waiting_in self.now }
    {
        self.entries
            .iter()
            .map(|entry| u16::from(matches!(entry, Entry::Waiting { .. })))
            .sum()
    }

    // How many entries are released.
    pub fn count_released(&self) -> u16
        ensures { result ≡ released_in self.now }
    {
        self.entries
            .iter()
            .map(|entry| u16::from(matches!(entry, Entry::Released)))
            .sum()
    }
}
