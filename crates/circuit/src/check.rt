// The check of a circuit table: from any bytes to a checked table, or the first fault.

ghost use Rattle.std.specs.Prelude.{◌≡◌, ◌<◌, ◌≤◌, length, is_ok, IfOk, Decides, MatchResult, ◌+◌, ◌*◌};
ghost use Rattle.refusal.specs.Told.{Finds, told};
ghost use Rattle.wires.specs.Wires.{garbled_wires, output_wires};
ghost use Rattle.circuit.specs.Check.{sizes_fault, outputs_fault, input_fault, gate_fault, wire_fault, lowest_fault, table_fault, table_wiring};
ghost use Rattle.circuit.specs.Accepted.{Accepted};
ghost use Rattle.circuit.specs.Read.{rule_of, Holds};
ghost use Rattle.wires.specs.Read.{wiring_of};

use crate::table::Table;
use refusal::Refusal;
use wires::{Circuit, Class};

// The most wires, input wires and outputs that a table may have.
pub const MOST_WIRES: u16 = 1536;

pub const MOST_INPUTS: u16 = 512;

pub const MOST_OUTPUTS: u16 = 256;

// The number of sides that take part.
pub const SIDES: u8 = 2;

// Which truth tables a gate may carry: those of its class, or none where they are kept from the reader.
// An enum of two and no closure: of a closure each caller would have to state what it answers.
#[derive(Clone, Copy)]
pub enum TruthRule {
    ByClass,
    Blank,
}

impl TruthRule {
    fn allows(self, class: Class, truth_table: u8) -> bool
        ensures { result ≡ rule_of self class truth_table }
    {
        match self {
            TruthRule::ByClass => class.allows(truth_table),
            TruthRule::Blank => truth_table == 0,
        }
    }
}

// The four size bytes come off, and the rest is the arrays.
fn split_sizes(bytes: &[u8]) -> Result<Circuit<'_>, Refusal>
    ensures { MatchResult result (λ c. (4 ≤ length bytes.now) × (wiring_of c ≡ table_wiring bytes.now)) (λ e. (length bytes.now < 4) × (told e ≡ (1, 0))) }
{
    let [n0, n1, m0, m1, arrays @ ..] = bytes else {
        return Err(Refusal::SizesCutShort);
    };
    Ok(Circuit {
        wires: u16::from_le_bytes([*n0, *n1]),
        inputs: u16::from_le_bytes([*m0, *m1]),
        arrays,
    })
}

// How many bytes a table of so many wires has.
pub(crate) fn table_length(wires: u16) -> usize
    ensures { result ≡ 4 + 5 * wires }
{
    4 + 5 * usize::from(wires)
}

// The number of outputs lies within the limits.
pub fn check_outputs(outputs: u16) -> Result<(), Refusal>
    ensures { Finds result (outputs_fault outputs) }
{
    if outputs < 1 || outputs > MOST_OUTPUTS {
        return Err(Refusal::OutputCount);
    }
    Ok(())
}

// The numbers of wires and of inputs lie within the limits.
pub fn check_sizes(wires: u16, inputs: u16) -> Result<(), Refusal>
    ensures { Finds result (sizes_fault wires inputs) }
{
    if wires < 1 || wires > MOST_WIRES {
        return Err(Refusal::WireCount);
    }
    if inputs < 1 || inputs > MOST_INPUTS || inputs > wires {
        return Err(Refusal::InputCount);
    }
    Ok(())
}

// An input has a side and no pair.
fn check_input(circuit: &Circuit, wire: u16) -> Result<(), Refusal>
    ensures { Finds result (input_fault (wiring_of circuit.now) wire) }
{
    if circuit.side(wire) >= SIDES {
        return Err(Refusal::Kind {
            wire: u32::from(wire),
        });
    }
    let (first, second) = circuit.pair(wire);
    if first != 0 || second != 0 {
        return Err(Refusal::Pair {
            wire: u32::from(wire),
        });
    }
    Ok(())
}

// A gate reads lower wires and has a truth table that the rule allows to its class.
fn check_gate(circuit: &Circuit, wire: u16, rule: TruthRule) -> Result<(), Refusal>
    ensures { Finds result (gate_fault (rule_of rule) (wiring_of circuit.now) wire) }
{
    if circuit.kind(wire) / 64 % 2 == 1 {
        return Err(Refusal::Kind {
            wire: u32::from(wire),
        });
    }
    let (first, second) = circuit.pair(wire);
    if first >= wire || second >= wire {
        return Err(Refusal::Pair {
            wire: u32::from(wire),
        });
    }
    if !rule.allows(circuit.class(wire), circuit.truth_table(wire)) {
        return Err(Refusal::TruthTable {
            wire: u32::from(wire),
        });
    }
    Ok(())
}

// The fault of one wire.
fn check_wire(circuit: &Circuit, wire: u16, rule: TruthRule) -> Result<(), Refusal>
    ensures { Finds result (wire_fault (rule_of rule) (wiring_of circuit.now) wire) }
{
    if circuit.is_input(wire) {
        check_input(circuit, wire)
    } else {
        check_gate(circuit, wire, rule)
    }
}

// Every wire is sound, or the fault of the lowest faulty one.
pub fn check_wires(circuit: &Circuit, rule: TruthRule) -> Result<(), Refusal>
    ensures { Finds result (lowest_fault (rule_of rule) (wiring_of circuit.now) circuit.now.wires) }
{
    for wire in 0..circuit.wires {
        check_wire(circuit, wire, rule)?;
    }
    Ok(())
}

impl<'a> Table<'a> {
    // The table in these bytes, or its first fault. It passes exactly when it meets every condition.
    pub fn check(bytes: &'a [u8]) -> Result<Table<'a>, Refusal>
        ensures fault { Finds result (table_fault bytes.now) }
        ensures holds { IfOk result (Holds bytes.now) }
        ensures exact { Decides (is_ok result) (Accepted bytes.now) }
    {
        Table::scan(bytes)
    }

    // The steps of the check, each in its order; apart, so that what passes exactly is shown once and not at each return.
    fn scan(bytes: &'a [u8]) -> Result<Table<'a>, Refusal>
        ensures fault { Finds result (table_fault bytes.now) }
        ensures holds { IfOk result (Holds bytes.now) }
    {
        let circuit = split_sizes(bytes)?;
        check_sizes(circuit.wires, circuit.inputs)?;
        if bytes.len() != table_length(circuit.wires) {
            return Err(Refusal::Length);
        }
        check_wires(&circuit, TruthRule::ByClass)?;
        let outputs = circuit.count_outputs();
        check_outputs(outputs)?;
        Ok(Table::counted(circuit, outputs))
    }
}
