// The wires of a circuit, read from the arrays of a table or a form. Every reader answers for every wire and all bytes.
#![tactic(auto)]

ghost use Rattle.std.specs.Prelude.{◌≡◌, ◌%◌, length};
ghost use Rattle.wires.specs.Wires.{truth, allowed, kind_at, side_at, class_at, class_of, truth_at, first_at, second_at, is_input, is_output, is_garbled, output_wires, garbled_wires};
ghost use Rattle.wires.specs.Read.{wiring_of};

use slices::{item_or, short_at};

// How a gate is garbled: not at all, by the parity of its truth table, or with the parity kept secret.
#[derive(Clone, Copy, PartialEq, Eq, Debug)]
pub enum Class {
    Free,
    Even,
    Odd,
    Hidden,
}

impl Class {
    // The class of a number, of which the two low bits count: named, for a From would hide that the others do not.
    fn from_bits(bits: u8) -> Class
        ensures { result ≡ class_of (bits % 4) }
    {
        match bits % 4 {
            0 => Class::Free,
            1 => Class::Even,
            2 => Class::Odd,
            _ => Class::Hidden,
        }
    }

    // Whether a gate of this class may have this truth table.
    pub fn allows(self, truth_table: u8) -> bool
        ensures { result ≡ allowed self truth_table }
    {
        match self {
            Class::Free => truth_table == 6,
            Class::Even => truth_table.count_ones() % 2 == 0,
            Class::Odd => truth_table.count_ones() % 2 == 1,
            Class::Hidden => true,
        }
    }
}

// What a truth table gives at two bits.
pub fn look_up(truth_table: u8, u: bool, v: bool) -> bool
    ensures { result ≡ truth truth_table u v }
{
    (truth_table >> (2 * u8::from(u) + u8::from(v))) % 2 == 1
}

// A number of wires, of which the first are inputs, and the arrays: a kind byte for each wire, then a pair of wires for each.
// The sizes stand beside the bytes since a table may be shorter than they say; every reader answers for that too.
#[derive(Clone, Copy)]
pub struct Circuit<'a> {
    pub wires: u16,
    pub inputs: u16,
    pub arrays: &'a [u8],
}

impl Circuit<'_> {
    // The kind byte of a wire.
    pub fn kind(&self, wire: u16) -> u8
        ensures { result ≡ kind_at (wiring_of self.now) wire }
    {
        item_or(self.arrays, usize::from(wire), 0)
    }

    // Whether a wire is an input; the others are gates.
    pub fn is_input(&self, wire: u16) -> bool
        ensures { result ≡ is_input (wiring_of self.now) wire }
    {
        wire < self.inputs
    }

    // Whether a wire is marked as an output.
    pub fn is_output(&self, wire: u16) -> bool
        ensures { result ≡ is_output (wiring_of self.now) wire }
    {
        self.kind(wire) >> 7 == 1
    }

    // The side that an input belongs to: a number, for the format has 7 bits for it and every reader answers for all bytes.
    pub fn side(&self, wire: u16) -> u8
        ensures { result ≡ side_at (wiring_of self.now) wire }
    {
        self.kind(wire) % 128
    }

    // The class of a gate.
    pub fn class(&self, wire: u16) -> Class
        ensures { result ≡ class_at (wiring_of self.now) wire }
    {
        Class::from_bits(self.kind(wire) >> 4)
    }

    // Whether a wire is a gate that costs ciphertexts and hash queries.
    pub fn is_garbled(&self, wire: u16) -> bool
        ensures { result ≡ is_garbled (wiring_of self.now) wire }
    {
        !self.is_input(wire) && self.class(wire) != Class::Free
    }

    // The truth table of a gate.
    pub fn truth_table(&self, wire: u16) -> u8
        ensures { result ≡ truth_at (wiring_of self.now) wire }
    {
        self.kind(wire) % 16
    }

    // The two wires that a gate reads.
    pub fn pair(&self, wire: u16) -> (u16, u16)
        ensures { result ≡ (first_at (wiring_of self.now) wire, second_at (wiring_of self.now) wire) }
    {
        let at = u32::from(self.wires) + 4 * u32::from(wire);
        (short_at(self.arrays, at), short_at(self.arrays, at + 2))
    }

    // The number of outputs. A chain here and one below: shared, the test would be a parameter with clauses of its own.
    pub fn count_outputs(&self) -> u16
        ensures { result ≡ length (output_wires (wiring_of self.now)) }
    {
        (0..self.wires)
            .map(|wire| u16::from(self.is_output(wire)))
            .sum()
    }

    // The number of gates that are garbled.
    pub fn count_garbled(&self) -> u16
        ensures { result ≡ length (garbled_wires (wiring_of self.now)) }
    {
        (0..self.wires)
            .map(|wire| u16::from(self.is_garbled(wire)))
            .sum()
    }
}
