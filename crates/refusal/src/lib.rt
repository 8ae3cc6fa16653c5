// The refusals: one case for each cause for which a call may say no, with its number and place.
#![tactic(auto)]

ghost use Rattle.std.specs.Prelude.{◌≡◌, Some};
ghost use Rattle.refusal.specs.Told.{Finds, told, place_of, length_fault, words_of};

use std::fmt;

// A lent buffer, or a key, whose length a call asks for.
#[derive(Clone, Copy, Debug)]
pub enum Buffer {
    Form = 1,
    Store,
    // the caller's own sheet, or side 0's where both sheets are lent
    Sheet,
    Work,
    Outputs,
    Key,
    // side 1's sheet where both sheets are lent
    OtherSheet,
}

// Why a call said no. A wire is given by its number in the table.
#[derive(Clone, Copy, Debug)]
pub enum Refusal {
    // fewer bytes than the sizes take
    SizesCutShort,
    // the number of wires is out of range
    WireCount,
    // the number of input wires is out of range
    InputCount,
    // the length does not follow from the sizes
    Length,
    // a kind byte has bits that its wire cannot have
    Kind { wire: u32 },
    // a pair that an input cannot have, or that does not lie below its gate
    Pair { wire: u32 },
    // a truth table that the gate's class does not allow
    TruthTable { wire: u32 },
    // the number of outputs is out of range, or not the one stated
    OutputCount,
    // the number of gates of classes 1 to 3 is not the one stated
    GateCount,
    // a lent buffer or a key has the wrong length
    WrongLength { buffer: Buffer },
    // no such side
    NoSuchSide,
    // no such input wire: the number that was given
    NoSuchInput { given: u32 },
    // a bit that is neither 0 nor 1, for this wire
    NoBit { wire: u32 },
    // control bits that must be zero
    ControlBits { wire: u32 },
    // a sheet for another number of input wires
    SheetInputs,
    // a mark on a sheet that is neither 0 nor 1, or on a wire of another side
    SheetMark { wire: u32 },
    // an output label that meets neither of its marks
    NeitherMark { wire: u32 },
    // a script line of no known shape, counted from 1
    ScriptLine { line: u32 },
    // a script of too many bytes
    ScriptLength,
    // less tape is left than the opening needs
    TapeShort,
    // a wire of another side
    OtherSide { wire: u32 },
    // a wire whose label is released
    AlreadyReleased { wire: u32 },
    // an entry on a wire that has one waiting
    AlreadyWaiting { wire: u32 },
    // a change or a release on a wire with no entry
    NoEntry { wire: u32 },
    // an output whose two marks are equal
    EqualMarks { wire: u32 },
    // an input wire whose label has not come
    LabelMissing { wire: u32 },
    // a script command before what it needs, or once too often
    ScriptOrder,
}

impl Buffer {
    // The place that names this buffer in a refusal for its length.
    fn place(self) -> u32
        ensures { result ≡ place_of self }
    {
        self as u32
    }
}

impl Refusal {
    // The number of the cause; written out, since a case that holds a value has no number of its own.
    pub fn number(self) -> u8
        ensures { result ≡ (told self).0 }
    {
        match self {
            Refusal::SizesCutShort => 1,
            Refusal::WireCount => 2,
            Refusal::InputCount => 3,
            Refusal::Length => 4,
            Refusal::Kind { .. } => 5,
            Refusal::Pair { .. } => 6,
            Refusal::TruthTable { .. } => 7,
            Refusal::OutputCount => 8,
            Refusal::GateCount => 9,
            Refusal::WrongLength { .. } => 10,
            Refusal::NoSuchSide => 11,
            Refusal::NoSuchInput { .. } => 12,
            Refusal::NoBit { .. } => 13,
            Refusal::ControlBits { .. } => 14,
            Refusal::SheetInputs | Refusal::SheetMark { .. } => 15,
            Refusal::NeitherMark { .. } => 16,
            Refusal::ScriptLine { .. } => 17,
            Refusal::ScriptLength => 18,
            Refusal::TapeShort => 31,
            Refusal::OtherSide { .. } => 32,
            Refusal::AlreadyReleased { .. } => 33,
            Refusal::AlreadyWaiting { .. } => 34,
            Refusal::NoEntry { .. } => 35,
            Refusal::EqualMarks { .. } => 36,
            Refusal::LabelMissing { .. } => 37,
            Refusal::ScriptOrder => 38,
        }
    }

    // The place: the wire, buffer or line that the cause names, else 0.
    pub fn place(self) -> u32
        ensures { result ≡ (told self).1 }
    {
        match self {
            Refusal::Kind { wire }
            | Refusal::Pair { wire }
            | Refusal::TruthTable { wire }
            | Refusal::NoBit { wire }
            | Refusal::ControlBits { wire }
            | Refusal::SheetMark { wire }
            | Refusal::NeitherMark { wire }
            | Refusal::OtherSide { wire }
            | Refusal::AlreadyReleased { wire }
            | Refusal::AlreadyWaiting { wire }
            | Refusal::NoEntry { wire }
            | Refusal::EqualMarks { wire }
            | Refusal::LabelMissing { wire } => wire,
            Refusal::WrongLength { buffer } => buffer.place(),
            Refusal::NoSuchInput { given } => given,
            Refusal::ScriptLine { line } => line,
            Refusal::SizesCutShort
            | Refusal::WireCount
            | Refusal::InputCount
            | Refusal::Length
            | Refusal::OutputCount
            | Refusal::GateCount
            | Refusal::NoSuchSide
            | Refusal::SheetInputs
            | Refusal::ScriptLength
            | Refusal::TapeShort
            | Refusal::ScriptOrder => 0,
        }
    }
}

// The refusal in words.
impl fmt::Display for Refusal {
    ghost output = { λ refusal. Some (words_of refusal) };

    fn fmt<W: fmt::Write>(&self, f: &mut fmt::Formatter<W>) -> fmt::Result {
        f.write_str(match self {
            Refusal::SizesCutShort => "fewer bytes than the sizes take",
            Refusal::WireCount => "the number of wires is not 1 to 1536",
            Refusal::InputCount => "the number of inputs is not 1 to 512, or exceeds the wires",
            Refusal::Length => "the length does not follow from the number of wires",
            Refusal::Kind { .. } => "a kind with bits that its wire cannot have",
            Refusal::Pair { .. } => "a pair on an input, or one that does not lie below its gate",
            Refusal::TruthTable { .. } => "a truth table that the gate's class does not allow",
            Refusal::OutputCount => "the number of outputs is not 1 to 256",
            Refusal::GateCount => "the number of garbled gates is not the one stated",
            Refusal::WrongLength { .. } =>
                "a buffer or a key of another length than the one wanted",
            Refusal::NoSuchSide => "no such side",
            Refusal::NoSuchInput { .. } => "no such input wire",
            Refusal::NoBit { .. } => "a bit that is neither 0 nor 1",
            Refusal::ControlBits { .. } => "control bits that must be zero",
            Refusal::SheetInputs => "a sheet for another number of inputs",
            Refusal::SheetMark { .. } => "a mark that its wire cannot have on this sheet",
            Refusal::NeitherMark { .. } => "an output label that meets neither of its marks",
            Refusal::ScriptLine { .. } => "a line of no known shape",
            Refusal::ScriptLength => "a script of too many bytes",
            Refusal::TapeShort => "less tape is left than the opening needs",
            Refusal::OtherSide { .. } => "a wire of another side",
            Refusal::AlreadyReleased { .. } => "a wire whose label is released",
            Refusal::AlreadyWaiting { .. } => "a wire that has an entry waiting",
            Refusal::NoEntry { .. } => "a wire with no entry",
            Refusal::EqualMarks { .. } => "an output whose two marks are equal",
            Refusal::LabelMissing { .. } => "an input wire whose label has not come",
            Refusal::ScriptOrder => "a command before what it needs, or once too often",
        })
    }
}

// A buffer or key of so many items has as many as are wanted, or is named.
pub fn check_length(length: usize, wanted: usize, buffer: Buffer) -> Result<(), Refusal>
    ensures { Finds result (length_fault wanted buffer length) }
{
    if length != wanted {
        return Err(Refusal::WrongLength { buffer });
    }
    Ok(())
}
