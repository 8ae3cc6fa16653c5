// The sheets of both sides: their lengths, their marks, and the label of each input, read from its owner's sheet.

ghost use Rattle.std.specs.Prelude.{◌≡◌, [], ◌∷◌};
ghost use Rattle.refusal.specs.Told.{Finds};
ghost use Rattle.wires.specs.Read.{wiring_of};
ghost use Rattle.server.specs.Sheets.{sheets_of, sheet_at, label_read, own_label, mark_sound, marks_sound, sheets_fit, marks_fault, sheets_fault, lengths_fault};

use label::{Label, label_at};
use ledger::sheet_length;
use refusal::{Buffer, Refusal, check_length};
use slices::{item_or, short_at};
use wires::Circuit;

// A sheet for each side, as many as `circuit::SIDES`, and the circuit that says which input is whose.
#[derive(Clone, Copy)]
pub(crate) struct Sheets<'a> {
    pub(crate) circuit: Circuit<'a>,
    pub(crate) by_side: [&'a [u8]; 2],
}

impl<'a> Sheets<'a> {
    // The sheet of a side, empty where there is no such side.
    fn of(&self, side: u8) -> &'a [u8]
        ensures { result.now ≡ sheet_at (sheets_of self.now) side }
    {
        item_or(&self.by_side, usize::from(side), &[])
    }

    // The label of an input from its owner's sheet, if it has come.
    pub(crate) fn own_label(&self, wire: u16) -> Option<Label>
        ensures { result ≡ own_label (wiring_of self.now.circuit) (sheets_of self.now) wire }
    {
        let sheet = self.of(self.circuit.side(wire));
        label_on(sheet, self.circuit.inputs, wire)
    }

    // Whether the marks of an input are sound on both sheets.
    fn marks_sound(&self, wire: u16) -> bool
        ensures { result ≡ marks_sound (wiring_of self.now.circuit) (sheets_of self.now) wire }
    {
        (self.by_side.iter().enumerate()).all(|(side, sheet)| mark_sound(
            &self.circuit,
            side,
            sheet,
            wire,
        ))
    }

    // Whether both sheets are made for this many inputs.
    fn fit(&self) -> bool
        ensures { result ≡ sheets_fit (wiring_of self.now.circuit) (sheets_of self.now) }
    {
        (self.by_side.iter()).all(|sheet| short_at(sheet, 0) == self.circuit.inputs)
    }

    // Every mark is sound, or the lowest wire that has a wrong one.
    fn check_marks(&self) -> Result<(), Refusal>
        ensures { Finds result (marks_fault (wiring_of self.now.circuit) (sheets_of self.now)) }
    {
        for wire in 0..self.circuit.inputs {
            if !self.marks_sound(wire) {
                return Err(Refusal::SheetMark {
                    wire: u32::from(wire),
                });
            }
        }
        Ok(())
    }

    // The sheets are made for this circuit and their marks are sound; or the first fault.
    pub(crate) fn check(&self) -> Result<(), Refusal>
        ensures { Finds result (sheets_fault (wiring_of self.now.circuit) (sheets_of self.now)) }
    {
        if !self.fit() {
            return Err(Refusal::SheetInputs);
        }
        self.check_marks()
    }

    // The sheets, the work words and the outputs have the lengths that the circuit asks for; or the first that has not.
    pub(crate) fn check_lengths(&self, work: usize, outputs: usize) -> Result<(), Refusal>
        ensures { Finds result (lengths_fault (wiring_of self.now.circuit) (sheets_of self.now) work outputs) }
    {
        let sheet = sheet_length(self.circuit.inputs);
        check_length(self.of(0).len(), sheet, Buffer::Sheet)?;
        check_length(work, 2 * usize::from(self.circuit.wires), Buffer::Work)?;
        let count = self.circuit.count_outputs();
        check_length(outputs, usize::from(count), Buffer::Outputs)?;
        check_length(self.of(1).len(), sheet, Buffer::OtherSheet)
    }
}

// The label of a wire on a sheet for this many inputs, if its mark says that it has come.
fn label_on(sheet: &[u8], inputs: u16, wire: u16) -> Option<Label>
    ensures { result ≡ label_read inputs sheet.now wire }
{
    let at = 2 + u32::from(inputs) + 16 * u32::from(wire);
    (item_or(sheet, 2 + usize::from(wire), 0) == 1).then_some(label_at(sheet, at))
}

// Whether a wire's mark is sound on the sheet of a side.
fn mark_sound(circuit: &Circuit, side: usize, sheet: &[u8], wire: u16) -> bool
    ensures { result ≡ mark_sound (wiring_of circuit.now) side sheet.now wire }
{
    let mark = item_or(sheet, 2 + usize::from(wire), 0);
    if usize::from(circuit.side(wire)) == side {
        mark < 2
    } else {
        mark == 0
    }
}
