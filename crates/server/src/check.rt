// The check of a form, step by step: the sizes, the length, the wires, the two numbers, the control words.

ghost use Rattle.std.specs.Prelude.{◌≡◌};
ghost use Rattle.std.specs.Option.{option_map};
ghost use Rattle.refusal.specs.Told.{Finds};
ghost use Rattle.wires.specs.Read.{wiring_of};
ghost use Rattle.server.specs.Faults.{counts_fault, highs_clear, controls_sound, controls_fault, parts_fault, fault_of};

use crate::read::Form;
use circuit::{TruthRule, check_outputs, check_sizes, check_wires};
use form::{controls_of, form_length};
use refusal::Refusal;
use wires::Class;

// Whether the high bits of a control word's pairs are zero.
fn highs_clear(word: u16) -> bool
    ensures { result ≡ highs_clear word }
{
    controls_of(word).iter().all(|pair| !pair.high)
}

// Whether a control word has no bits that must be zero in a gate of this class.
fn controls_sound(class: Class, word: u16) -> bool
    ensures { result ≡ controls_sound class word }
{
    if word >= 1024 {
        return false;
    }
    match class {
        Class::Hidden => true,
        Class::Even | Class::Odd | Class::Free => highs_clear(word),
    }
}

impl Form<'_> {
    // The circuit has as many outputs and garbled gates as the form states.
    fn check_counts(&self) -> Result<(), Refusal>
        ensures { Finds result (counts_fault (wiring_of self.now.circuit) self.now.bytes.now) }
    {
        let outputs = self.circuit.count_outputs();
        check_outputs(outputs)?;
        if outputs != self.outputs() {
            return Err(Refusal::OutputCount);
        }
        if self.circuit.count_garbled() != self.garbled() {
            return Err(Refusal::GateCount);
        }
        Ok(())
    }

    // The lowest gate whose control word has bits that must be zero, with its number among those that are garbled.
    // A chain here and one for the outputs: shared, its two tests would be parameters with clauses of their own.
    fn wrong_gate(&self) -> Option<(u16, u16)>
        ensures { option_map (λ gate. (14, gate.0)) result ≡ controls_fault (wiring_of self.now.circuit) self.now.bytes.now }
    {
        (0..self.circuit.wires)
            .filter(|wire| self.circuit.is_garbled(*wire))
            .zip(0..self.circuit.wires)
            .find(|(wire, gate)| {
                !controls_sound(self.circuit.class(*wire), self.control_word(*gate))
            })
    }

    // Every control word is sound, or the lowest gate whose is not.
    fn check_controls(&self) -> Result<(), Refusal>
        ensures { Finds result (controls_fault (wiring_of self.now.circuit) self.now.bytes.now) }
    {
        match self.wrong_gate() {
            Some((wire, _)) => Err(Refusal::ControlBits {
                wire: u32::from(wire),
            }),
            None => Ok(()),
        }
    }

    // What follows the sizes and the length.
    fn check_parts(&self) -> Result<(), Refusal>
        ensures { Finds result (parts_fault (wiring_of self.now.circuit) self.now.bytes.now) }
    {
        check_wires(&self.circuit, TruthRule::Blank)?;
        self.check_counts()?;
        self.check_controls()
    }

    // The first fault of the form.
    pub(crate) fn check(&self) -> Result<(), Refusal>
        ensures { Finds result (fault_of (wiring_of self.now.circuit) self.now.bytes.now) }
    {
        if self.bytes.len() < 8 {
            return Err(Refusal::SizesCutShort);
        }
        check_sizes(self.circuit.wires, self.circuit.inputs)?;
        if self.bytes.len() != form_length(self.circuit.wires, self.garbled(), self.outputs()) {
            return Err(Refusal::Length);
        }
        self.check_parts()
    }
}
