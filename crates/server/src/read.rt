// A form as it is read: its bytes, borrowed, with the circuit that they state. Every reader answers for all bytes.

ghost use Rattle.std.specs.Prelude.{◌≡◌, ◌+◌, ◌*◌, ◌^◌, ◌<◌, if◌then◌else◌, nat_lt, slice_index_or};
ghost use Rattle.slices.specs.Little.{short_at};
ghost use Rattle.label.specs.Labels.{label_at};
ghost use Rattle.wires.specs.Read.{wiring_of};
ghost use Rattle.form.specs.Read.{form_wiring, gates_stated, outputs_stated, ciphertexts_from, controls_from, control_word_at, false_marks_in, true_marks_in};
ghost use Rattle.server.specs.Gates.{sent_at};

use form::controls_of;
use garbling::Mark;
use gate::SentGate;
use label::{ControlPair, Xor, label_at};
use slices::{short_at, word_at};
use wires::Circuit;

// The bytes of a form, and the circuit that they state, with its truth tables blank.
#[derive(Clone, Copy)]
pub(crate) struct Form<'a> {
    pub(crate) bytes: &'a [u8],
    pub(crate) circuit: Circuit<'a>,
    ghost stated: { wiring_of circuit ≡ form_wiring bytes.now },
}

impl<'a> Form<'a> {
    // The form in these bytes, whatever they are.
    pub(crate) fn new(bytes: &'a [u8]) -> Form<'a>
        ensures { result.bytes.now ≡ bytes.now }
    {
        let circuit = Circuit {
            wires: short_at(bytes, 0),
            inputs: short_at(bytes, 2),
            arrays: bytes.get(8..).unwrap_or(&[]),
        };
        Form { bytes, circuit }
    }

    // The number of garbled gates that the form states.
    pub(crate) fn garbled(&self) -> u16
        ensures { result ≡ gates_stated self.now.bytes.now }
    {
        short_at(self.bytes, 4)
    }

    // The number of outputs that the form states.
    pub(crate) fn outputs(&self) -> u16
        ensures { result ≡ outputs_stated self.now.bytes.now }
    {
        short_at(self.bytes, 6)
    }

    // Where the ciphertexts begin.
    fn ciphertexts_from(&self) -> u32
        ensures value { result ≡ ciphertexts_from (short_at self.now.bytes.now 0) }
        ensures small { result < 2 ^ 20 }
    {
        8 + 5 * u32::from(self.circuit.wires)
    }

    // Where the control words begin.
    fn controls_from(&self) -> u32
        ensures value { result ≡ controls_from (short_at self.now.bytes.now 0) (gates_stated self.now.bytes.now) }
        ensures small { result < 2 ^ 22 }
    {
        self.ciphertexts_from() + 24 * u32::from(self.garbled())
    }

    // The control word of a gate, by its number among those that are garbled.
    pub(crate) fn control_word(&self, gate: u16) -> u16
        ensures { result ≡ control_word_at self.now.bytes.now (short_at self.now.bytes.now 0) (gates_stated self.now.bytes.now) gate }
    {
        short_at(self.bytes, self.controls_from() + 2 * u32::from(gate))
    }

    // What was sent of a gate, zero past the last.
    pub(crate) fn sent_gate(&self, gate: u16) -> SentGate
        ensures { result ≡ sent_at self.now.bytes.now gate }
    {
        if gate >= self.garbled() {
            return SentGate {
                ciphertexts: [0; 3],
                controls: [ControlPair::zero(); 5],
            };
        }
        let at = self.ciphertexts_from() + 24 * u32::from(gate);
        SentGate {
            ciphertexts: [at, at + 8, at + 16].map(|at| word_at(self.bytes, at)),
            controls: controls_of(self.control_word(gate)),
        }
    }

    // A mark of those that begin at a place, zero past the last output.
    fn mark_from(&self, from: u32, output: u16) -> Mark
        requires { from < 2 ^ 24 }
        ensures { result ≡ (if nat_lt output (outputs_stated self.now.bytes.now) then label_at self.now.bytes.now (from + 16 * output) else (0, 0)) }
    {
        if output >= self.outputs() {
            return (0, 0);
        }
        label_at(self.bytes, from + 16 * u32::from(output))
    }

    // The false and the true mark of an output, by its number among them.
    pub(crate) fn marks(&self, output: u16) -> (Mark, Mark)
        ensures { result ≡ (slice_index_or (false_marks_in self.now.bytes.now) output (0, 0), slice_index_or (true_marks_in self.now.bytes.now) output (0, 0)) }
    {
        let falses = self.controls_from() + 2 * u32::from(self.garbled());
        let trues = falses + 16 * u32::from(self.outputs());
        (
            self.mark_from(falses, output),
            self.mark_from(trues, output),
        )
    }
}
