// The labels of a run: those of the inputs taken from the sheets, then those met on all wires.

ghost use Rattle.std.specs.Prelude.{◌≡◌, ◌*◌, length, Some, None, MatchResult, OnOk};
ghost use Rattle.refusal.specs.Told.{Finds, told};
ghost use Rattle.label.specs.Hashes.{Asked};
ghost use Rattle.wires.specs.Read.{wiring_of};
ghost use Rattle.garbling.specs.Words.{kept_at, labels_kept, keeping};
ghost use Rattle.garbling.specs.Steps.{met_with, met_asks};
ghost use Rattle.server.specs.Gates.{sent_at};
ghost use Rattle.server.specs.Sheets.{sheets_of, own_label, missing_fault, inputs_on};
ghost use Rattle.server.specs.Labels.{HoldInputs, Evaluates, EvaluateAsked};

use crate::read::Form;
use crate::sheets::Sheets;
use garbling::{evaluate_wire, keep_label};
use label::{Hash, Label};
use refusal::Refusal;

// The label of an input from its owner's sheet, or the refusal that it has not come.
fn take_label(sheets: &Sheets, wire: u16) -> Result<Label, Refusal>
    ensures { MatchResult result (λ label. own_label (wiring_of sheets.now.circuit) (sheets_of sheets.now) wire ≡ Some label) (λ e. (own_label (wiring_of sheets.now.circuit) (sheets_of sheets.now) wire ≡ None) × (told e ≡ (37, wire))) }
{
    sheets.own_label(wire).ok_or(Refusal::LabelMissing {
        wire: u32::from(wire),
    })
}

// The labels of all inputs, each from its owner's sheet into the words; or the lowest that has not come.
// The words' length is asked for here and below: in a struct of the words, each function would ask instead that its circuit is the form's.
pub(crate) fn take_labels(sheets: &Sheets, words: &mut [u64]) -> Result<(), Refusal>
    requires { length words.old ≡ 2 * sheets.now.circuit.wires }
    ensures fault { Finds result (missing_fault (wiring_of sheets.now.circuit) (sheets_of sheets.now)) }
    ensures labels { OnOk result (HoldInputs (wiring_of sheets.now.circuit) words.new (inputs_on (wiring_of sheets.now.circuit) (sheets_of sheets.now))) }
{
    for wire in 0..sheets.circuit.inputs {
        let label = take_label(sheets, wire)?;
        keep_label(words, wire, label);
    }
    Ok(())
}

// A wire evaluated, and its label kept; `gate` garbled gates came before it.
fn evaluate_next<H: Hash>(form: &Form, hash: &mut H, words: &mut [u64], wire: u16, gate: u16)
    ensures words { words.new ≡ keeping words.old wire (met_with (wiring_of form.now.circuit) (H.function hash.old) (sent_at form.now.bytes.now gate) (kept_at words.old wire) (labels_kept words.old wire) wire) }
    ensures kept { H.function hash.new ≡ H.function hash.old }
    ensures asked { Asked H.asks (met_asks (wiring_of form.now.circuit) (labels_kept words.old wire) wire) hash.old hash.new }
{
    let label = evaluate_wire(hash, &form.circuit, form.sent_gate(gate), words, wire);
    keep_label(words, wire, label);
}

// The labels of all wires into the words, which hold those of the inputs.
pub(crate) fn evaluate_wires<H: Hash>(form: &Form, hash: &mut H, words: &mut [u64])
    requires { length words.old ≡ 2 * form.now.circuit.wires }
    ensures labels { Evaluates (wiring_of form.now.circuit) form.now.bytes.now (H.function hash.old) words.old words.new }
    ensures kept { H.function hash.new ≡ H.function hash.old }
    ensures asked { EvaluateAsked H.asks (wiring_of form.now.circuit) form.now.bytes.now (H.function hash.old) words.old hash.old hash.new }
{
    // Counted by hand: every wire is visited, and only garbled gates are numbered.
    let mut gate = 0;
    for wire in 0..form.circuit.wires {
        evaluate_next(form, hash, words, wire, gate);
        gate += u16::from(form.circuit.is_garbled(wire));
    }
}
