// The outputs of a run: all marks are asked for, then each is read against the two of the form, then the bytes are written.

ghost use Rattle.std.specs.Prelude.{◌≡◌, ◌*◌, length, is_ok, if◌then◌else◌};
ghost use Rattle.std.specs.Option.{option_map};
ghost use Rattle.refusal.specs.Told.{Finds};
ghost use Rattle.label.specs.Hashes.{Asked};
ghost use Rattle.wires.specs.Wires.{output_wires};
ghost use Rattle.wires.specs.Read.{wiring_of};
ghost use Rattle.garbling.specs.Garbling.{label_in};
ghost use Rattle.garbling.specs.Marks.{mark_of, mark_questions};
ghost use Rattle.garbling.specs.Words.{labels_kept, keeping};
ghost use Rattle.garbling.specs.Evaluation.{read_mark, output_asks};
ghost use Rattle.server.specs.Outputs.{bit_byte, neither_fault, output_bytes, HoldMarks, kept_bit, kept_fault, kept_bytes};

use crate::read::Form;
use garbling::{Mark, keep_label, label_below, query_mark};
use label::Hash;
use refusal::Refusal;
use wires::Circuit;

// The mark of an output's label, kept in the label's place.
fn ask_mark<H: Hash>(circuit: &Circuit, hash: &mut H, words: &mut [u64], wire: u16)
    ensures words { words.new ≡ keeping words.old wire (mark_of (H.function hash.old) circuit.now.wires wire (label_in (labels_kept words.old circuit.now.wires) wire)) }
    ensures kept { H.function hash.new ≡ H.function hash.old }
    ensures asked { Asked H.asks (mark_questions circuit.now.wires wire (label_in (labels_kept words.old circuit.now.wires) wire)) hash.old hash.new }
{
    let label = label_below(words, circuit.wires, wire);
    let mark = query_mark(hash, circuit.wires, wire, label);
    keep_label(words, wire, mark);
}

// The marks of all outputs, each kept in its label's place.
fn ask_marks<H: Hash>(circuit: &Circuit, hash: &mut H, words: &mut [u64])
    requires { length words.old ≡ 2 * circuit.now.wires }
    ensures marks { HoldMarks (wiring_of circuit.now) (H.function hash.old) (labels_kept words.old circuit.now.wires) words.new }
    ensures kept { H.function hash.new ≡ H.function hash.old }
    ensures asked { Asked H.asks (output_asks (wiring_of circuit.now) (labels_kept words.old circuit.now.wires)) hash.old hash.new }
{
    for wire in 0..circuit.wires {
        if circuit.is_output(wire) {
            ask_mark(circuit, hash, words, wire);
        }
    }
}

// The bit that a mark stands for, the false mark tried first; none where it is neither.
fn read_mark(false_mark: Mark, true_mark: Mark, mark: Mark) -> Option<bool>
    ensures { result ≡ read_mark false_mark true_mark mark }
{
    if mark == false_mark {
        Some(false)
    } else {
        (mark == true_mark).then_some(true)
    }
}

// The bit of an output by the mark kept for it; `output` outputs came before it.
fn output_bit(form: &Form, words: &[u64], wire: u16, output: u16) -> Option<bool>
    ensures { result ≡ kept_bit (wiring_of form.now.circuit) form.now.bytes.now words.now wire output }
{
    let (false_mark, true_mark) = form.marks(output);
    let mark = label_below(words, form.circuit.wires, wire);
    read_mark(false_mark, true_mark, mark)
}

// The lowest output whose mark is neither of its two, with its number among the outputs.
fn unread_output(form: &Form, words: &[u64]) -> Option<(u16, u16)>
    ensures { option_map (λ output. (16, output.0)) result ≡ kept_fault (wiring_of form.now.circuit) form.now.bytes.now words.now }
{
    (0..form.circuit.wires)
        .filter(|wire| form.circuit.is_output(*wire))
        .zip(0..form.circuit.wires)
        .find(|(wire, output)| output_bit(form, words, *wire, *output).is_none())
}

// Every output meets one of its marks, or the lowest that meets neither.
fn check_outputs(form: &Form, words: &[u64]) -> Result<(), Refusal>
    ensures { Finds result (kept_fault (wiring_of form.now.circuit) form.now.bytes.now words.now) }
{
    match unread_output(form, words) {
        Some((wire, _)) => Err(Refusal::NeitherMark {
            wire: u32::from(wire),
        }),
        None => Ok(()),
    }
}

// The byte of an output by the mark kept for it.
fn output_byte(form: &Form, words: &[u64], wire: u16, output: u16) -> u8
    ensures { result ≡ bit_byte (kept_bit (wiring_of form.now.circuit) form.now.bytes.now words.now wire output) }
{
    output_bit(form, words, wire, output).map_or(0, u8::from)
}

// The bytes of all outputs, in rising wire order.
// The outputs' length is asked for here and below; a type over lent outputs would be made and taken apart at each step.
fn write_outputs(form: &Form, words: &[u64], outputs: &mut [u8])
    requires { length outputs.old ≡ length (output_wires (wiring_of form.now.circuit)) }
    ensures { outputs.new ≡ kept_bytes (wiring_of form.now.circuit) form.now.bytes.now words.now }
{
    let wires = (0..form.circuit.wires).filter(|wire| form.circuit.is_output(*wire));
    for (next, wire) in wires.enumerate() {
        outputs[next] = output_byte(form, words, wire, next as u16);
    }
}

// The bytes of the outputs, if every one meets a mark; else nothing is written.
fn decide_outputs(form: &Form, words: &[u64], outputs: &mut [u8]) -> Result<(), Refusal>
    requires { length outputs.old ≡ length (output_wires (wiring_of form.now.circuit)) }
    ensures fault { Finds result (kept_fault (wiring_of form.now.circuit) form.now.bytes.now words.now) }
    ensures outputs { outputs.new ≡ (if is_ok result then kept_bytes (wiring_of form.now.circuit) form.now.bytes.now words.now else outputs.old) }
{
    check_outputs(form, words)?;
    write_outputs(form, words, outputs);
    Ok(())
}

// The outputs from the labels of all wires, which the words hold; or the lowest that meets neither of its marks.
pub(crate) fn read_outputs<H: Hash>(
    form: &Form,
    hash: &mut H,
    words: &mut [u64],
    outputs: &mut [u8],
) -> Result<(), Refusal>
    requires words { length words.old ≡ 2 * form.now.circuit.wires }
    requires outputs { length outputs.old ≡ length (output_wires (wiring_of form.now.circuit)) }
    ensures fault { Finds result (neither_fault (wiring_of form.now.circuit) form.now.bytes.now (H.function hash.old) (labels_kept words.old form.now.circuit.wires)) }
    ensures outputs { outputs.new ≡ (if is_ok result then output_bytes (wiring_of form.now.circuit) form.now.bytes.now (H.function hash.old) (labels_kept words.old form.now.circuit.wires) else outputs.old) }
    ensures kept { H.function hash.new ≡ H.function hash.old }
    ensures asked { Asked H.asks (output_asks (wiring_of form.now.circuit) (labels_kept words.old form.now.circuit.wires)) hash.old hash.new }
{
    ask_marks(&form.circuit, hash, words);
    decide_outputs(form, words, outputs)
}
