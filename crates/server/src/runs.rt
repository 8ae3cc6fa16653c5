// The run: a checked form evaluated on the labels of both sheets, down to the output bits.

ghost use Rattle.std.specs.Prelude.{◌≡◌, [], ◌∷◌, length, replicate, is_ok, if◌then◌else◌};
ghost use Rattle.refusal.specs.Told.{Finds};
ghost use Rattle.label.specs.Hashes.{Asked};
ghost use Rattle.wires.specs.Read.{wiring_of};
ghost use Rattle.server.specs.Outputs.{output_bytes};
ghost use Rattle.server.specs.Runs.{labels_met, fault_on, asks_on, run_fault, run_asks, run_outputs};

use crate::checked::CheckedForm;
use crate::labels::{evaluate_wires, take_labels};
use crate::outputs::read_outputs;
use crate::read::Form;
use crate::sheets::Sheets;
use label::Hash;
use refusal::Refusal;

// The steps of a run, each in its order; the work words are left as they are then.
fn run_steps<'a, H: Hash>(
    form: &Form<'a>,
    hash: &mut H,
    sheet0: &'a [u8],
    sheet1: &'a [u8],
    work: &mut [u64],
    outputs: &mut [u8],
) -> Result<(), Refusal>
    ensures fault { Finds result (fault_on (wiring_of form.now.circuit) form.now.bytes.now (H.function hash.old) (sheet0.now ∷ sheet1.now ∷ []) (length work.old) (length outputs.old)) }
    ensures outputs { outputs.new ≡ (if is_ok result then output_bytes (wiring_of form.now.circuit) form.now.bytes.now (H.function hash.old) (labels_met (wiring_of form.now.circuit) form.now.bytes.now (H.function hash.old) (sheet0.now ∷ sheet1.now ∷ [])) else outputs.old) }
    ensures kept { H.function hash.new ≡ H.function hash.old }
    ensures asked { Asked H.asks (asks_on (wiring_of form.now.circuit) form.now.bytes.now (H.function hash.old) (sheet0.now ∷ sheet1.now ∷ []) (length work.old) (length outputs.old)) hash.old hash.new }
{
    let sheets = Sheets {
        circuit: form.circuit,
        by_side: [sheet0, sheet1],
    };
    sheets.check_lengths(work.len(), outputs.len())?;
    sheets.check()?;
    take_labels(&sheets, work)?;
    evaluate_wires(form, hash, work);
    read_outputs(form, hash, work, outputs)
}

// The output bits of a form on the sheets of side 0 and side 1, one byte each, with the labels kept in the work words on the way.
// All questions are asked before an output is refused; the work words are zero afterwards, and refused outputs stay as they were.
pub fn run<'a, H: Hash>(
    checked: &CheckedForm<'a>,
    hash: &mut H,
    sheet0: &'a [u8],
    sheet1: &'a [u8],
    work: &mut [u64],
    outputs: &mut [u8],
) -> Result<(), Refusal>
    ensures fault { Finds result (run_fault checked.now.form.bytes.now (H.function hash.old) (sheet0.now ∷ sheet1.now ∷ []) (length work.old) (length outputs.old)) }
    ensures outputs { outputs.new ≡ (if is_ok result then run_outputs checked.now.form.bytes.now (H.function hash.old) (sheet0.now ∷ sheet1.now ∷ []) else outputs.old) }
    ensures work { work.new ≡ replicate (length work.old) 0 }
    ensures kept { H.function hash.new ≡ H.function hash.old }
    ensures asked { Asked H.asks (run_asks checked.now.form.bytes.now (H.function hash.old) (sheet0.now ∷ sheet1.now ∷ []) (length work.old) (length outputs.old)) hash.old hash.new }
{
    let answer = run_steps(&checked.form(), hash, sheet0, sheet1, work, outputs);
    work.fill(0);
    answer
}
