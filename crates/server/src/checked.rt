// The checked form: bytes that passed the check, borrowed for reading.

ghost use Rattle.std.specs.Prelude.{◌≡◌, None, IfOk};
ghost use Rattle.std.proofs.Props.{props};
ghost use Rattle.refusal.specs.Told.{Finds};
ghost use Rattle.server.specs.Faults.{form_fault};
ghost use Rattle.server.specs.Passes.{FormPasses};

use crate::read::Form;
use refusal::Refusal;

// A form that passed its check.
#[derive(Clone, Copy)]
pub struct CheckedForm<'a> {
    form: Form<'a>,
    ghost passed: { form_fault form.bytes.now ≡ None } by { Prim.hlevel props },
}

impl<'a> CheckedForm<'a> {
    // The form in these bytes, or its first fault. A form that is written of an accepted circuit passes.
    pub fn check(bytes: &'a [u8]) -> Result<CheckedForm<'a>, Refusal>
        ensures fault { Finds result (form_fault bytes.now) }
        ensures holds { IfOk result (λ checked. checked.form.bytes.now ≡ bytes.now) }
        ensures passes { FormPasses }
    {
        let form = Form::new(bytes);
        form.check()?;
        Ok(CheckedForm { form })
    }

    // What passed.
    pub(crate) fn form(&self) -> Form<'a>
        ensures { result ≡ self.now.form }
    {
        self.form
    }
}
