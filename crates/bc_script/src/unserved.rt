//! What of the grammar isn't served as yet. A line that isn't served is refused when the trace is
//! read, so that it is never answered `done` for what wasn't done.
ghost use Rattle.std.specs.Prelude.{◌≡◌, ℕ, IfOk};
ghost use Rattle.bc_script.specs.Proper.{IsProperForm, IsLine};
ghost use Rattle.bc_script.specs.Unserved.{if_served, is_of_other_worker};
ghost use Rattle.bc_script.specs.Trace.{line_of};
ghost use Rattle.bc_script.specs.declared.form.Form.{Form};

use crate::form::Form;
use crate::reason::Reason;

// Workers 2 to 16 aren't served yet.
fn is_of_other_worker(form: Form) -> bool
    ensures { result ≡ is_of_other_worker form }
{
    match form {
        Form::Quiet | Form::PhaseEnd => false,
        Form::Asked { worker, .. } => worker != 1,
    }
}

/// The form, where it is served.
pub(crate) fn if_served(form: Form) -> Result<Form, Reason>
    requires { IsProperForm form }
    ensures served { result ≡ if_served form }
    ensures line { IfOk result (λ f. (phase : ℕ) → IsLine (line_of phase f)) }
{
    if is_of_other_worker(form) {
        Err(Reason::Worker)
    } else {
        Ok(form)
    }
}
