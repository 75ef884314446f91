// Coercion over the byte form: `Value::coerced`.
#![tactic(auto)]

ghost use Rattle.std.specs.Prelude.{length};
ghost use Rattle.form.specs.Answers.{Built};
ghost use Rattle.values.specs.Calls.{Accepted};
ghost use Rattle.coercion.specs.Calls.{coerced_call};

mod conversion;

use form::Refusal;
use tables::readings::Reading;

// `Value::coerced`. Refusals 1 to 5 of the value, 6 to 10 of the type, 17, 18.
pub fn coerced(v: &[u8], t: &[u8], out: &mut [u8]) -> Result<usize, Refusal>
    ensures { Built (coerced_call v.now t.now (length out.old)) out.old out.new result }
{
    if values::compare::passes(v, t, Reading::DOCUMENT) {
        return output::give(v, out);
    }
    let level = form::check_value(v)?;
    form::check_type(t)?;
    conversion::convert(v, t, level, out)
}
