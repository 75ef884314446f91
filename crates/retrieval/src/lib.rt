// Retrieval by a type over the byte form: `get_value_checked` and `get_conformant_value` of types.rs.
#![tactic(auto)]

ghost use Rattle.std.specs.Prelude.{length};
ghost use Rattle.form.specs.Answers.{Built};
ghost use Rattle.values.specs.Calls.{Accepted};
ghost use Rattle.retrieval.specs.Calls.{get_value_checked_call, get_conformant_value_call};

mod builder;

use form::Refusal;
use tables::readings::Reading;

// `FeelType::get_value_checked`. Refusals 6 to 10 of the type, 1 to 5 of the value, 15, 17, 18; 17 is never met.
pub fn get_value_checked(t: &[u8], v: &[u8], out: &mut [u8]) -> Result<usize, Refusal>
    ensures { Built (get_value_checked_call t.now v.now (length out.old)) out.old out.new result }
{
    form::check_type(t)?;
    form::check_value(v)?;
    builder::write_retrieved(t, v, out)
}

// `FeelType::get_conformant_value`. Refusals 6 to 10 of the type, 1 to 5 of the value, 17, 18; 17 is never met.
pub fn get_conformant_value(t: &[u8], v: &[u8], out: &mut [u8]) -> Result<usize, Refusal>
    ensures { Built (get_conformant_value_call t.now v.now (length out.old)) out.old out.new result }
{
    if values::compare::passes(v, t, Reading::DOCUMENT) {
        return builder::write_retrieved(t, v, out);
    }
    builder::give_nothing(t, v, out)
}
