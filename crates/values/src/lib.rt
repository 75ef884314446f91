// values.rs over the byte form: a value and a type are read and held to each other in one pass.
#![tactic(auto)]

ghost use Rattle.std.specs.Prelude.{◌≡◌};
ghost use Rattle.form.specs.Answers.{outcome};
ghost use Rattle.order.specs.Order.{order_of};
ghost use Rattle.values.specs.Calls.{is_conformant_by, is_conformant, strict_is_conformant, table_is_conformant};

pub mod compare;
pub mod walk;

use form::Refusal;
use tables::load;
use tables::readings::Reading;

// `Value::is_conformant`.
pub fn is_conformant(v: &[u8], t: &[u8]) -> Result<bool, Refusal>
    ensures { outcome result ≡ is_conformant v.now t.now }
{
    judge(v, t, Reading::DOCUMENT)
}

// Conformance of a value as DMN has it: a function definition conforms exactly when its function type does, a function without parameters only if its result does.
pub fn strict_is_conformant(v: &[u8], t: &[u8]) -> Result<bool, Refusal>
    ensures { outcome result ≡ strict_is_conformant v.now t.now }
{
    judge(v, t, Reading::STRICT)
}

// Conformance of a value over a members' table, which is refused first: 26, 27, 28.
pub fn table_is_conformant(table: &[u8], v: &[u8], t: &[u8]) -> Result<bool, Refusal>
    ensures { outcome result ≡ table_is_conformant table.now v.now t.now }
{
    judge(v, t, load::load(table)?)
}

// Conformance of a value under a reading: where the walk does not say yes, the readers' refusals, then no. Inlined: slices that are handed on once
// more are written in halves and read whole, which costs a leaf more than its walk.
#[inline(always)]
fn judge(v: &[u8], t: &[u8], reading: Reading) -> Result<bool, Refusal>
    ensures { outcome result ≡ is_conformant_by (order_of reading) v.now t.now }
{
    if compare::passes(v, t, reading) {
        return Ok(true);
    }
    form::check_value(v)?;
    form::check_type(t)?;
    Ok(false)
}
