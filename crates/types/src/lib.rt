// types.rs over the byte form: conformance of types in one pass over both.
#![tactic(auto)]

ghost use Rattle.std.specs.Prelude.{◌≡◌};
ghost use Rattle.order.specs.Order.{order_of};
ghost use Rattle.form.specs.Answers.{outcome};
ghost use Rattle.types.specs.Calls.{is_conformant_by, is_conformant, strict_is_conformant, table_is_conformant, read_then_no, instance_of, is_simple_built_in_type, is_null};

pub mod compare;
mod instance;
pub mod walk;

use form::{Refusal, commands};
use tables::load;
use tables::readings::Reading;

// `FeelType::is_conformant`.
pub fn is_conformant(a: &[u8], b: &[u8]) -> Result<bool, Refusal>
    ensures { outcome result ≡ is_conformant a.now b.now }
{
    judge(a, b, Reading::DOCUMENT)
}

// Conformance of types as DMN has it: a function without parameters conforms only if its result does.
pub fn strict_is_conformant(a: &[u8], b: &[u8]) -> Result<bool, Refusal>
    ensures { outcome result ≡ strict_is_conformant a.now b.now }
{
    judge(a, b, Reading::STRICT)
}

// Conformance of types over a members' table, which is refused first: 26, 27, 28.
pub fn table_is_conformant(table: &[u8], a: &[u8], b: &[u8]) -> Result<bool, Refusal>
    ensures { outcome result ≡ table_is_conformant table.now a.now b.now }
{
    judge(a, b, load::load(table)?)
}

// Conformance of types under a reading: where the walk does not say yes, the readers' refusals, then no. Inlined: slices that are handed on once
// more are written in halves and read whole, which costs a leaf more than its walk.
#[inline(always)]
fn judge(a: &[u8], b: &[u8], reading: Reading) -> Result<bool, Refusal>
    ensures { outcome result ≡ is_conformant_by (order_of reading) a.now b.now }
{
    if compare::passes(a, b, reading) {
        return Ok(true);
    }
    refuse(a, b)
}

// Where the walk does not say yes: the readers' refusals, then no.
fn refuse(a: &[u8], b: &[u8]) -> Result<bool, Refusal>
    ensures { outcome result ≡ read_then_no a.now b.now }
{
    form::check_type(a)?;
    form::check_type(b)?;
    Ok(false)
}

// `FeelType::is_simple_built_in_type`.
pub fn is_simple_built_in_type(t: &[u8]) -> Result<bool, Refusal>
    ensures { outcome result ≡ is_simple_built_in_type t.now }
{
    form::check_type(t)?;
    Ok(t[0] < commands::LIST_TYPE)
}

// `FeelType::is_null`.
pub fn is_null(t: &[u8]) -> Result<bool, Refusal>
    ensures { outcome result ≡ is_null t.now }
{
    form::check_type(t)?;
    Ok(t[0] == commands::NULL_TYPE)
}

// `FeelType::instance_of`.
pub fn instance_of(a: &[u8], b: &[u8]) -> Result<bool, Refusal>
    ensures { outcome result ≡ instance_of a.now b.now }
{
    if instance::is_instance(a, b) {
        return Ok(true);
    }
    refuse(a, b)
}
