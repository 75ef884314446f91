// Types of values over the byte form: the least type, and the type as the Rust infers it.
#![tactic(auto)]

ghost use Rattle.std.specs.Prelude.{true, length};
ghost use Rattle.form.specs.Answers.{Built};
ghost use Rattle.order.specs.Order.{order_of};
ghost use Rattle.infer.specs.Calls.{least_type_by, least_type_call, strict_least_type_call, table_least_type_call, type_of_call};

mod builder;
mod data;

use form::Refusal;
use form::limits::VALUE_LEVELS;
use tables::load;
use tables::readings::Reading;

// The least type. Refusals 1 to 5, 13, 14, 18.
pub fn least_type(v: &[u8], scratch: &mut [u8], out: &mut [u8]) -> Result<usize, Refusal>
    ensures { Built (least_type_call v.now (length scratch.old) (length out.old)) out.old out.new result }
{
    build_least(v, scratch, out, Reading::DOCUMENT)
}

// The least type as DMN has it: of a function definition its function type. Refusals likewise, 13 for 0D, 0E and 0F alone.
pub fn strict_least_type(v: &[u8], scratch: &mut [u8], out: &mut [u8]) -> Result<usize, Refusal>
    ensures { Built (strict_least_type_call v.now (length scratch.old) (length out.old)) out.old out.new result }
{
    build_least(v, scratch, out, Reading::STRICT)
}

// The least type over a members' table, which is refused first: 26, 27, 28; then as document 01's own call.
pub fn table_least_type(
    table: &[u8],
    v: &[u8],
    scratch: &mut [u8],
    out: &mut [u8],
) -> Result<usize, Refusal>
    ensures { Built (table_least_type_call table.now v.now (length scratch.old) (length out.old)) out.old out.new result }
{
    build_least(v, scratch, out, load::load(table)?)
}

// All three calls.
fn build_least(
    v: &[u8],
    scratch: &mut [u8],
    out: &mut [u8],
    reading: Reading,
) -> Result<usize, Refusal>
    ensures { Built (least_type_by (order_of reading) v.now (length scratch.old) (length out.old)) out.old out.new result }
{
    form::check_value(v)?;
    if data::is_data(v, VALUE_LEVELS, reading).is_none() {
        return Err(Refusal::NotData);
    }
    builder::build(true, v, scratch, out, reading)
}

// `Value::type_of`. Refusals 1 to 5, 14, 18.
pub fn type_of(v: &[u8], scratch: &mut [u8], out: &mut [u8]) -> Result<usize, Refusal>
    ensures { Built (type_of_call v.now (length scratch.old) (length out.old)) out.old out.new result }
{
    form::check_value(v)?;
    builder::build(false, v, scratch, out, Reading::DOCUMENT)
}
