// Common supertype, common subtype and reduced form of types over the byte form.
#![tactic(auto)]

ghost use Rattle.std.specs.Prelude.{◌+◌, ◌<◌, ◌/◌, length};
ghost use Rattle.form.specs.Answers.{Built};
ghost use Rattle.order.specs.Order.{up, toward, order_of};
ghost use Rattle.lattice.specs.Writing.{answer};
ghost use Rattle.bounds.specs.Calls.{combined, common_supertype, common_subtype, strict_common_supertype, strict_common_subtype, table_combined, table_common_supertype};
ghost use Rattle.bounds.specs.Calls.{table_common_subtype, reduced_call};

mod sizes;

use form::Refusal;
use form::limits::TYPE_LEVELS;
use tables::load;
use tables::readings::Reading;

// All four calls: the answer is built in the scratch, and copied where it fits. Refusals: 6 to 10 of a, then of b, 14, 18.
fn combine(
    up: bool,
    a: &[u8],
    b: &[u8],
    scratch: &mut [u8],
    out: &mut [u8],
    reading: Reading,
) -> Result<usize, Refusal>
    ensures { Built (combined (answer (order_of reading) (toward up)) a.now b.now (length scratch.old) (length out.old)) out.old out.new result }
{
    form::check_type(a)?;
    form::check_type(b)?;
    if scratch.len() < a.len() + b.len() {
        return Err(Refusal::Scratch);
    }
    let e = lattice::write(up, a, b, scratch, TYPE_LEVELS, reading);
    output::give(&scratch[..e.wrote], out)
}

// The common supertype, reduced.
pub fn common_supertype(
    a: &[u8],
    b: &[u8],
    scratch: &mut [u8],
    out: &mut [u8],
) -> Result<usize, Refusal>
    ensures { Built (common_supertype a.now b.now (length scratch.old) (length out.old)) out.old out.new result }
{
    combine(true, a, b, scratch, out, Reading::DOCUMENT)
}

// The common subtype, reduced.
pub fn common_subtype(
    a: &[u8],
    b: &[u8],
    scratch: &mut [u8],
    out: &mut [u8],
) -> Result<usize, Refusal>
    ensures { Built (common_subtype a.now b.now (length scratch.old) (length out.old)) out.old out.new result }
{
    combine(false, a, b, scratch, out, Reading::DOCUMENT)
}

// The common supertype as DMN has it: results of functions without parameters are taken together too, and nothing is reduced.
pub fn strict_common_supertype(
    a: &[u8],
    b: &[u8],
    scratch: &mut [u8],
    out: &mut [u8],
) -> Result<usize, Refusal>
    ensures { Built (strict_common_supertype a.now b.now (length scratch.old) (length out.old)) out.old out.new result }
{
    combine(true, a, b, scratch, out, Reading::STRICT)
}

// The common subtype likewise.
pub fn strict_common_subtype(
    a: &[u8],
    b: &[u8],
    scratch: &mut [u8],
    out: &mut [u8],
) -> Result<usize, Refusal>
    ensures { Built (strict_common_subtype a.now b.now (length scratch.old) (length out.old)) out.old out.new result }
{
    combine(false, a, b, scratch, out, Reading::STRICT)
}

// Both calls over a members' table, which is refused first: 26, 27, 28; then as `combine`.
fn combine_over(
    up: bool,
    table: &[u8],
    a: &[u8],
    b: &[u8],
    scratch: &mut [u8],
    out: &mut [u8],
) -> Result<usize, Refusal>
    ensures { Built (table_combined (λ order. answer order (toward up)) table.now a.now b.now (length scratch.old) (length out.old)) out.old out.new result }
{
    combine(up, a, b, scratch, out, load::load(table)?)
}

// The common supertype over a table: of two simple types their least common one.
pub fn table_common_supertype(
    table: &[u8],
    a: &[u8],
    b: &[u8],
    scratch: &mut [u8],
    out: &mut [u8],
) -> Result<usize, Refusal>
    ensures { Built (table_common_supertype table.now a.now b.now (length scratch.old) (length out.old)) out.old out.new result }
{
    combine_over(true, table, a, b, scratch, out)
}

// The common subtype over a table: of two simple types their greatest common one.
pub fn table_common_subtype(
    table: &[u8],
    a: &[u8],
    b: &[u8],
    scratch: &mut [u8],
    out: &mut [u8],
) -> Result<usize, Refusal>
    ensures { Built (table_common_subtype table.now a.now b.now (length scratch.old) (length out.old)) out.old out.new result }
{
    combine_over(false, table, a, b, scratch, out)
}

// The reduced form: the result of every function type without parameters becomes Any. Refusals 6 to 10 and 18.
pub fn reduced(t: &[u8], out: &mut [u8]) -> Result<usize, Refusal>
    ensures { Built (reduced_call t.now (length out.old)) out.old out.new result }
{
    form::check_type(t)?;
    if !sizes::has_room(t, out.len(), TYPE_LEVELS) {
        return Err(Refusal::Output);
    }
    let e = lattice::same(true, t, t, out, TYPE_LEVELS, Reading::DOCUMENT);
    Ok(e.wrote)
}
