// The rules of document 01, one by one, and the results that they give.
ghost use Rattle.std.specs.Prelude.{◌≡◌, false, ◌+◌, ◌≤◌, ◌<◌, length, get_or};
ghost use Rattle.form.specs.Answers.{Built};
ghost use Rattle.form.specs.Limits.{type_levels, value_levels, most_bytes};
ghost use Rattle.order.specs.Inferred.{value_conforms_to};
ghost use Rattle.types.specs.At.{type_at, Ok};
ghost use Rattle.types.specs.Calls.{is_yes};
ghost use Rattle.values.specs.Calls.{is_conformant, Accepted};
ghost use Rattle.coercion.specs.Coerce.{unchanged, item_conforms, inner_conforms};
ghost use Rattle.coercion.specs.Calls.{coerced_call, Ready, wrapped, SaysAt, BifSays};

use form::limits::{MOST_BYTES, TYPE_LEVELS, VALUE_LEVELS};
use form::{Refusal, commands};
use tables::readings::Reading;

// Whether a value stands at the front of `v`, a type at the front of `t`, and the value conforms.
fn conforms(v: &[u8], t: &[u8]) -> bool
    ensures { SaysAt value_conforms_to v.now t.now result }
{
    let mut other = 0;
    values::compare::conforms(v, t, TYPE_LEVELS, &mut other, Reading::DOCUMENT) != 0
}

// Whether function<number> to number conforms to the type.
fn function_conforms(t: &[u8]) -> bool
    ensures { BifSays 0 t.now result }
{
    let f = [
        commands::FUNCTION_TYPE,
        1,
        commands::NUMBER_TYPE,
        commands::NUMBER_TYPE,
    ];
    let mut other = 0;
    types::compare::conforms(&f, t, TYPE_LEVELS, &mut other, Reading::DOCUMENT) != 0
}

// Whether the type of the built-in function at position b conforms to the type: Abs and Sqrt have a function type, all others Any.
#[tactic(auto, using(crate::proofs::Rules::bif_rules))]
fn bif_conforms(b: u8, t: &[u8]) -> bool
    requires { Ok (type_at type_levels t.now) }
    ensures { BifSays b t.now result }
{
    match b {
        ranges::ABS | ranges::SQRT => function_conforms(t),
        _ => t[0] == commands::ANY_TYPE,
    }
}

// Whether coercion leaves a value that does not conform as it is: a definition, and a built-in function whose type conforms.
#[tactic(auto, using(crate::proofs::Rules::keep_rules))]
fn keeps(v: &[u8], t: &[u8]) -> bool
    requires accepted { Accepted t.now v.now }
    requires false_value { false ≡ is_yes (is_conformant v.now t.now) }
    ensures { SaysAt unchanged v.now t.now result }
{
    match v[0] {
        commands::FUNCTION_DEFINITION => true,
        commands::BUILT_IN_FUNCTION => bif_conforms(v[1], t),
        _ => false,
    }
}

// Whether a list has one item, which conforms.
#[tactic(auto, using(crate::proofs::Rules::item_rules))]
fn takes_item(v: &[u8], t: &[u8]) -> bool
    requires accepted { Accepted t.now v.now }
    requires v_value { get_or v.now 0 0 ≡ 0x0A }
    ensures { SaysAt item_conforms v.now t.now result }
{
    form::bytes::word_at(v, 1) == 1 && conforms(&v[3..], t)
}

// Whether the type is a list type, and the value conforms to its inner type.
#[tactic(auto, using(crate::proofs::Rules::inner_rules))]
fn meets_inner(v: &[u8], t: &[u8]) -> bool
    requires { Accepted t.now v.now }
    ensures { SaysAt inner_conforms v.now t.now result }
{
    t[0] == commands::LIST_TYPE && conforms(v, &t[1..])
}

// A one-item list of a value of that level. Refusals 17, 18.
fn wrap(v: &[u8], level: usize, out: &mut [u8]) -> Result<usize, Refusal>
    requires { (length v.now ≤ most_bytes) × (level ≤ value_levels) }
    ensures { Built (wrapped v.now level (length out.old)) out.old out.new result }
{
    let n = v.len() + 3;
    let is_long = MOST_BYTES < n;
    if is_long || VALUE_LEVELS < level + 1 {
        return Err(Refusal::ResultSize);
    }
    if out.len() < n {
        return Err(Refusal::Output);
    }
    output::copy(&[commands::LIST, 1, 0], out);
    output::copy(v, &mut out[3..]);
    Ok(n)
}

// The rules behind the readers, for a value that does not conform. Refusals 17, 18.
#[tactic(auto, using(crate::proofs::Rules::value_byte, crate::proofs::Rules::list_three))]
pub(crate) fn convert(v: &[u8], t: &[u8], level: usize, out: &mut [u8]) -> Result<usize, Refusal>
    requires ready { Ready v.now t.now level }
    requires false_value { false ≡ is_yes (is_conformant v.now t.now) }
    ensures { Built (coerced_call v.now t.now (length out.old)) out.old out.new result }
{
    let failed = [commands::NULL, 1];
    if keeps(v, t) {
        output::give(v, out)
    } else if v[0] == commands::LIST {
        if takes_item(v, t) {
            output::give(&v[3..], out)
        } else {
            output::give(&failed, out)
        }
    } else if meets_inner(v, t) {
        wrap(v, level, out)
    } else {
        output::give(&failed, out)
    }
}
