// Ranges, built-in functions and the small questions of values.rs, over the byte form.
#![tactic(auto)]

ghost use Rattle.std.specs.Prelude.{◌≡◌, length};
ghost use Rattle.form.specs.Answers.{outcome, Built};
ghost use Rattle.ranges.specs.Calls.{of_kind, is_null_call, is_number_call, is_string_call, is_list_call, is_range_call};
ghost use Rattle.ranges.specs.Calls.{is_true_call, is_false_call, is_invalid_coercion_call, is_valid_range_call};
ghost use Rattle.ranges.specs.Calls.{interval_type, opened_call, closed_call, undefined_call, bif_type_call};

mod compare;
mod decimals;

use form::{Refusal, commands};

// Whether the value has the command c.
#[tactic(auto, using(crate::proofs::Questions::questions))]
fn of_kind(v: &[u8], c: u8) -> Result<bool, Refusal>
    ensures { outcome result ≡ of_kind c v.now }
{
    form::check_value(v)?;
    Ok(v[0] == c)
}

// `Value::is_null`.
pub fn is_null(v: &[u8]) -> Result<bool, Refusal>
    ensures { outcome result ≡ is_null_call v.now }
{
    of_kind(v, commands::NULL)
}

// `Value::is_number`.
#[tactic(auto, using(crate::proofs::Questions::questions))]
pub fn is_number(v: &[u8]) -> Result<bool, Refusal>
    ensures { outcome result ≡ is_number_call v.now }
{
    form::check_value(v)?;
    Ok(commands::leaf_type(v[0]) == commands::NUMBER_TYPE)
}

// `Value::is_string`.
pub fn is_string(v: &[u8]) -> Result<bool, Refusal>
    ensures { outcome result ≡ is_string_call v.now }
{
    of_kind(v, commands::STRING)
}

// `Value::is_list`.
pub fn is_list(v: &[u8]) -> Result<bool, Refusal>
    ensures { outcome result ≡ is_list_call v.now }
{
    of_kind(v, commands::LIST)
}

// `Value::is_range`.
pub fn is_range(v: &[u8]) -> Result<bool, Refusal>
    ensures { outcome result ≡ is_range_call v.now }
{
    of_kind(v, commands::RANGE)
}

// `Value::is_true`.
#[tactic(auto, using(crate::proofs::Questions::questions))]
pub fn is_true(v: &[u8]) -> Result<bool, Refusal>
    ensures { outcome result ≡ is_true_call v.now }
{
    form::check_value(v)?;
    Ok(matches!(v, [commands::BOOLEAN, 1, ..]))
}

// `Value::is_false`.
#[tactic(auto, using(crate::proofs::Questions::questions))]
pub fn is_false(v: &[u8]) -> Result<bool, Refusal>
    ensures { outcome result ≡ is_false_call v.now }
{
    form::check_value(v)?;
    Ok(matches!(v, [commands::BOOLEAN, 0, ..]))
}

// `Value::is_invalid_coercion`: null with trace 1.
#[tactic(auto, using(crate::proofs::Questions::questions))]
pub fn is_invalid_coercion(v: &[u8]) -> Result<bool, Refusal>
    ensures { outcome result ≡ is_invalid_coercion_call v.now }
{
    form::check_value(v)?;
    Ok(matches!(v, [commands::NULL, 1, ..]))
}

// ---- ranges

// An interval type. Refusal 2 for a byte over 3.
#[tactic(auto, using(crate::proofs::Questions::intervals))]
fn interval_type(i: u8) -> Result<u8, Refusal>
    ensures { outcome result ≡ interval_type i }
{
    if i <= 3 {
        Ok(i)
    } else {
        Err(Refusal::ValueShape)
    }
}

// `IntervalType::opened`.
#[tactic(auto, using(crate::proofs::Questions::intervals))]
pub fn opened(i: u8) -> Result<bool, Refusal>
    ensures { outcome result ≡ opened_call i }
{
    Ok(interval_type(i)? < 2)
}

// `IntervalType::closed`.
#[tactic(auto, using(crate::proofs::Questions::intervals))]
pub fn closed(i: u8) -> Result<bool, Refusal>
    ensures { outcome result ≡ closed_call i }
{
    Ok(2 <= interval_type(i)?)
}

// `IntervalType::undefined`.
#[tactic(auto, using(crate::proofs::Questions::intervals))]
pub fn undefined(i: u8) -> Result<bool, Refusal>
    ensures { outcome result ≡ undefined_call i }
{
    Ok(matches!(interval_type(i)?, 1 | 3))
}

// `Value::is_valid_range`.
#[tactic(auto, using(crate::proofs::Questions::questions))]
pub fn is_valid_range(v: &[u8]) -> Result<bool, Refusal>
    ensures { outcome result ≡ is_valid_range_call v.now }
{
    form::check_value(v)?;
    Ok(v[0] == commands::RANGE && compare::in_order(v))
}

// ---- built-in functions

// The positions of the functions of a number.
pub const ABS: u8 = 0;

pub const SQRT: u8 = 67;

// `Bif::feel_type` of the function at position b. Refusal 2 for a position over 85, and 18.
pub fn bif_feel_type(b: u8, out: &mut [u8]) -> Result<usize, Refusal>
    ensures { Built (bif_type_call b (length out.old)) out.old out.new result }
{
    match b {
        ABS | SQRT => {
            let function = [
                commands::FUNCTION_TYPE,
                1,
                commands::NUMBER_TYPE,
                commands::NUMBER_TYPE,
            ];
            output::give(&function, out)
        }
        0..=85 => output::give(&[commands::ANY_TYPE], out),
        _ => Err(Refusal::ValueShape),
    }
}
