// The byte form of document 01: one walk over a value or a type says where it ends and its level, or the first fault.
#![tactic(auto)]

ghost use Rattle.std.specs.Prelude.{◌≡◌, ◌-◌, ◌<◌};
ghost use Rattle.form.specs.Form.{level, Bytes};
ghost use Rattle.form.specs.Read.{check_type, check_value};
ghost use Rattle.form.specs.Answers.{outcome};

pub mod bytes;
pub mod commands;
pub mod limits;
pub mod refusals;
pub mod walk;

use crate::limits::{MOST_BYTES, TYPE_LEVELS, VALUE_LEVELS};
pub use refusals::Refusal;

// ---- the whole

// The reader of a whole type: its level, or refusal 6 to 10.
pub fn check_type(s: &[u8]) -> Result<usize, Refusal>
    ensures result_value { outcome result ≡ check_type s.now }
    ensures bytes { Bytes s.now }
{
    if s.is_empty() || MOST_BYTES < s.len() {
        return Err(Refusal::TypeLength);
    }
    match walk::pass_type(s, TYPE_LEVELS) {
        Ok(whole) if whole.size == s.len() => Ok(whole.level),
        Ok(_) => Err(Refusal::TypeLeftOver),
        Err(fault) => Err(fault.of_type()),
    }
}

// The reader of a whole value: its level, or refusal 1 to 5.
pub fn check_value(s: &[u8]) -> Result<usize, Refusal>
    ensures result_value { outcome result ≡ check_value s.now }
    ensures bytes { Bytes s.now }
{
    if s.is_empty() || MOST_BYTES < s.len() {
        return Err(Refusal::ValueLength);
    }
    match walk::pass_value(s, VALUE_LEVELS) {
        Ok(whole) if whole.size == s.len() => Ok(whole.level),
        Ok(_) => Err(Refusal::ValueLeftOver),
        Err(fault) => Err(fault.of_value()),
    }
}
