// The members' own table of simple types, and the readings of conformance that walks and builders are handed.
#![tactic(auto)]

ghost use Rattle.std.specs.Prelude.{◌≡◌};
ghost use Rattle.form.specs.Answers.{outcome};
ghost use Rattle.tables.specs.Calls.{check_table};

pub mod load;
pub mod readings;

use form::Refusal;

// Whether a table loads: yes, or 26, 27 or 28.
#[tactic(auto, using(crate::proofs::CallContracts::as_tests))]
pub fn check_table(table: &[u8]) -> Result<bool, Refusal>
    ensures { outcome result ≡ check_table table.now }
{
    load::load(table)?;
    Ok(true)
}
