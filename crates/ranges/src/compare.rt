// The ends of a range, by the commands that stand there, and whether they are in order.
ghost use Rattle.std.specs.Prelude.{◌≡◌, ◌⊎◌, ◌<◌, ◌≤◌, ◌^◌, length, get_or};
ghost use Rattle.form.specs.Form.{num_at};
ghost use Rattle.ranges.specs.Ranges.{meaning, decimal, in_order};
ghost use Rattle.ranges.specs.Calls.{Ranged, RangeIs, EndAt, point_at};

use crate::decimals::Decimal;
use form::commands::{DATE, DECIMAL, NULL, NUMBER, STRING, YEARS_AND_MONTHS};
use form::{bytes, commands};

// The whole number of the key behind a command.
fn key(s: &[u8]) -> i64
    requires { 9 ≤ length s.now }
    ensures value { result ≡ meaning (num_at 8 1 s.now) }
    ensures eight_bytes { num_at 8 1 s.now < 2 ^ 64 }
{
    i64::from_le_bytes([s[1], s[2], s[3], s[4], s[5], s[6], s[7], s[8]])
}

// The number that stands at the front, whole or decimal.
#[tactic(auto, unfolding(crate::specs::Calls::point_at))]
fn number(s: &[u8]) -> Decimal
    requires read { EndAt s.now }
    requires first { (get_or s.now 0 0 ≡ 0x02) ⊎ (get_or s.now 0 0 ≡ 0x10) }
    ensures coefficient { result.coefficient ≡ meaning (num_at 8 1 s.now) }
    ensures exponent { point_at s.now ≡ decimal (num_at 8 1 s.now) result.exponent }
{
    let exponent = if s[0] == DECIMAL { s[9] } else { 0 };
    Decimal {
        coefficient: key(s),
        exponent,
    }
}

// Whether two ends are in order, i and j being their interval types.
#[tactic(auto, unfolding(crate::specs::Calls::point_at))]
fn are_ordered(i: u8, j: u8, start: &[u8], end: &[u8]) -> bool
    requires start_read { EndAt start.now }
    requires end_read { EndAt end.now }
    ensures { result ≡ in_order i j (point_at start.now) (point_at end.now) }
{
    match (start[0], end[0]) {
        (NULL, NULL) => false,
        (NULL, _) => i < 2,
        (NUMBER..=YEARS_AND_MONTHS | DECIMAL, NULL) => j < 2,
        (STRING, STRING) => bytes::name_at(start, 1) <= bytes::name_at(end, 1),
        (NUMBER | DECIMAL, NUMBER | DECIMAL) => number(start).at_most(number(end)),
        (k @ DATE..=YEARS_AND_MONTHS, h) => k == h && key(start) <= key(end),
        _ => false,
    }
}

// Whether the ends of a range that was read are in order: the start behind three bytes, the end behind it.
#[tactic(auto, using(crate::proofs::BothEnds::ends))]
pub(crate) fn in_order(v: &[u8]) -> bool
    requires { Ranged v.now }
    ensures { RangeIs v.now result }
{
    let (i, j) = (v[1], v[2]);
    match commands::leaf_size(v[3]) {
        Some(size) if i != 3 && j != 3 => are_ordered(i, j, &v[3..], &v[3 + size..]),
        _ => false,
    }
}
