// Whether a value is data.
ghost use Rattle.std.specs.Prelude.{◌≡◌, ◌<◌, ◌≤◌, length, get_or, MatchOption};
ghost use Rattle.order.specs.Order.{order_of};
ghost use Rattle.order.specs.Values.{is_data_by, are_data, hold_data};
ghost use Rattle.order.specs.Size.{size_val, size_vals, size_entries};
ghost use Rattle.types.specs.At.{Ok};
ghost use Rattle.values.specs.At.{value_at, items_at, entries_at};
ghost use Rattle.infer.specs.Typing.{data_by, Plain};

use form::commands;
use form::limits::NAME_WIDTH;
use tables::readings::Reading;

// The size of the value at the front where it is a boolean, a whole number, a string or a temporal: a short way past most values, without the
// decimals, whose test would cost all others time.
// Each arm asks for the size of a command that is known, so that the loops have it as a constant.
pub(crate) fn leaf(v: &[u8]) -> Option<usize>
    requires { 0 < length v.now }
    ensures { MatchOption result (0 < get_or v.now 0 0 → 9 ≤ get_or v.now 0 0) (Plain (get_or v.now 0 0)) }
{
    match v[0] {
        commands::BOOLEAN => commands::leaf_size(commands::BOOLEAN),
        commands::NUMBER => commands::leaf_size(commands::NUMBER),
        commands::STRING => commands::leaf_size(commands::STRING),
        commands::DATE..=commands::YEARS_AND_MONTHS => commands::leaf_size(commands::DATE),
        _ => None,
    }
}

// ---- data values

// Whether the value at the front is data: 00 to 0B and 10 throughout, and 0C under the strict reading.
#[cycle(are_data_hold_data_is_data)]
pub(crate) fn is_data(v: &[u8], left: usize, reading: Reading) -> Option<usize>
    requires { Ok (value_at left v.now) }
    ensures { result ≡ data_by (is_data_by (order_of reading)) size_val (value_at left v.now) }
{
    let c = v[0];
    match c {
        commands::NULL..=commands::YEARS_AND_MONTHS | commands::DECIMAL => {
            Some(commands::width(c) + 1)
        }
        commands::RANGE => Some(are_data(&v[3..], 2, left - 1, reading)? + 3),
        commands::LIST => {
            let n = form::bytes::word_at(v, 1);
            Some(are_data(&v[3..], n, left - 1, reading)? + 3)
        }
        commands::CONTEXT => {
            let n = form::bytes::word_at(v, 1);
            Some(hold_data(&v[3..], n, left - 1, reading)? + 3)
        }
        commands::FUNCTION_DEFINITION if reading.is_strict() => {
            Some(values::walk::skip(v, left))
        }
        _ => None,
    }
}

// Whether n values are data.
#[cycle(are_data_hold_data_is_data)]
fn are_data(v: &[u8], n: usize, left: usize, reading: Reading) -> Option<usize>
    requires { Ok (items_at left n v.now) }
    ensures { result ≡ data_by (are_data (order_of reading)) size_vals (items_at left n v.now) }
{
    let mut at = 0;
    for _ in 0..n {
        if let Some(k) = leaf(&v[at..]) {
            at += k;
            continue;
        }
        at += is_data(&v[at..], left, reading)?;
    }
    Some(at)
}

// Whether the values of n entries are data.
#[cycle(are_data_hold_data_is_data)]
fn hold_data(v: &[u8], n: usize, left: usize, reading: Reading) -> Option<usize>
    requires { Ok (entries_at left n 0 v.now) }
    ensures { result ≡ data_by (hold_data (order_of reading)) size_entries (entries_at left n 0 v.now) }
{
    let mut at = 0;
    for _ in 0..n {
        let p = at + NAME_WIDTH;
        if let Some(k) = leaf(&v[p..]) {
            at = p + k;
            continue;
        }
        at = p + is_data(&v[p..], left, reading)?;
    }
    Some(at)
}
