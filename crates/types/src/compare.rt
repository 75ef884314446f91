// Conformance of two types as one walk over both. For the calls here and for `values`, `infer` and `coercion`.
ghost use Rattle.std.specs.Prelude.{◌≡◌, ◌+◌, ◌<◌, ◌≤◌, ◌^◌, length, drop, MatchOption};
ghost use Rattle.order.specs.Order.{order_of};
ghost use Rattle.order.specs.Types.{le};
ghost use Rattle.order.specs.Size.{size_fields};
ghost use Rattle.types.specs.At.{type_at, fields_at, sig_at, size_sig};
ghost use Rattle.types.specs.Conform.{conform_of, conform_by, types_by, entries, ignores_at, le_sig, any_two, same_simple, add_sizes, Met, No};
ghost use Rattle.types.specs.Calls.{is_yes, is_conformant_by};

use crate::walk;
use form::commands;
use form::limits::{MOST_BYTES, NAME_WIDTH, TYPE_LEVELS};
use tables::readings::Reading;

// ---- conformance: both are read and compared at once. The answer is the size of the first, with that of the second left in `other`,
// where both are read and the first conforms to the second, and 0 where not.

// The types at the front of both, passed over.
pub(crate) fn skip_both(a: &[u8], b: &[u8], left: usize, other: &mut usize) -> usize
    ensures { Met (types_by any_two (type_at left a.now) (type_at left b.now)) result other.new }
{
    let x = walk::skip(a, left);
    if x == 0 {
        return 0;
    }
    let y = walk::skip(b, left);
    if y == 0 {
        return 0;
    }
    *other = y;
    x
}

// The size of the type at `at`, and of the one at `bt`, where they are the same simple type: a short way past most pairs.
fn same_simple(a: &[u8], at: usize, b: &[u8], bt: usize, left: usize) -> Option<usize>
    requires { (at ≤ length a.now) × (bt ≤ length b.now) }
    ensures { MatchOption result (types_by same_simple (type_at left (drop at a.now)) (type_at left (drop bt b.now)) ≡ No)
        (λ n. Met (types_by same_simple (type_at left (drop at a.now)) (type_at left (drop bt b.now))) n n × (0 < n)) }
{
    let n = form::walk::simple_at(a, at, left)?;
    if b.len() == bt || a[at] != b[bt] {
        return None;
    }
    Some(n)
}

// Whether the type at the front of `a` conforms to the one at the front of `b`.
#[cycle(conform_fields_conform_inner_conform_sig_conforms)]
pub fn conforms(a: &[u8], b: &[u8], left: usize, other: &mut usize, reading: Reading) -> usize
    ensures { Met (conform_of (order_of reading) (type_at left a.now) (type_at left b.now)) result other.new }
{
    if left == 0 {
        return 0;
    }
    if a.len() == 0 {
        return 0;
    }
    if b.len() == 0 {
        return 0;
    }
    let e = a[0];
    let f = b[0];
    if e != f {
        if e == commands::NULL_TYPE {
            return skip_both(&a[0..], &b[0..], left, other);
        }
        if f == commands::ANY_TYPE {
            return skip_both(&a[0..], &b[0..], left, other);
        }
        if reading.is_related(e, f) {
            *other = 1;
            return 1;
        }
        return 0;
    }
    match e {
        commands::ANY_TYPE..=commands::NULL_TYPE => {
            *other = 1;
            1
        }
        commands::LIST_TYPE => conform_inner(&a[1..], &b[1..], left - 1, other, reading),
        commands::RANGE_TYPE => conform_inner(&a[1..], &b[1..], left - 1, other, reading),
        commands::CONTEXT_TYPE => {
            if a.len() < 3 {
                return 0;
            }
            if b.len() < 3 {
                return 0;
            }
            conform_fields(
                &a[3..],
                form::bytes::word_at(a, 1),
                &b[3..],
                form::bytes::word_at(b, 1),
                left - 1,
                other,
                reading,
            )
        }
        commands::FUNCTION_TYPE => {
            if a.len() < 2 {
                return 0;
            }
            if b.len() < 2 {
                return 0;
            }
            let k = a[1];
            if k != b[1] {
                return 0;
            }
            conform_sig(&a[2..], &b[2..], usize::from(k), left - 1, other, reading)
        }
        _ => 0,
    }
}

// Two inner types, behind one byte each.
#[cycle(conform_fields_conform_inner_conform_sig_conforms)]
fn conform_inner(a: &[u8], b: &[u8], left: usize, other: &mut usize, reading: Reading) -> usize
    requires { (length a.now + 1 < 2 ^ 64) × (length b.now + 1 < 2 ^ 64) }
    ensures { Met (add_sizes 1 1 (conform_of (order_of reading) (type_at left a.now) (type_at left b.now))) result other.new }
{
    if let Some(k) = same_simple(a, 0, b, 0, left) {
        *other = k + 1;
        return k + 1;
    }
    let x = conforms(&a[0..], &b[0..], left, other, reading);
    if x == 0 {
        return 0;
    }
    *other = *other + 1;
    x + 1
}

// `count` parameters, the other way round, and the results behind them, which document 01 only passes over for count 0; behind two bytes each.
#[cycle(conform_fields_conform_inner_conform_sig_conforms)]
fn conform_sig(
    a: &[u8],
    b: &[u8],
    count: usize,
    left: usize,
    other: &mut usize,
    reading: Reading,
) -> usize
    requires { (length a.now + 2 < 2 ^ 64) × (length b.now + 2 < 2 ^ 64) }
    ensures { Met (add_sizes 2 2 (conform_by size_sig size_sig (le_sig (order_of reading) (ignores_at (order_of reading) count)) (sig_at left count a.now)
        (sig_at left count b.now))) result other.new }
{
    if 0 == count {
        if !reading.is_strict() {
            let x = skip_both(&a[0..], &b[0..], left, other);
            if x == 0 {
                return 0;
            }
            *other = *other + 2;
            return x + 2;
        }
    }
    let mut at: usize = 0;
    let mut bt: usize = 0;
    for _ in 0..count {
        if let Some(k) = same_simple(b, bt, a, at, left) {
            bt = bt + k;
            at = at + k;
            continue;
        }
        let y = conforms(&b[bt..], &a[at..], left, other, reading);
        if y == 0 {
            return 0;
        }
        bt = bt + y;
        at = at + *other;
    }
    let x = conforms(&a[at..], &b[bt..], left, other, reading);
    if x == 0 {
        return 0;
    }
    *other = bt + *other + 2;
    at + x + 2
}

// n entries of one context type and m of another, the names of both ascending; behind three bytes each.
#[cycle(conform_fields_conform_inner_conform_sig_conforms)]
fn conform_fields(
    a: &[u8],
    n: usize,
    b: &[u8],
    m: usize,
    left: usize,
    other: &mut usize,
    reading: Reading,
) -> usize
    requires { (length a.now + 3 < 2 ^ 64) × (length b.now + 3 < 2 ^ 64) }
    ensures { Met (add_sizes 3 3 (conform_by size_fields size_fields (entries (le (order_of reading))) (fields_at left n 0 a.now) (fields_at left m 0 b.now))) result other.new }
{
    let mut at: usize = 0;
    let mut least: usize = 0;
    let mut bt: usize = 0;
    let mut j: usize = 0;
    for _ in 0..n {
        if a.len() - at < NAME_WIDTH {
            return 0;
        }
        let name = form::bytes::name_at(a, at);
        if name < least {
            return 0;
        }
        if j < m {
            if b.len() - bt < NAME_WIDTH {
                return 0;
            }
        }
        let next = walk::next_name(b, bt, j, m);
        if next < name {
            return 0;
        }
        let p = at + NAME_WIDTH;
        if name < next {
            let k = walk::skip(&a[p..], left);
            if k == 0 {
                return 0;
            }
            at = p + k;
            least = name + 1;
            continue;
        }
        let q = bt + NAME_WIDTH;
        least = name + 1;
        j += 1;
        if let Some(k) = same_simple(a, p, b, q, left) {
            at = p + k;
            bt = q + k;
            continue;
        }
        let x = conforms(&a[p..], &b[q..], left, other, reading);
        if x == 0 {
            return 0;
        }
        at = p + x;
        bt = q + *other;
    }
    if j < m {
        return 0;
    }
    *other = bt + 3;
    at + 3
}

// Whether both are whole types and the first conforms to the second.
pub(crate) fn passes(a: &[u8], b: &[u8], reading: Reading) -> bool
    ensures { result ≡ is_yes (is_conformant_by (order_of reading) a.now b.now) }
{
    if MOST_BYTES < a.len() {
        return false;
    }
    if MOST_BYTES < b.len() {
        return false;
    }
    let mut other: usize = 0;
    let size = conforms(a, b, TYPE_LEVELS, &mut other, reading);
    if size == 0 {
        return false;
    }
    if size != a.len() {
        return false;
    }
    other == b.len()
}
