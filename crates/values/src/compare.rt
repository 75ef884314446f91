// Conformance of a value to a type as one walk over both. For the call here and for `retrieval` and `coercion`.
ghost use Rattle.std.specs.Prelude.{◌≡◌, ◌+◌, ◌-◌, ◌<◌, ◌≤◌, ◌^◌, length, drop, get_or, MatchOption};
ghost use Rattle.order.specs.Order.{order_of};
ghost use Rattle.order.specs.Types.{cmp};
ghost use Rattle.types.specs.At.{type_at, fields_at, sig_at, Ok};
ghost use Rattle.types.specs.Conform.{types_by, add_sizes, Met, No};
ghost use Rattle.types.specs.Calls.{is_yes};
ghost use Rattle.values.specs.At.{value_at, items_at, entries_at, definition_at};
ghost use Rattle.values.specs.Held.{held_by, held, leaf_conforms, held_items, held_entries, parameter_way, held_definition};
ghost use Rattle.values.specs.Calls.{is_conformant_by};

use crate::walk;
use form::commands;
use form::limits::{MOST_BYTES, NAME_WIDTH, TYPE_LEVELS};
use tables::readings::Reading;

// ---- conformance: a value and a type are read and compared at once. The answer is the size of the value, with that of the type left in `other`, where both are
// read and the value conforms, and 0 where not. `left` counts the levels of the type; a value has one less.

// The size of the value at `at` where it is a leaf of data but a decimal and conforms, by document 01's order, to a simple type at `bt`: a short way past most
// pairs. What conforms so conforms under every reading.
fn leaf(v: &[u8], at: usize, t: &[u8], bt: usize, left: usize) -> Option<usize>
    requires { (at ≤ length v.now) × (bt ≤ length t.now) × (0 < left) }
    ensures { MatchOption result (held_by leaf_conforms (value_at (left - 1) (drop at v.now)) (type_at left (drop bt t.now)) ≡ No)
        (λ n. Met (held_by leaf_conforms (value_at (left - 1) (drop at v.now)) (type_at left (drop bt t.now))) n 1 × (0 < n)) }
{
    if t.len() == bt {
        return None;
    }
    let n = form::walk::leaf_size_at(v, at, left - 1)?;
    let c = v[at];
    let d = t[bt];
    if d == commands::leaf_type(c) || d == commands::ANY_TYPE {
        return Some(n);
    }
    if c != commands::NULL || d < commands::ANY_TYPE || commands::NULL_TYPE < d {
        return None;
    }
    Some(n)
}

// Whether the value at the front of `v` conforms to the type at the front of `t`. The commands that most records have stand here, so that the call is short.
#[cycle(conform_entries_conform_items_conforms)]
pub fn conforms(v: &[u8], t: &[u8], left: usize, other: &mut usize, reading: Reading) -> usize
    ensures { Met (held (order_of reading) (value_at (left - 1) v.now) (type_at left t.now)) result other.new }
{
    if v.len() < 3 {
        return conform_other(&v[0..], &t[0..], left, other, reading);
    }
    if left < 2 {
        return 0;
    }
    if t.len() == 0 {
        return 0;
    }
    let d = t[0];
    if d == commands::ANY_TYPE {
        *other = 1;
        return walk::skip(&v[0..], left - 1);
    }
    match v[0] {
        commands::RANGE => {
            if d != commands::RANGE_TYPE {
                return 0;
            }
            if 3 < v[1] {
                return 0;
            }
            if 3 < v[2] {
                return 0;
            }
            conform_items(&v[3..], 2, &t[1..], left - 1, other, reading)
        }
        commands::LIST => {
            if d != commands::LIST_TYPE {
                return 0;
            }
            conform_items(
                &v[3..],
                form::bytes::word_at(v, 1),
                &t[1..],
                left - 1,
                other,
                reading,
            )
        }
        commands::CONTEXT => {
            if d != commands::CONTEXT_TYPE {
                return 0;
            }
            if t.len() < 3 {
                return 0;
            }
            conform_entries(
                &v[3..],
                form::bytes::word_at(v, 1),
                &t[3..],
                form::bytes::word_at(t, 1),
                left - 1,
                other,
                reading,
            )
        }
        _ => conform_other(&v[0..], &t[0..], left, other, reading),
    }
}

// Whether the value at the front of `v`, which is no range, list or context or is cut short, conforms to the type at the front of `t`.
fn conform_other(v: &[u8], t: &[u8], left: usize, other: &mut usize, reading: Reading) -> usize
    requires { 3 ≤ length v.now → 9 ≤ get_or v.now 0 0 → 11 < get_or v.now 0 0 }
    ensures { Met (held (order_of reading) (value_at (left - 1) v.now) (type_at left t.now)) result other.new }
{
    if left < 2 {
        return 0;
    }
    if v.len() == 0 {
        return 0;
    }
    if t.len() == 0 {
        return 0;
    }
    let d = t[0];
    if d == commands::ANY_TYPE {
        *other = 1;
        return walk::skip(&v[0..], left - 1);
    }
    let c = v[0];
    match c {
        commands::NULL => {
            let Some(n) = form::walk::leaf_size_at(v, 0, left - 1) else {
                return 0;
            };
            let m = types::walk::skip(&t[0..], left);
            if m == 0 {
                return 0;
            }
            *other = m;
            n
        }
        commands::BOOLEAN..=commands::YEARS_AND_MONTHS | commands::DECIMAL => {
            let e = commands::leaf_type(c);
            if d != e {
                if reading.is_related(e, d) {
                    *other = 1;
                    return walk::skip(&v[0..], left - 1);
                }
                return 0;
            }
            *other = 1;
            walk::skip(&v[0..], left - 1)
        }
        commands::FUNCTION_DEFINITION => {
            if d != commands::FUNCTION_TYPE {
                return 0;
            }
            if t.len() < 2 {
                return 0;
            }
            let n = walk::skip(&v[0..], left - 1);
            if n == 0 {
                return 0;
            }
            let k = v[1];
            if k != t[1] {
                return 0;
            }
            conform_definition(&v[4..], &t[2..], usize::from(k), left - 1, other, reading)
        }
        _ => 0,
    }
}

// n values, each held to the one type, of which each of them tells the size; behind three bytes and one.
#[cycle(conform_entries_conform_items_conforms)]
fn conform_items(
    v: &[u8],
    n: usize,
    t: &[u8],
    left: usize,
    other: &mut usize,
    reading: Reading,
) -> usize
    requires { (length v.now + 3 < 2 ^ 64) × (length t.now + 1 < 2 ^ 64) × (0 < left) }
    ensures { Met (add_sizes 3 1 (held_items (order_of reading) (items_at (left - 1) n v.now) (type_at left t.now))) result other.new }
{
    if 0 == n {
        let m = types::walk::skip(&t[0..], left);
        if m == 0 {
            return 0;
        }
        *other = m + 1;
        return 3;
    }
    let mut at: usize = 0;
    let mut bt: usize = 0;
    for _ in 0..n {
        if let Some(k) = leaf(v, at, t, 0, left) {
            at = at + k;
            bt = 1;
            continue;
        }
        let x = conforms(&v[at..], &t[0..], left, other, reading);
        if x == 0 {
            return 0;
        }
        at = at + x;
        bt = *other;
    }
    *other = bt + 1;
    at + 3
}

// n entries of a context and m of a type, the names of both ascending: an entry that the type lacks is passed over; behind three bytes each.
#[cycle(conform_entries_conform_items_conforms)]
fn conform_entries(
    v: &[u8],
    n: usize,
    t: &[u8],
    m: usize,
    left: usize,
    other: &mut usize,
    reading: Reading,
) -> usize
    requires { (length v.now + 3 < 2 ^ 64) × (length t.now + 3 < 2 ^ 64) × (0 < left) }
    ensures { Met (add_sizes 3 3 (held_entries (order_of reading) (entries_at (left - 1) n 0 v.now) (fields_at left m 0 t.now))) result other.new }
{
    if 0 == n {
        if 0 < m {
            return 0;
        }
        *other = 3;
        return 3;
    }
    if left < 2 {
        return 0;
    }
    let mut at: usize = 0;
    let mut least: usize = 0;
    let mut bt: usize = 0;
    let mut j: usize = 0;
    for _ in 0..n {
        if v.len() - at < NAME_WIDTH {
            return 0;
        }
        let name = form::bytes::name_at(v, at);
        if name < least {
            return 0;
        }
        if j < m {
            if t.len() - bt < NAME_WIDTH {
                return 0;
            }
        }
        let next = types::walk::next_name(t, bt, j, m);
        if next < name {
            return 0;
        }
        let p = at + NAME_WIDTH;
        least = name + 1;
        if name < next {
            let k = walk::skip(&v[p..], left - 1);
            if k == 0 {
                return 0;
            }
            at = p + k;
            continue;
        }
        let q = bt + NAME_WIDTH;
        j += 1;
        if let Some(k) = leaf(v, p, t, q, left) {
            at = p + k;
            bt = q + 1;
            continue;
        }
        let x = conforms(&v[p..], &t[q..], left, other, reading);
        if x == 0 {
            return 0;
        }
        at = p + x;
        bt = q + *other;
    }
    if j < m {
        return 0;
    }
    *other = bt + 3;
    at + 3
}

// The type of an own parameter at the front of `v` against that of the target's at the front of `t`: the own one to the target's; strict, the other way round.
fn conform_parameter(v: &[u8], t: &[u8], left: usize, other: &mut usize, reading: Reading) -> usize
    ensures { Met (types_by (cmp (order_of reading) (parameter_way (order_of reading))) (type_at left v.now) (type_at left t.now)) result other.new }
{
    if reading.is_strict() {
        let y = types::compare::conforms(t, v, left, other, reading);
        if y == 0 {
            return 0;
        }
        let x = *other;
        *other = y;
        return x;
    }
    types::compare::conforms(v, t, left, other, reading)
}

// A function definition that was read, from its result type on, against a function type from its parameters on: parameter by parameter, result to result; behind
// four bytes and two.
fn conform_definition(
    v: &[u8],
    t: &[u8],
    count: usize,
    left: usize,
    other: &mut usize,
    reading: Reading,
) -> usize
    requires { (length v.now + 4 < 2 ^ 64) × (length t.now + 2 < 2 ^ 64) × Ok (definition_at (left - 1) count v.now) }
    ensures { Met (add_sizes 4 2 (held_definition (order_of reading) (definition_at (left - 1) count v.now) (sig_at left count t.now))) result other.new }
{
    let mut at = types::walk::skip(v, left);
    let mut bt: usize = 0;
    for _ in 0..count {
        let p = at + NAME_WIDTH;
        let x = conform_parameter(&v[p..], &t[bt..], left, other, reading);
        if x == 0 {
            return 0;
        }
        at = p + x;
        bt = bt + *other;
    }
    let x = types::compare::conforms(&v[0..], &t[bt..], left, other, reading);
    if x == 0 {
        return 0;
    }
    *other = bt + *other + 2;
    at + 4
}

// Whether both are whole and the value conforms to the type: a call that asks this first needs the readers only where the answer is no.
pub fn passes(v: &[u8], t: &[u8], reading: Reading) -> bool
    ensures { result ≡ is_yes (is_conformant_by (order_of reading) v.now t.now) }
{
    if MOST_BYTES < v.len() {
        return false;
    }
    if MOST_BYTES < t.len() {
        return false;
    }
    let mut other: usize = 0;
    let size = conforms(v, t, TYPE_LEVELS, &mut other, reading);
    if size == 0 {
        return false;
    }
    if size != v.len() {
        return false;
    }
    other == t.len()
}
