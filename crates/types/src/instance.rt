// `instance_of` of two lists and of two contexts.
ghost use Rattle.std.specs.Prelude.{◌≡◌, ◌+◌, ◌<◌, ◌≤◌, ◌^◌, length, get_or};
ghost use Rattle.form.specs.Limits.{most_bytes};
ghost use Rattle.order.specs.Document.{null_or_same};
ghost use Rattle.order.specs.Size.{size_fields};
ghost use Rattle.types.specs.At.{type_at, fields_at};
ghost use Rattle.types.specs.Conform.{conform_by, types_by, entries, add_sizes, Met};
ghost use Rattle.types.specs.Calls.{is_yes, instance_of};

use crate::{compare, walk};
use form::commands;
use form::limits::{MOST_BYTES, NAME_WIDTH, TYPE_LEVELS};

// ---- instance_of, in the same shape

// Whether the type at the front of `a` is Null or the one at the front of `b`.
fn null_or_same(a: &[u8], b: &[u8], left: usize, other: &mut usize) -> usize
    ensures { Met (types_by null_or_same (type_at left a.now) (type_at left b.now)) result other.new }
{
    let x = compare::skip_both(a, b, left, other);
    if x == 0 {
        return 0;
    }
    if a[0] == commands::NULL_TYPE {
        return x;
    }
    if a[..x] == b[..*other] {
        return x;
    }
    0
}

// n entries of one context type against m of another: each name of the second is in the first with Null or the equal type; behind three bytes each.
fn instance_fields(a: &[u8], n: usize, b: &[u8], m: usize, left: usize, other: &mut usize) -> usize
    requires { (length a.now + 3 < 2 ^ 64) × (length b.now + 3 < 2 ^ 64) }
    ensures { Met (add_sizes 3 3 (conform_by size_fields size_fields (entries null_or_same) (fields_at left n 0 a.now) (fields_at left m 0 b.now))) result other.new }
{
    let mut at: usize = 0;
    let mut least: usize = 0;
    let mut bt: usize = 0;
    let mut j: usize = 0;
    for _ in 0..n {
        if a.len() - at < NAME_WIDTH {
            return 0;
        }
        let name = form::bytes::name_at(a, at);
        if name < least {
            return 0;
        }
        if j < m && b.len() - bt < NAME_WIDTH {
            return 0;
        }
        let next = walk::next_name(b, bt, j, m);
        if next < name {
            return 0;
        }
        let p = at + NAME_WIDTH;
        if name < next {
            let k = walk::skip(&a[p..], left);
            if k == 0 {
                return 0;
            }
            at = p + k;
            least = name + 1;
            continue;
        }
        let q = bt + NAME_WIDTH;
        let x = null_or_same(&a[p..], &b[q..], left, other);
        if x == 0 {
            return 0;
        }
        at = p + x;
        bt = q + *other;
        least = name + 1;
        j += 1;
    }
    if j < m {
        return 0;
    }
    *other = bt + 3;
    at + 3
}

// Whether both are whole types, of which the first is a list type, and the first is an instance of the second: the other inner type is Any, or both are the same bytes.
fn instance_list(a: &[u8], b: &[u8]) -> bool
    requires { (0 < length a.now) × (length a.now ≤ most_bytes) × (length b.now ≤ most_bytes) × (get_or a.now 0 0 ≡ 42) }
    ensures { result ≡ is_yes (instance_of a.now b.now) }
{
    if b.len() < 2 || b[0] != a[0] {
        return false;
    }
    let of_any = b[1] == commands::ANY_TYPE;
    let is_instance = if of_any { b.len() == 2 } else { a == b };
    is_instance && walk::skip(a, TYPE_LEVELS) == a.len()
}

// Whether both are whole types, of which the first is a context type, and the first is an instance of the second: each name of the second is in the first with Null or the equal type.
fn instance_context(a: &[u8], b: &[u8]) -> bool
    requires { (0 < length a.now) × (length a.now ≤ most_bytes) × (length b.now ≤ most_bytes) × (get_or a.now 0 0 ≡ 44) }
    ensures { result ≡ is_yes (instance_of a.now b.now) }
{
    if a.len() < 3 || b.len() < 3 || b[0] != commands::CONTEXT_TYPE {
        return false;
    }
    let mut other: usize = 0;
    let size = instance_fields(
        &a[3..],
        form::bytes::word_at(a, 1),
        &b[3..],
        form::bytes::word_at(b, 1),
        TYPE_LEVELS - 1,
        &mut other,
    );
    size == a.len() && other == b.len()
}

// Whether both are whole types and the first is an instance of the second.
pub(crate) fn is_instance(a: &[u8], b: &[u8]) -> bool
    ensures { result ≡ is_yes (instance_of a.now b.now) }
{
    if a.is_empty() || MOST_BYTES < a.len() || MOST_BYTES < b.len() {
        return false;
    }
    match a[0] {
        commands::LIST_TYPE => instance_list(a, b),
        commands::CONTEXT_TYPE => instance_context(a, b),
        _ => false,
    }
}
