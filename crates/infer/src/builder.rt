// The builder of both types of a value, over a scratch and a spare place.
ghost use Rattle.std.specs.Prelude.{◌≡◌, true, ◌+◌, ◌*◌, ◌<◌, ◌≤◌, length, drop};
ghost use Rattle.form.specs.Answers.{Built};
ghost use Rattle.form.specs.Limits.{type_levels, value_levels};
ghost use Rattle.order.specs.Order.{order_of};
ghost use Rattle.order.specs.Size.{size_val, size_vals, size_entries};
ghost use Rattle.types.specs.At.{type_at};
ghost use Rattle.values.specs.At.{value_at, items_at, entries_at, definition_at, size_definition};
ghost use Rattle.infer.specs.Typing.{FitVal, FitEntries, FitItems, FitDefinition, Typed, type_text, fields_text, inner_text, signature_text, Sides, Reduced, Kept, Joined};
ghost use Rattle.infer.specs.Calls.{Ready, type_call};

use crate::data;
use form::limits::{MOST_BYTES, NAME_WIDTH, TYPE_LEVELS, VALUE_LEVELS};
use form::{Refusal, commands};
use tables::readings::Reading;

// How many bytes of the value were read, and how many of the type written.
#[derive(Clone, Copy, Debug, PartialEq, Eq)]
struct Ends {
    read: usize,
    wrote: usize,
}

// ---- the builders: `least` asks the least type under a reading, otherwise the inferred one is written

// Of the types at the front, n bytes, and behind it, m bytes: whether they are equal, or the second conforms to the first.
fn keeps(equal: bool, s: &[u8], n: usize, m: usize) -> bool
    requires { Sides (type_at type_levels s.now) (type_at type_levels (drop n s.now)) s.now n m (n + m) }
    ensures { Kept equal (type_at type_levels s.now) (type_at type_levels (drop n s.now)) result }
{
    if equal {
        let p = n + m;
        return s[..n] == s[n..p];
    }
    let mut other = 0;
    types::compare::conforms(&s[n..], s, TYPE_LEVELS, &mut other, Reading::DOCUMENT) != 0
}

// The type at the front, n bytes, and the one behind it, m bytes, become one at the front; answers its length. Of equal ones the first stays as it is.
fn join(
    least: bool,
    equal: bool,
    out: &mut [u8],
    n: usize,
    m: usize,
    spare: &mut [u8],
    reading: Reading,
) -> usize
    requires sides { Sides (type_at type_levels out.old) (type_at type_levels (drop n out.old)) out.old n m (length spare.old) }
    requires reduced { Reduced (order_of reading) least (type_at type_levels out.old) }
    ensures joined { Joined (order_of reading) least equal (type_at type_levels out.old) (type_at type_levels (drop n out.old)) out.old out.new result }
    ensures spare_len_unchanged { length spare.new ≡ length spare.old }
{
    if keeps(true, &out[..], n, m) {
        return n;
    }
    if least {
        let w = &out[..];
        let e = lattice::write(true, w, &w[n..], spare, TYPE_LEVELS, reading);
        let k = e.wrote;
        output::copy(&spare[..k], out);
        return k;
    }
    if keeps(equal, &out[..], n, m) {
        return n;
    }
    out[0] = commands::ANY_TYPE;
    1
}

// The function type of a definition behind its count: the parameters' types, then the result's, which stands first in the value.
fn write_signature(v: &[u8], count: usize, out: &mut [u8], left: usize) -> Ends
    requires { FitDefinition (definition_at left count v.now) (length out.old) }
    ensures { Typed size_definition signature_text (definition_at left count v.now) out.old out.new result.read result.wrote }
{
    let k = types::walk::skip(v, left);
    let mut at = k;
    let mut to: usize = 0;
    for _ in 0..count {
        let p = at + NAME_WIDTH;
        let x = types::walk::skip(&v[p..], left);
        let q = p + x;
        output::copy(&v[p..q], &mut out[to..]);
        at = q;
        to = to + x;
    }
    output::copy(&v[..k], &mut out[to..]);
    Ends {
        read: at,
        wrote: to + k,
    }
}

// The type of the value at the front of `v`.
#[cycle(write_entries_write_items_write_type)]
fn write_type(
    least: bool,
    v: &[u8],
    out: &mut [u8],
    spare: &mut [u8],
    left: usize,
    reading: Reading,
) -> Ends
    requires fit_val { FitVal (order_of reading) least (value_at left v.now) (length out.old) (length spare.old) }
    requires left_le_value_levels { left ≤ value_levels }
    ensures typed { Typed size_val (type_text (order_of reading) least) (value_at left v.now) out.old out.new result.read result.wrote }
    ensures spare_len_unchanged { length spare.new ≡ length spare.old }
{
    let c = v[0];
    match c {
        commands::NULL..=commands::YEARS_AND_MONTHS | commands::DECIMAL => {
            out[0] = commands::leaf_type(c);
            Ends {
                read: commands::width(c) + 1,
                wrote: 1,
            }
        }
        commands::RANGE => {
            out[0] = commands::RANGE_TYPE;
            let e = write_items(
                least,
                true,
                &v[3..],
                2,
                &mut out[1..],
                spare,
                left - 1,
                reading,
            );
            Ends {
                read: e.read + 3,
                wrote: e.wrote + 1,
            }
        }
        commands::LIST => {
            let n = form::bytes::word_at(v, 1);
            out[0] = commands::LIST_TYPE;
            let e = write_items(
                least,
                false,
                &v[3..],
                n,
                &mut out[1..],
                spare,
                left - 1,
                reading,
            );
            Ends {
                read: e.read + 3,
                wrote: e.wrote + 1,
            }
        }
        commands::CONTEXT => {
            let n = form::bytes::word_at(v, 1);
            out[0] = commands::CONTEXT_TYPE;
            out[1] = v[1];
            out[2] = v[2];
            let e = write_entries(least, &v[3..], n, &mut out[3..], spare, left - 1, reading);
            Ends {
                read: e.read + 3,
                wrote: e.wrote + 3,
            }
        }
        commands::FUNCTION_DEFINITION => {
            let n = v[1];
            out[0] = commands::FUNCTION_TYPE;
            out[1] = n;
            let e = write_signature(&v[4..], usize::from(n), &mut out[2..], left - 1);
            Ends {
                read: e.read + 4,
                wrote: e.wrote + 2,
            }
        }
        commands::FEEL_TYPE => {
            let n = types::walk::skip(&v[1..], left - 1);
            let p = n + 1;
            output::copy(&v[1..p], out);
            Ends { read: p, wrote: n }
        }
        _ => {
            out[0] = commands::ANY_TYPE;
            Ends {
                read: commands::width(c) + 1,
                wrote: 1,
            }
        }
    }
}

// One type for n values: Null where there is none, otherwise the first's, with the others' joined to it one by one.
#[cycle(write_entries_write_items_write_type)]
fn write_items(
    least: bool,
    equal: bool,
    v: &[u8],
    n: usize,
    out: &mut [u8],
    spare: &mut [u8],
    left: usize,
    reading: Reading,
) -> Ends
    requires fit_items { FitItems (order_of reading) least (items_at left n v.now) (length out.old) (length spare.old) }
    requires left_le_value_levels { left ≤ value_levels }
    ensures typed { Typed size_vals (inner_text (order_of reading) least equal) (items_at left n v.now) out.old out.new result.read result.wrote }
    ensures spare_len_unchanged { length spare.new ≡ length spare.old }
{
    if n == 0 {
        out[0] = commands::NULL_TYPE;
        return Ends { read: 0, wrote: 1 };
    }
    let e = write_type(least, v, out, spare, left, reading);
    let mut at = e.read;
    let mut to = e.wrote;
    for _ in 1..n {
        if let Some(k) = data::leaf(&v[at..]) {
            out[to] = commands::leaf_type(v[at]);
            at += k;
            to = join(least, equal, out, to, 1, spare, reading);
            continue;
        }
        let e = write_type(least, &v[at..], &mut out[to..], spare, left, reading);
        at = at + e.read;
        to = join(least, equal, out, to, e.wrote, spare, reading);
    }
    Ends {
        read: at,
        wrote: to,
    }
}

// n entries of a context: each name with its value's type.
#[cycle(write_entries_write_items_write_type)]
fn write_entries(
    least: bool,
    v: &[u8],
    n: usize,
    out: &mut [u8],
    spare: &mut [u8],
    left: usize,
    reading: Reading,
) -> Ends
    requires fit_entries { FitEntries (order_of reading) least (entries_at left n 0 v.now) (length out.old) (length spare.old) }
    requires left_le_value_levels { left ≤ value_levels }
    ensures typed { Typed size_entries (fields_text (order_of reading) least) (entries_at left n 0 v.now) out.old out.new result.read result.wrote }
    ensures spare_len_unchanged { length spare.new ≡ length spare.old }
{
    let mut at: usize = 0;
    let mut to: usize = 0;
    for _ in 0..n {
        let p = at + NAME_WIDTH;
        let w = to + NAME_WIDTH;
        output::copy_name(v, at, out, to);
        if let Some(k) = data::leaf(&v[p..]) {
            out[w] = commands::leaf_type(v[p]);
            at = p + k;
            to = w + 1;
            continue;
        }
        let e = write_type(least, &v[p..], &mut out[w..], spare, left, reading);
        at = p + e.read;
        to = w + e.wrote;
    }
    Ends {
        read: at,
        wrote: to,
    }
}

// ---- all calls

// All calls after the value was read, and for the least type is data: the answer is built in the scratch, and copied where it fits. Refusals: 14, 18.
fn build_with(
    least: bool,
    v: &[u8],
    scratch: &mut [u8],
    spare: &mut [u8],
    out: &mut [u8],
    reading: Reading,
) -> Result<usize, Refusal>
    requires ready { Ready (order_of reading) least v.now }
    requires v_in_bounds { length v.now ≤ length spare.old }
    ensures { Built (type_call (order_of reading) least v.now (length scratch.old) (length out.old)) out.old out.new result }
{
    if scratch.len() < 4 * v.len() {
        return Err(Refusal::Scratch);
    }
    let e = write_type(least, v, scratch, spare, VALUE_LEVELS, reading);
    output::give(&scratch[..e.wrote], out)
}

// All calls after the value was read, with a spare place: a small one for a short value, since all of it is set to zero. Refusals 14, 18.
pub(crate) fn build(
    least: bool,
    v: &[u8],
    scratch: &mut [u8],
    out: &mut [u8],
    reading: Reading,
) -> Result<usize, Refusal>
    requires { Ready (order_of reading) least v.now }
    ensures { Built (type_call (order_of reading) least v.now (length scratch.old) (length out.old)) out.old out.new result }
{
    if v.len() <= 512 {
        let mut spare = [0u8; 512];
        return build_with(least, v, scratch, &mut spare, out, reading);
    }
    let mut spare = [0u8; MOST_BYTES];
    build_with(least, v, scratch, &mut spare, out, reading)
}
