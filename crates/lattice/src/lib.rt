// The builder of the common supertype and of the common subtype of two types, one code for both directions: the parameters of functions go the other way. No calls: `bounds` and
// `infer` use it.
#![tactic(auto)]

ghost use Rattle.std.specs.Prelude.{◌≡◌, ◌+◌, ◌<◌, ◌^◌, ◌/◌, length, get_or};
ghost use Rattle.form.specs.Limits.{name_width};
ghost use Rattle.form.specs.Form.{bytes, num_at};
ghost use Rattle.order.specs.Order.{toward, order_of};
ghost use Rattle.types.specs.At.{type_at, fields_at, sig_at};
ghost use Rattle.lattice.specs.Writing.{of_types, of_fields, of_sigs, Ready, Combined, Counted};

use form::commands;
use form::limits::{NAME_END, NAME_WIDTH};
use tables::readings::{self, Reading};

// How many bytes of each were read, and how many written.
#[derive(Clone, Copy, Debug, PartialEq, Eq)]
pub struct Ends {
    pub first: usize,
    pub second: usize,
    pub wrote: usize,
}

impl Ends {
    // One byte of each.
    const ONE: Ends = Ends {
        first: 1,
        second: 1,
        wrote: 1,
    };

    // Those of what stands behind a head of n bytes.
    fn behind(self, n: usize) -> Ends
        requires { (self.first + n < 2 ^ 64) × (self.second + n < 2 ^ 64) × (self.wrote + n < 2 ^ 64) }
        ensures { result ≡ record { first = self.first + n; second = self.second + n; wrote = self.wrote + n } }
    {
        Ends {
            first: self.first + n,
            second: self.second + n,
            wrote: self.wrote + n,
        }
    }

    // Those of both, where the next stands behind these.
    fn then(self, next: Ends) -> Ends
        requires { (self.first + next.first < 2 ^ 64) × (self.second + next.second < 2 ^ 64) × (self.wrote + next.wrote < 2 ^ 64) }
        ensures { result ≡ record { first = self.first + next.first; second = self.second + next.second; wrote = self.wrote + next.wrote } }
    {
        Ends {
            first: self.first + next.first,
            second: self.second + next.second,
            wrote: self.wrote + next.wrote,
        }
    }
}

// The ends of two runs of entries, and how many entries were written.
#[derive(Clone, Copy, Debug, PartialEq, Eq)]
struct Entries {
    ends: Ends,
    count: usize,
}

// Common supertype (up) or subtype of any two types. Two equal simple ones take a short way, which stands where it is asked: most entries of contexts go it.
#[inline(always)]
#[cycle(bounds)]
pub fn write(up: bool, a: &[u8], b: &[u8], out: &mut [u8], left: usize, reading: Reading) -> Ends
    requires { Ready (of_types (order_of reading) (toward up)) (type_at left a.now) (type_at left b.now) (length out.old) }
    ensures { Combined (of_types (order_of reading) (toward up)) (type_at left a.now) (type_at left b.now) out.old out.new result.first result.second result.wrote }
{
    let c = a[0];
    let d = b[0];
    if c == d && c < commands::LIST_TYPE {
        out[0] = c;
        return Ends::ONE;
    }
    write_other(up, a, b, out, left, reading)
}

// The same, without the short way.
#[cycle(bounds)]
fn write_other(up: bool, a: &[u8], b: &[u8], out: &mut [u8], left: usize, reading: Reading) -> Ends
    requires { Ready (of_types (order_of reading) (toward up)) (type_at left a.now) (type_at left b.now) (length out.old) }
    ensures { Combined (of_types (order_of reading) (toward up)) (type_at left a.now) (type_at left b.now) out.old out.new result.first result.second result.wrote }
{
    let c = a[0];
    let d = b[0];
    if c == d {
        return same(up, a, b, out, left, reading);
    }
    let least = readings::greatest(!up);
    if c == least {
        let e = same(up, b, b, out, left, reading);
        return Ends { first: 1, ..e };
    }
    if d == least {
        let e = same(up, a, a, out, left, reading);
        return Ends { second: 1, ..e };
    }
    out[0] = reading.nearest(up, c, d);
    Ends {
        first: types::walk::skip(a, left),
        second: types::walk::skip(b, left),
        wrote: 1,
    }
}

// The same of two types with the same command.
#[cycle(bounds)]
pub fn same(up: bool, a: &[u8], b: &[u8], out: &mut [u8], left: usize, reading: Reading) -> Ends
    requires ready { Ready (of_types (order_of reading) (toward up)) (type_at left a.now) (type_at left b.now) (length out.old) }
    requires a_value { get_or a.now 0 0 ≡ get_or b.now 0 0 }
    ensures { Combined (of_types (order_of reading) (toward up)) (type_at left a.now) (type_at left b.now) out.old out.new result.first result.second result.wrote }
{
    let c = a[0];
    if c < commands::LIST_TYPE {
        out[0] = c;
        return Ends::ONE;
    }
    if c < commands::CONTEXT_TYPE {
        out[0] = c;
        return write(up, &a[1..], &b[1..], &mut out[1..], left - 1, reading).behind(1);
    }
    if c == commands::CONTEXT_TYPE {
        let n = form::bytes::word_at(a, 1);
        let m = form::bytes::word_at(b, 1);
        let e = fields(up, &a[3..], n, &b[3..], m, &mut out[3..], left - 1, reading);
        out[0] = commands::CONTEXT_TYPE;
        out[1] = output::low(e.count);
        out[2] = output::high(e.count);
        return e.ends.behind(3);
    }
    let n = a[1];
    let m = b[1];
    if n != m {
        out[0] = readings::greatest(up);
        return Ends {
            first: types::walk::skip(a, left),
            second: types::walk::skip(b, left),
            wrote: 1,
        };
    }
    out[0] = commands::FUNCTION_TYPE;
    out[1] = n;
    if n == 0 && !reading.is_strict() {
        out[2] = commands::ANY_TYPE;
        return Ends {
            first: types::walk::skip(a, left),
            second: types::walk::skip(b, left),
            wrote: 3,
        };
    }
    signature(
        up,
        &a[2..],
        &b[2..],
        usize::from(n),
        &mut out[2..],
        left - 1,
        reading,
    )
    .behind(2)
}

// The entries of two contexts, n and m of them: the common names (up) or all names, common ones at their common type. The two ascending lists of names are taken in step.
// An entry whose name the other has not is passed over here (up), or taken with itself: in a function beside this one, whose numbers come back through memory, it
// cost 61 instructions, here 47.
#[cycle(bounds)]
fn fields(
    up: bool,
    a: &[u8],
    n: usize,
    b: &[u8],
    m: usize,
    out: &mut [u8],
    left: usize,
    reading: Reading,
) -> Entries
    requires { Ready (of_fields (order_of reading) (toward up)) (fields_at left n 0 a.now) (fields_at left m 0 b.now) (length out.old) }
    ensures combined { Combined (of_fields (order_of reading) (toward up)) (fields_at left n 0 a.now) (fields_at left m 0 b.now)
        out.old out.new result.ends.first result.ends.second result.ends.wrote }
    ensures counted { Counted (order_of reading) (toward up) (fields_at left n 0 a.now) (fields_at left m 0 b.now) result.count }
{
    let mut at: usize = 0;
    let mut i: usize = 0;
    let mut bt: usize = 0;
    let mut j: usize = 0;
    let mut to: usize = 0;
    let mut k: usize = 0;
    loop {
        let x = types::walk::next_name(a, at, i, n);
        let y = types::walk::next_name(b, bt, j, m);
        if x < y {
            if up {
                at += NAME_WIDTH + types::walk::skip(&a[at + NAME_WIDTH..], left);
                i += 1;
                continue;
            }
            let e = entry(up, &a[at..], &a[at..], &mut out[to..], left, reading);
            at += e.first;
            to += e.wrote;
            i += 1;
            k += 1;
            continue;
        }
        if y < x {
            if up {
                bt += NAME_WIDTH + types::walk::skip(&b[bt + NAME_WIDTH..], left);
                j += 1;
                continue;
            }
            let e = entry(up, &b[bt..], &b[bt..], &mut out[to..], left, reading);
            bt += e.first;
            to += e.wrote;
            j += 1;
            k += 1;
            continue;
        }
        if x == NAME_END {
            return Entries {
                ends: Ends {
                    first: at,
                    second: bt,
                    wrote: to,
                },
                count: k,
            };
        }
        let e = entry(up, &a[at..], &b[bt..], &mut out[to..], left, reading);
        at += e.first;
        bt += e.second;
        to += e.wrote;
        i += 1;
        j += 1;
        k += 1;
    }
}

// An entry of each with the same name: the name, and the common type. Not inlined: the loop of `fields` would have fewer registers for the names that it passes over.
#[inline(never)]
#[cycle(bounds)]
fn entry(up: bool, a: &[u8], b: &[u8], out: &mut [u8], left: usize, reading: Reading) -> Ends
    requires ready { Ready (of_fields (order_of reading) (toward up)) (fields_at left 1 0 a.now) (fields_at left 1 0 b.now) (length out.old) }
    requires same_name { num_at name_width 0 a.now ≡ num_at name_width 0 b.now }
    ensures { Combined (of_fields (order_of reading) (toward up)) (fields_at left 1 0 a.now) (fields_at left 1 0 b.now) out.old out.new result.first result.second result.wrote }
{
    output::copy_name(a, 0, out, 0);
    write(
        up,
        &a[NAME_WIDTH..],
        &b[NAME_WIDTH..],
        &mut out[NAME_WIDTH..],
        left,
        reading,
    )
    .behind(NAME_WIDTH)
}

// `count` parameters of both, each the other way, then the results.
#[cycle(bounds)]
fn signature(
    up: bool,
    a: &[u8],
    b: &[u8],
    count: usize,
    out: &mut [u8],
    left: usize,
    reading: Reading,
) -> Ends
    requires { Ready (of_sigs (order_of reading) (toward up)) (sig_at left count a.now) (sig_at left count b.now) (length out.old) }
    ensures { Combined (of_sigs (order_of reading) (toward up)) (sig_at left count a.now) (sig_at left count b.now) out.old out.new result.first result.second result.wrote }
{
    let mut ends = Ends {
        first: 0,
        second: 0,
        wrote: 0,
    };
    for _ in 0..count {
        let e = write(
            !up,
            &a[ends.first..],
            &b[ends.second..],
            &mut out[ends.wrote..],
            left,
            reading,
        );
        ends = ends.then(e);
    }
    ends.then(write(
        up,
        &a[ends.first..],
        &b[ends.second..],
        &mut out[ends.wrote..],
        left,
        reading,
    ))
}
