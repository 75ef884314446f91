// The builder of a retrieved value: it writes what has room, and counts all.
ghost use Rattle.std.specs.Prelude.{◌≡◌, true, false, ◌+◌, ◌<◌, ◌≤◌, length, get_or};
ghost use Rattle.form.specs.Answers.{Built};
ghost use Rattle.types.specs.At.{type_at, Ok};
ghost use Rattle.types.specs.Calls.{is_yes};
ghost use Rattle.values.specs.At.{value_at};
ghost use Rattle.values.specs.Calls.{is_conformant, Accepted};
ghost use Rattle.retrieval.specs.Filling.{Retrieves, outer_kind};
ghost use Rattle.output.specs.Output.{fill};
ghost use Rattle.retrieval.specs.Calls.{get_value_checked_call, get_conformant_value_call};

use form::limits::{MOST_BYTES, NAME_END, NAME_WIDTH, TYPE_LEVELS};
use form::{Refusal, commands};

// What was retrieved: how many bytes of the type and of the value were read, and how many the answer has.
#[derive(Clone, Copy, Debug, PartialEq, Eq)]
struct Retrieved {
    t: usize,
    v: usize,
    wrote: usize,
}

// Whether a type with command d copies a value with command c: Any, and the outer kind of leaves, ranges and functions.
fn outer_kind(c: u8, d: u8) -> bool
    ensures { result ≡ outer_kind c d }
{
    match d {
        commands::ANY_TYPE => true,
        commands::BOOLEAN_TYPE..=commands::YEARS_AND_MONTHS_TYPE => commands::leaf_type(c) == d,
        commands::RANGE_TYPE => c == commands::RANGE,
        commands::FUNCTION_TYPE => c == commands::FUNCTION_DEFINITION,
        _ => false,
    }
}

// ---- the builder: it writes what has room, and counts all

// The value at the front of `v`, retrieved by the type at the front of `t`.
#[cycle(retrieve_retrieve_context_retrieve_list)]
fn retrieve(t: &[u8], v: &[u8], out: &mut [u8], left: usize) -> Option<Retrieved>
    requires ok { Ok (type_at left t.now) }
    requires ok_2 { Ok (value_at left v.now) }
    ensures { Retrieves (type_at left t.now) (value_at left v.now) out.old out.new result }
{
    let c = v[0];
    let d = t[0];
    if c == commands::NULL {
        let null = [0u8; 2];
        output::fill(&null, out);
        return Some(Retrieved {
            t: types::walk::skip(t, left),
            v: 2,
            wrote: 2,
        });
    }
    if d == commands::LIST_TYPE {
        if c == commands::LIST {
            return retrieve_list(t, v, out, left);
        }
        return None;
    }
    if d == commands::CONTEXT_TYPE {
        if c == commands::CONTEXT {
            return retrieve_context(t, v, out, left);
        }
        return None;
    }
    if outer_kind(c, d) {
        let n = values::walk::skip(v, left);
        output::fill(&v[..n], out);
        return Some(Retrieved {
            t: types::walk::skip(t, left),
            v: n,
            wrote: n,
        });
    }
    None
}

// A list by a list type: each item by the inner type, of which each of them tells the size.
#[cycle(retrieve_retrieve_context_retrieve_list)]
fn retrieve_list(t: &[u8], v: &[u8], out: &mut [u8], left: usize) -> Option<Retrieved>
    requires ok { Ok (type_at left t.now) }
    requires ok_2 { Ok (value_at left v.now) }
    requires t_value { (get_or t.now 0 0 ≡ 0x2A) × (get_or v.now 0 0 ≡ 0x0A) }
    ensures { Retrieves (type_at left t.now) (value_at left v.now) out.old out.new result }
{
    let n = form::bytes::word_at(v, 1);
    output::fill(&v[..3], out);
    let mut at: usize = 3;
    let mut to: usize = 3;
    let mut bt: usize = 0;
    for _ in 0..n {
        let p = to.min(out.len());
        let e = retrieve(&t[1..], &v[at..], &mut out[p..], left - 1)?;
        at = at + e.v;
        to = to + e.wrote;
        bt = e.t;
    }
    if n == 0 {
        return Some(Retrieved {
            t: types::walk::skip(t, left),
            v: at,
            wrote: to,
        });
    }
    Some(Retrieved {
        t: bt + 1,
        v: at,
        wrote: to,
    })
}

// A context by a context type: the names that both have, each by its type. The two ascending lists of names are taken in step.
#[cycle(retrieve_retrieve_context_retrieve_list)]
fn retrieve_context(t: &[u8], v: &[u8], out: &mut [u8], left: usize) -> Option<Retrieved>
    requires ok { Ok (type_at left t.now) }
    requires ok_2 { Ok (value_at left v.now) }
    requires t_value { (get_or t.now 0 0 ≡ 0x2C) × (get_or v.now 0 0 ≡ 0x0B) }
    ensures { Retrieves (type_at left t.now) (value_at left v.now) out.old out.new result }
{
    let m = form::bytes::word_at(t, 1);
    let n = form::bytes::word_at(v, 1);
    output::fill(&v[..3], out);
    let mut bt: usize = 3;
    let mut j: usize = 0;
    let mut at: usize = 3;
    let mut i: usize = 0;
    let mut to: usize = 3;
    let mut k: usize = 0;
    loop {
        let x = types::walk::next_name(v, at, i, n);
        let y = types::walk::next_name(t, bt, j, m);
        if x < y {
            let p = at + NAME_WIDTH;
            at = p + values::walk::skip(&v[p..], left - 1);
            i += 1;
            continue;
        }
        if y < x {
            let q = bt + NAME_WIDTH;
            bt = q + types::walk::skip(&t[q..], left - 1);
            j += 1;
            continue;
        }
        if x == NAME_END {
            break;
        }
        let p = at + NAME_WIDTH;
        let q = bt + NAME_WIDTH;
        let w = to.min(out.len());
        output::fill(&v[at..p], &mut out[w..]);
        let u = (to + NAME_WIDTH).min(out.len());
        let e = retrieve(&t[q..], &v[p..], &mut out[u..], left - 1)?;
        at = p + e.v;
        bt = q + e.t;
        to = to + NAME_WIDTH + e.wrote;
        i += 1;
        j += 1;
        k += 1;
    }
    let head = [commands::CONTEXT, output::low(k), output::high(k)];
    output::fill(&head, out);
    Some(Retrieved {
        t: bt,
        v: at,
        wrote: to,
    })
}

// The retrieved value of an accepted value by an accepted type, built in a spare place as long as the value and handed on. Refusals 15 and 18.
fn retrieve_by(t: &[u8], v: &[u8], spare: &mut [u8], out: &mut [u8]) -> Result<usize, Refusal>
    requires accepted { Accepted t.now v.now }
    requires v_in_bounds { length v.now ≤ length spare.old }
    ensures { Built (get_value_checked_call t.now v.now (length out.old)) out.old out.new result }
{
    match retrieve(t, v, spare, TYPE_LEVELS) {
        Some(e) => output::give(&spare[..e.wrote], out),
        None => Err(Refusal::NotRetrieved),
    }
}

// The retrieved value of an accepted value by an accepted type, with a spare place: a small one for a short value. Refusals 15 and 18.
pub(crate) fn write_retrieved(t: &[u8], v: &[u8], out: &mut [u8]) -> Result<usize, Refusal>
    requires { Accepted t.now v.now }
    ensures { Built (get_value_checked_call t.now v.now (length out.old)) out.old out.new result }
{
    if v.len() <= 512 {
        let mut few = [0u8; 512];
        return retrieve_by(t, v, &mut few, out);
    }
    let mut many = [0u8; MOST_BYTES];
    retrieve_by(t, v, &mut many, out)
}

// `get_conformant_value` where one of the two is refused or the value does not conform.
pub(crate) fn give_nothing(t: &[u8], v: &[u8], out: &mut [u8]) -> Result<usize, Refusal>
    requires { false ≡ is_yes (is_conformant v.now t.now) }
    ensures { Built (get_conformant_value_call t.now v.now (length out.old)) out.old out.new result }
{
    form::check_type(t)?;
    form::check_value(v)?;
    if t[0] == commands::NULL_TYPE {
        let nothing = [0u8; 2];
        return output::give(&nothing, out);
    }
    let not = [commands::NULL, 2];
    output::give(&not, out)
}
