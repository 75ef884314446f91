// The builders of an updated context: what context.rs changes in place is written anew. The walks below are seen through their contracts only.
#![tactic(auto)]

ghost use Rattle.std.specs.Prelude.{◌≡◌, ◌+◌, ◌-◌, ◌<◌, ◌≤◌, max, length};
ghost use Rattle.form.specs.Limits.{name_width, name_end, most_bytes, most_names, value_levels};
ghost use Rattle.types.specs.At.{Ok};
ghost use Rattle.output.specs.Output.{fill};
ghost use Rattle.paths.specs.Places.{context_at};
ghost use Rattle.updates.specs.Writing.{Small, Cuts, begun, opened, closed, nested, spliced, Merges};

use form::commands;
use form::limits::{NAME_END, NAME_WIDTH, VALUE_LEVELS};
use paths::way::{Cut, Way};

// The bytes and the level of a context that is built.
#[derive(Clone, Copy, Debug, PartialEq, Eq, Hash)]
pub struct Totals {
    pub size: usize,
    pub level: usize,
}

// ---- pieces: a builder writes what has room, and counts all

// A context's command, so many entries, and those of `c` before `at`.
fn write_front(c: &[u8], at: usize, count: usize, out: &mut [u8])
    requires { (3 ≤ at) × (at ≤ length c.now) × (count < 65536) }
    ensures { out.new ≡ fill (begun count c.now at) out.old }
{
    let head = [commands::CONTEXT, output::low(count), output::high(count)];
    output::fill(&head, out);
    output::put(&c[3..at], out, 3);
}

// A context's command, so many entries, those of `c` before `at`, and a name: answers where its value starts.
fn write_to_name(c: &[u8], at: usize, count: usize, name: usize, out: &mut [u8]) -> usize
    requires { (3 ≤ at) × (at ≤ length c.now) × (count < 65536) × (name < name_end) × (at < 65536) }
    ensures value { result ≡ at + name_width }
    ensures out_after { out.new ≡ fill (opened count c.now at name) out.old }
{
    write_front(c, at, count, out);
    output::put_name(name, out, at)
}

// ---- create_entries and apply_entries

// The value under names that are all new: a context of one entry for each, then the value. Answers the length of the whole.
fn write_nested(path: &[u16], v: &[u8], out: &mut [u8]) -> usize
    requires { (length path.now ≤ most_names) × (length v.now ≤ most_bytes) }
    ensures value { result ≡ length (nested path.now v.now) }
    ensures out_after { out.new ≡ fill (nested path.now v.now) out.old }
{
    let [name, rest @ ..] = path else {
        output::fill(v, out);
        return v.len();
    };
    let empty = [commands::CONTEXT, 0, 0];
    let p = write_to_name(&empty, 3, 1, usize::from(*name), out);
    let q = p.min(out.len());
    p + write_nested(rest, v, &mut out[q..])
}

// What the context `c` has after the value `v`, of that level, was put at the path, along which the walk told `way`.
pub fn measure(c: &[u8], path: &[u16], v: &[u8], level: usize, way: Way) -> Totals
    requires small { Small c.now path.now v.now }
    requires cuts { Cuts c.now path.now way.cut }
    requires rest_le_most_bytes { (way.rest ≤ most_bytes) × (level ≤ most_bytes) }
    ensures size_value { result.size ≡ length (spliced c.now way.cut path.now v.now) }
    ensures level_value { result.level ≡ max way.rest (length path.now + level) }
{
    let new = (path.len() - way.cut.names) * (3 + NAME_WIDTH);
    Totals {
        size: c.len() - way.cut.gone + NAME_WIDTH + new + v.len(),
        level: way.rest.max(path.len() + level),
    }
}

// The context `c` after the value `v` was put at the path: all but what the cut says stays. Each child is written into the rest of the output. Answers its length.
pub fn splice(c: &[u8], cut: Cut, path: &[u16], v: &[u8], out: &mut [u8]) -> usize
    requires small { Small c.now path.now v.now }
    requires cuts { Cuts c.now path.now cut }
    ensures value { result ≡ length (spliced c.now cut path.now v.now) }
    ensures out_after { out.new ≡ fill (spliced c.now cut path.now v.now) out.old }
{
    let b = cut.base;
    let k = cut.names;
    let mut count = form::bytes::word_at(c, b + 1);
    let is_new = cut.gone == 0;
    if is_new {
        count += 1;
    }
    output::fill(&c[..b], out);
    let q = b.min(out.len());
    let name = usize::from(path[k - 1]);
    let p = b + write_to_name(&c[b..], cut.at - b, count, name, &mut out[q..]);
    let r = p.min(out.len());
    let n = write_nested(&path[k..], v, &mut out[r..]);
    let to = cut.at + cut.gone;
    output::put(&c[to..], out, p + n)
}

// ---- zip and overwrite

// The entries of `c` and of `o`, taken in step by their ascending names: the other's value in place of one's own. A name that only the other has is
// inserted by `all`, otherwise passed over. Answers the length and the level of the whole.
pub fn merge(all: bool, c: &[u8], o: &[u8], out: &mut [u8]) -> Totals
    requires ok { Ok (context_at value_levels c.now) }
    requires ok_2 { Ok (context_at value_levels o.now) }
    requires c_len_bound { (length c.now ≤ most_bytes) × (length o.now ≤ most_bytes) }
    ensures { Merges all (context_at value_levels c.now) (context_at value_levels o.now) out.old out.new result.size result.level }
{
    let n = form::bytes::word_at(c, 1);
    let m = form::bytes::word_at(o, 1);
    output::fill(&c[..3], out);
    let mut at: usize = 3;
    let mut i: usize = 0;
    let mut bt: usize = 3;
    let mut j: usize = 0;
    let mut to: usize = 3;
    let mut k: usize = 0;
    let mut deep: usize = 0;
    let mut level: usize = 0;
    loop {
        let x = types::walk::next_name(c, at, i, n);
        let y = types::walk::next_name(o, bt, j, m);
        if x < y {
            let p = at + NAME_WIDTH;
            let e = p + values::walk::pass(&c[p..], VALUE_LEVELS - 1, &mut level);
            to = output::put(&c[at..e], out, to);
            deep = deep.max(level);
            at = e;
            i += 1;
            k += 1;
            continue;
        }
        if y < x {
            let q = bt + NAME_WIDTH;
            let e = q + values::walk::pass(&o[q..], VALUE_LEVELS - 1, &mut level);
            let is_passed_over = !all;
            if is_passed_over {
                bt = e;
                j += 1;
                continue;
            }
            to = output::put(&o[bt..e], out, to);
            deep = deep.max(level);
            bt = e;
            j += 1;
            k += 1;
            continue;
        }
        if x == NAME_END {
            break;
        }
        let p = at + NAME_WIDTH;
        at = p + values::walk::skip(&c[p..], VALUE_LEVELS - 1);
        i += 1;
        let q = bt + NAME_WIDTH;
        let e = q + values::walk::pass(&o[q..], VALUE_LEVELS - 1, &mut level);
        to = output::put(&o[bt..e], out, to);
        deep = deep.max(level);
        bt = e;
        j += 1;
        k += 1;
    }
    let head = [commands::CONTEXT, output::low(k), output::high(k)];
    output::fill(&head, out);
    Totals {
        size: to,
        level: deep + 1,
    }
}

// ---- remove_entry

// The context `c` without the entry from `at` to `to`: answers its length.
pub fn write_without(c: &[u8], at: usize, to: usize, count: usize, out: &mut [u8]) -> usize
    requires { (3 ≤ at) × (at ≤ to) × (to ≤ length c.now) × (count < 65536) }
    ensures value { result ≡ length (closed count c.now at to) }
    ensures out_after { out.new ≡ fill (closed count c.now at to) out.old }
{
    write_front(c, at, count, out);
    output::put(&c[to..], out, at)
}
