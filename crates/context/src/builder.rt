// The arguments of an update; its answer, held to 17 and 18 by the size and the level that the walk and the builders tell; and what is built.
ghost use Rattle.std.specs.Prelude.{◌≡◌, false, ◌&&◌, ◌+◌, ◌-◌, ◌<◌, ◌≤◌, min, length, ltb, leb};
ghost use Rattle.std.proofs.Math.Option.{some};
ghost use Rattle.form.specs.Limits.{name_width, most_bytes, value_levels};
ghost use Rattle.form.specs.Trees.{Val, v_context, Entries};
ghost use Rattle.form.specs.Form.{level_v};
ghost use Rattle.form.specs.Outcome.{fits};
ghost use Rattle.form.specs.Answers.{Built};
ghost use Rattle.types.specs.At.{Ok};
ghost use Rattle.output.specs.Result.{checked_result};
ghost use Rattle.paths.specs.Places.{whole_at, context_at};
ghost use Rattle.paths.specs.Way.{Surveyed};
ghost use Rattle.updates.specs.Writing.{Small, updated, closed, merged};
ghost use Rattle.context.specs.Answering.{Holds, Finds, answered, value_in};
ghost use Rattle.context.specs.Calls.{update_call, joined_call};

use form::limits::{MOST_BYTES, MOST_NAMES, NAME_WIDTH, VALUE_LEVELS};
use form::{Refusal, commands};
use paths::way::{Cut, Way};
use updates::Totals;

// ---- create_entries and apply_entries

// Err of `apply_entries`: a name is left of so many, and the entry that goes holds no context.
fn is_err(strict: bool, names: usize, cut: Cut) -> bool
    ensures { result ≡ (strict && (ltb cut.names names && ltb 0 cut.gone)) }
{
    strict && cut.names < names && 0 < cut.gone
}

// Whether a value is not over the limits.
fn is_small(totals: Totals) -> bool
    ensures { result ≡ (leb totals.size most_bytes && leb totals.level value_levels) }
{
    totals.size <= MOST_BYTES && totals.level <= VALUE_LEVELS
}

// The value, of that level, at the path of an accepted context, along which the walk told `way`. Refusals 16, 17, 18.
fn place(
    c: &[u8],
    path: &[u16],
    v: &[u8],
    level: usize,
    strict: bool,
    way: Way,
    out: &mut [u8],
) -> Result<usize, Refusal>
    requires ok { Ok (context_at value_levels c.now) }
    requires ok_2 { Ok (whole_at value_levels v.now) }
    requires small { Small c.now path.now v.now }
    requires surveyed { Surveyed path.now (whole_at value_levels c.now) way.rest way.cut }
    requires level_value { (x : Val) → whole_at value_levels v.now ≡ some x → level ≡ level_v x }
    ensures { (es : Entries) (x : Val) → context_at value_levels c.now ≡ some es → whole_at value_levels v.now ≡ some x
        → Built (answered (length out.old) (updated strict path.now x es)) out.old out.new result }
{
    let is_unchanged = path.is_empty();
    if is_unchanged {
        return output::give(c, out);
    }
    if is_err(strict, path.len(), way.cut) {
        return Err(Refusal::NotApplied);
    }
    let totals = updates::measure(c, path, v, level, way);
    let is_over = !is_small(totals);
    if is_over {
        return Err(Refusal::ResultSize);
    }
    if out.len() < totals.size {
        return Err(Refusal::Output);
    }
    Ok(updates::splice(c, way.cut, path, v, out))
}

// The value at the path of the context. Refusals 1 to 5 of the context, 11, 1 to 5 of the value, 12, 16, 17, 18.
pub(crate) fn update(
    c: &[u8],
    path: &[u16],
    v: &[u8],
    strict: bool,
    out: &mut [u8],
) -> Result<usize, Refusal>
    ensures { Built (update_call strict c.now path.now v.now (length out.old)) out.old out.new result }
{
    let way = paths::way::read(c, path)?;
    if MOST_NAMES < path.len() {
        return Err(Refusal::PathLength);
    }
    let level = form::check_value(v)?;
    if c[0] != commands::CONTEXT {
        return Err(Refusal::NotContext);
    }
    place(c, path, v, level, strict, way, out)
}

// ---- zip and overwrite

// The context with those totals that was built in the spare place. Refusals 17, 18.
fn give_within(spare: &[u8], totals: Totals, out: &mut [u8]) -> Result<usize, Refusal>
    requires { totals.size ≤ most_bytes → totals.size ≤ length spare.now }
    ensures { (w : Val) → Holds spare.now totals.size totals.level w → Built (checked_result (length out.old) w) out.old out.new result }
{
    if !is_small(totals) {
        return Err(Refusal::ResultSize);
    }
    output::give(&spare[..totals.size], out)
}

// Two accepted contexts in one, built in the spare place. Refusals 17, 18.
fn join_in(
    all: bool,
    c: &[u8],
    o: &[u8],
    spare: &mut [u8],
    out: &mut [u8],
) -> Result<usize, Refusal>
    requires ok { Ok (context_at value_levels c.now) }
    requires ok_2 { Ok (context_at value_levels o.now) }
    requires c_len_bound { (length c.now ≤ most_bytes) × (length o.now ≤ most_bytes) }
    requires most_bytes_in_bounds { min (length c.now + length o.now) most_bytes ≤ length spare.old }
    ensures { (es gs : Entries) → context_at value_levels c.now ≡ some es → context_at value_levels o.now ≡ some gs
        → Built (checked_result (length out.old) (v_context (merged all es gs))) out.old out.new result }
{
    let totals = updates::merge(all, c, o, spare);
    give_within(spare, totals, out)
}

// Both contexts in one. Refusals 1 to 5 of each, 12, 17, 18.
pub(crate) fn join(all: bool, c: &[u8], o: &[u8], out: &mut [u8]) -> Result<usize, Refusal>
    ensures { Built (joined_call all c.now o.now (length out.old)) out.old out.new result }
{
    form::check_value(c)?;
    form::check_value(o)?;
    if c[0] != commands::CONTEXT {
        return Err(Refusal::NotContext);
    }
    let is_context = o[0] == commands::CONTEXT;
    if !is_context {
        return Err(Refusal::NotContext);
    }
    if c.len() + o.len() <= 512 {
        let mut few = [0u8; 512];
        return join_in(all, c, o, &mut few, out);
    }
    let mut spare = [0u8; MOST_BYTES];
    join_in(all, c, o, &mut spare, out)
}

// ---- remove_entry and move_entry

// What an update at the name changes in the context `c`. Refusals 1 to 5, 12.
pub(crate) fn find(c: &[u8], name: u16) -> Result<Cut, Refusal>
    ensures { Finds name c.now result }
{
    let way = paths::way::read(c, &[name])?;
    if c[0] != commands::CONTEXT {
        return Err(Refusal::NotContext);
    }
    Ok(way.cut)
}

// The context `c` without the entry from `at` to `to`, built in the output itself where that has room. Refusal 18.
pub(crate) fn give_without(
    c: &[u8],
    at: usize,
    to: usize,
    count: usize,
    out: &mut [u8],
) -> Result<usize, Refusal>
    requires { (3 ≤ at) × (at ≤ to) × (to ≤ length c.now) × (count < 65536) }
    ensures { Built (fits (length out.old) (closed count c.now at to)) out.old out.new result }
{
    if out.len() < c.len() - (to - at) {
        return Err(Refusal::Output);
    }
    Ok(updates::write_without(c, at, to, count, out))
}

// The value of the entry at the cut at the path of the context without that entry, which is built in the spare place. Refusals 17, 18.
pub(crate) fn move_in(
    c: &[u8],
    cut: Cut,
    count: usize,
    path: &[u16],
    spare: &mut [u8],
    out: &mut [u8],
) -> Result<usize, Refusal>
    requires le_at { (3 ≤ cut.at) × (name_width ≤ cut.gone) × (cut.at + cut.gone ≤ length c.now) × (count < 65536) }
    requires ok { Ok (context_at value_levels (closed count c.now cut.at (cut.at + cut.gone))) }
    requires ok_2 { Ok (whole_at value_levels (value_in c.now cut.at (cut.at + cut.gone))) }
    requires small { Small c.now path.now c.now }
    requires cut_value { (x : Val) → whole_at value_levels (value_in c.now cut.at (cut.at + cut.gone)) ≡ some x → cut.old ≡ level_v x }
    requires c_in_bounds { length c.now ≤ length spare.old }
    ensures { (es : Entries) (x : Val) → context_at value_levels (closed count c.now cut.at (cut.at + cut.gone)) ≡ some es
        → whole_at value_levels (value_in c.now cut.at (cut.at + cut.gone)) ≡ some x
        → Built (answered (length out.old) (updated false path.now x es)) out.old out.new result }
{
    let to = cut.at + cut.gone;
    let k = updates::write_without(c, cut.at, to, count, spare);
    let left = &spare[..k];
    let way = paths::way::survey(left, path, VALUE_LEVELS);
    let p = cut.at + NAME_WIDTH;
    place(left, path, &c[p..to], cut.old, false, way, out)
}
