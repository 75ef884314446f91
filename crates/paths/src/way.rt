// The walk along a path: it reads a value as `form` does, says its level and the level of what an update leaves, and finds the bytes that an update changes.
ghost use Rattle.std.specs.Prelude.{◌≡◌, ◌+◌, ◌<◌, ◌≤◌, ◌^◌, length, get_or, IfOk};
ghost use Rattle.form.specs.Limits.{name_width, value_levels};
ghost use Rattle.form.specs.Form.{level_v};
ghost use Rattle.form.specs.Read.{read_v, check_value};
ghost use Rattle.form.specs.Walks.{walk_of, Told};
ghost use Rattle.values.specs.At.{value_at};
ghost use Rattle.paths.specs.Places.{whole_at};
ghost use Rattle.paths.specs.Way.{no_cut, within, Surveyed, judged};

use form::limits::{MOST_BYTES, NAME_WIDTH, VALUE_LEVELS};
use form::walk::Fault;
use form::{Refusal, commands};

// What an update at a path changes: in the context at `base`, `gone` bytes from `at` on, which are the name's entry, none where the name is new.
// So many contexts were gone into, one for each name; none where there is no name or no context. The value that goes has the level `old`.
#[derive(Clone, Copy)]
pub struct Cut {
    pub base: usize,
    pub at: usize,
    pub gone: usize,
    pub names: usize,
    pub old: usize,
}

// What the walk tells: the size of the value, 0 for a fault; its level, or the fault; the level of what an update at the path leaves of it; and what it changes.
#[derive(Clone, Copy)]
pub struct Way {
    pub size: usize,
    pub level: usize,
    pub rest: usize,
    pub cut: Cut,
}

// No context was gone into.
const NO_CUT: Cut = Cut {
    base: 0,
    at: 0,
    gone: 0,
    names: 0,
    old: 0,
};

// A value that is not gone into.
fn pass(s: &[u8], left: usize) -> Way
    ensures told { Told (walk_of level_v (read_v left s.now)) (length s.now) result.size result.level }
    ensures rest_value { (result.rest ≡ 0) × (result.cut ≡ no_cut) }
{
    let mut told: usize = 0;
    let size = values::walk::pass(s, left, &mut told);
    Way {
        size,
        level: told,
        rest: 0,
        cut: NO_CUT,
    }
}

// A fault.
fn stop(fault: usize) -> Way
    ensures { (result.size ≡ 0) × (result.level ≡ fault) }
{
    Way {
        size: 0,
        level: fault,
        rest: 0,
        cut: NO_CUT,
    }
}

// The cut in the context around an entry at `at`, whose value has so many bytes, that level and that cut: in the value, or the entry itself.
fn around(at: usize, size: usize, level: usize, cut: Cut) -> Cut
    requires size_bound { at + name_width + size < 2 ^ 64 }
    requires base_le_size { (cut.base ≤ size) × (cut.at ≤ size) × (cut.names ≤ size) }
    ensures { result ≡ within at size level cut }
{
    if cut.names == 0 {
        return Cut {
            at,
            gone: NAME_WIDTH + size,
            names: 1,
            old: level,
            ..NO_CUT
        };
    }
    let p = at + NAME_WIDTH;
    Cut {
        base: p + cut.base,
        at: p + cut.at,
        gone: cut.gone,
        names: cut.names + 1,
        old: cut.old,
    }
}

// The value at the front of `s` along the path.
#[cycle(survey_survey_entries)]
pub fn survey(s: &[u8], path: &[u16], left: usize) -> Way
    ensures told { Told (walk_of level_v (read_v left s.now)) (length s.now) result.size result.level }
    ensures surveyed { Surveyed path.now (value_at left s.now) result.rest result.cut }
{
    if path.is_empty() || s.len() < 3 || left == 0 || s[0] != commands::CONTEXT {
        return pass(s, left);
    }
    survey_entries(s, path, left)
}

// The context at the front of `s` along the path, which has a name. The path is handed on from its second name at each step down.
#[cycle(survey_survey_entries)]
fn survey_entries(s: &[u8], path: &[u16], left: usize) -> Way
    requires { (3 ≤ length s.now) × (0 < left) × (get_or s.now 0 0 ≡ 0x0B) × (0 < length path.now) }
    ensures told { Told (walk_of level_v (read_v left s.now)) (length s.now) result.size result.level }
    ensures surveyed { Surveyed path.now (value_at left s.now) result.rest result.cut }
{
    let n = form::bytes::word_at(s, 1);
    let name = usize::from(path[0]);
    let mut told: usize = 0;
    let mut at: usize = 3;
    let mut deep: usize = 0;
    let mut rest: usize = 0;
    let mut least: usize = 0;
    let mut cut = Cut {
        at,
        names: 1,
        ..NO_CUT
    };
    for i in 0..n {
        if s.len() - at < NAME_WIDTH {
            return stop(Fault::Shape as usize);
        }
        let x = form::bytes::name_at(s, at);
        if x < least {
            return stop(Fault::Names as usize);
        }
        let p = at + NAME_WIDTH;
        least = x + 1;
        if x == name {
            let w = survey(&s[p..], &path[1..], left - 1);
            if w.size == 0 {
                return stop(w.level);
            }
            deep = deep.max(w.level);
            rest = rest.max(w.rest);
            cut = around(at, w.size, w.level, w.cut);
            at = p + w.size;
            continue;
        }
        let size = values::walk::pass(&s[p..], left - 1, &mut told);
        if size == 0 {
            return stop(told);
        }
        deep = deep.max(told);
        rest = rest.max(told);
        at = p + size;
        if x < name {
            cut = Cut {
                at,
                names: 1,
                ..NO_CUT
            };
        }
    }
    Way {
        size: at,
        level: deep + 1,
        rest: rest + 1,
        cut,
    }
}

// A whole value along the path. Refusals 1 to 5.
pub fn read(c: &[u8], path: &[u16]) -> Result<Way, Refusal>
    ensures level { judged result ≡ check_value c.now }
    ensures surveyed { IfOk result (λ way. Surveyed path.now (whole_at value_levels c.now) way.rest way.cut) }
{
    if c.is_empty() || MOST_BYTES < c.len() {
        return Err(Refusal::ValueLength);
    }
    let way = survey(c, path, VALUE_LEVELS);
    match way.size {
        0 => Err(form::walk::value_fault(way.level)),
        size if size == c.len() => Ok(way),
        _ => Err(Refusal::ValueLeftOver),
    }
}
