// The walks over one value and one type: size and level, or the first fault. For the crates above, which know from a contract what stands at the front.
ghost use Rattle.std.specs.Prelude.{◌≡◌, ◌+◌, ◌*◌, ◌-◌, ◌<◌, ◌≤◌, ◌^◌, length, drop, get_or};
ghost use Rattle.form.specs.Faults.{place};
ghost use Rattle.form.specs.Limits.{value_refusals, type_refusals};
ghost use Rattle.form.specs.Trees.{simple, is_short_leaf};
ghost use Rattle.form.specs.Form.{level, level_fields, level_tys, level_params, level_v, level_vals, level_entries};
ghost use Rattle.form.specs.Read.{read_t, read_fields, read_tys, read_params, read_v, read_vals, read_entries};
ghost use Rattle.form.specs.Walks.{walk_of, walk_by, pair_walk, up, walked, walk_told, fault_told, Told, Passed, Short, size_within, size_bounded, flag_walk};
ghost use Rattle.form.specs.Answers.{number};

use crate::limits::NAME_WIDTH;
use crate::{Refusal, bytes, commands};

// The first fault from the left: ends inside, unknown command or operand; names not ascending; too deep.
#[derive(Clone, Copy, Debug, PartialEq, Eq, Hash)]
pub enum Fault {
    Shape = 1,
    Names = 2,
    Level = 3,
}

impl Fault {
    // The refusal of a type with this fault.
    pub(crate) fn of_type(self) -> Refusal
        ensures { number result ≡ type_refusals + place self }
    {
        match self {
            Fault::Shape => Refusal::TypeShape,
            Fault::Names => Refusal::TypeNames,
            Fault::Level => Refusal::TypeLevel,
        }
    }

    // The refusal of a value with this fault.
    pub(crate) fn of_value(self) -> Refusal
        ensures { number result ≡ value_refusals + place self }
    {
        match self {
            Fault::Shape => Refusal::ValueShape,
            Fault::Names => Refusal::ValueNames,
            Fault::Level => Refusal::ValueLevel,
        }
    }
}

// What was walked over: its bytes, and its level.
#[derive(Clone, Copy, Debug, PartialEq, Eq, Hash)]
pub struct Walked {
    pub size: usize,
    pub level: usize,
}

// What a walk tells of the type at the front.
pub fn pass_type(s: &[u8], left: usize) -> Result<Walked, Fault>
    ensures { Passed (walk_of level (read_t left s.now)) (length s.now) result }
{
    let mut told: usize = 0;
    let size = walk_type(s, left, &mut told);
    passed(size, told)
}

// What a walk tells of the value at the front.
pub fn pass_value(s: &[u8], left: usize) -> Result<Walked, Fault>
    ensures { Passed (walk_of level_v (read_v left s.now)) (length s.now) result }
{
    let mut told: usize = 0;
    let size = walk_value(s, left, &mut told);
    passed(size, told)
}

// A walk's two numbers as one answer.
fn passed(size: usize, told: usize) -> Result<Walked, Fault>
    requires { size ≡ 0 → (1 ≤ told) × (told ≤ 3) }
    ensures { walked result ≡ walk_told size told }
{
    if size == 0 {
        return Err(fault_of(told));
    }
    Ok(Walked { size, level: told })
}

// The fault with this number.
fn fault_of(told: usize) -> Fault
    requires { (1 ≤ told) × (told ≤ 3) }
    ensures { result ≡ fault_told told }
{
    match told {
        1 => Fault::Shape,
        2 => Fault::Names,
        _ => Fault::Level,
    }
}

// The refusal of a value by its fault's number.
pub fn value_fault(told: usize) -> Refusal
    requires { (1 ≤ told) × (told ≤ 3) }
    ensures { number result ≡ value_refusals + told }
{
    fault_of(told).of_value()
}

// ---- walks: each answers the bytes that it took, 0 for a fault, and leaves the level, or the fault's number, in `told`. Two numbers, since a `Result` comes back
// through memory: as `Result<Walked, Fault>` the same walk took 1.35, 1.30 and 1.28 times as long at 30, 300 and 16,000 bytes (docs/DESIGN-PASS.md).

fn end(size: usize, level: usize, told: &mut usize) -> usize
    ensures { (result ≡ size) × (told.new ≡ level) }
{
    *told = level;
    size
}

fn stop(f: Fault, told: &mut usize) -> usize
    ensures { (result ≡ 0) × (told.new ≡ place f) }
{
    *told = f as usize;
    0
}

// A leaf of `size` bytes whose last operand byte is x, and at most `most`.
fn flag(x: u8, most: u8, size: usize, told: &mut usize) -> usize
    requires { 1 ≤ size }
    ensures { Told (flag_walk x most size) size result told.new }
{
    if x <= most {
        end(size, 1, told)
    } else {
        stop(Fault::Shape, told)
    }
}

// ---- types

// The size of the type at `at` where it is a simple one: a short way past most types.
pub fn simple_at(s: &[u8], at: usize, left: usize) -> Option<usize>
    requires { at ≤ length s.now }
    ensures { Short simple (read_t left (drop at s.now)) result (length s.now - at) }
{
    if left == 0 || s.len() == at {
        return None;
    }
    match s[at] {
        commands::ANY_TYPE..=commands::NULL_TYPE => Some(1),
        _ => None,
    }
}

#[cycle(walk_fields_walk_type_walk_types)]
pub fn walk_type(s: &[u8], left: usize, told: &mut usize) -> usize
    ensures { Told (walk_of level (read_t left s.now)) (length s.now) result told.new }
{
    if s.len() == 0 {
        return stop(Fault::Shape, told);
    }
    if left == 0 {
        return stop(Fault::Level, told);
    }
    match s[0] {
        commands::ANY_TYPE..=commands::NULL_TYPE => end(1, 1, told),
        commands::LIST_TYPE => walk_types(&s[1..], 1, 1, left - 1, told),
        commands::RANGE_TYPE => walk_types(&s[1..], 1, 1, left - 1, told),
        commands::CONTEXT_TYPE => {
            if s.len() < 3 {
                return stop(Fault::Shape, told);
            }
            walk_fields(&s[3..], bytes::word_at(s, 1), left - 1, told)
        }
        commands::FUNCTION_TYPE => {
            if s.len() < 2 {
                return stop(Fault::Shape, told);
            }
            walk_types(&s[2..], 2, usize::from(s[1]) + 1, left - 1, told)
        }
        _ => stop(Fault::Shape, told),
    }
}

// `count` entries of a context type, their names strictly ascending; behind three bytes of their parent.
#[cycle(walk_fields_walk_type_walk_types)]
fn walk_fields(s: &[u8], count: usize, left: usize, told: &mut usize) -> usize
    requires { length s.now + 3 < 2 ^ 64 }
    ensures { Told (up 3 (walk_by level_fields 0 0 (read_fields (read_t left) count 0 s.now))) (length s.now + 3) result told.new }
{
    let mut at: usize = 0;
    let mut deep: usize = 0;
    let mut least: usize = 0;
    for _ in 0..count {
        if s.len() - at < NAME_WIDTH {
            return stop(Fault::Shape, told);
        }
        let name = bytes::name_at(s, at);
        if name < least {
            return stop(Fault::Names, told);
        }
        let from = at + NAME_WIDTH;
        least = name + 1;
        if let Some(n) = simple_at(s, from, left) {
            at = from + n;
            deep = deep.max(1);
            continue;
        }
        let size = walk_type(&s[from..], left, told);
        if size == 0 {
            return 0;
        }
        at = from + size;
        deep = deep.max(*told);
    }
    end(at + 3, deep + 1, told)
}

// `count` types, one behind the other; behind k bytes of their parent.
#[cycle(walk_fields_walk_type_walk_types)]
fn walk_types(s: &[u8], k: usize, count: usize, left: usize, told: &mut usize) -> usize
    requires { (1 ≤ k) × (length s.now + k < 2 ^ 64) }
    ensures { Told (up k (walk_by level_tys 0 0 (read_tys (read_t left) count s.now))) (length s.now + k) result told.new }
{
    let mut at: usize = 0;
    let mut deep: usize = 0;
    for _ in 0..count {
        if let Some(n) = simple_at(s, at, left) {
            at = at + n;
            deep = deep.max(1);
            continue;
        }
        let size = walk_type(&s[at..], left, told);
        if size == 0 {
            return 0;
        }
        at = at + size;
        deep = deep.max(*told);
    }
    end(at + k, deep + 1, told)
}

// ---- values

// n where so many bytes stand from `at` on.
fn within(s: &[u8], at: usize, n: usize) -> Option<usize>
    requires { at ≤ length s.now }
    ensures { result ≡ size_within n (length s.now - at) }
{
    if n <= s.len() - at { Some(n) } else { None }
}

// n where so many bytes stand from `at` on, of which the last is at most `most`.
fn bounded(s: &[u8], at: usize, n: usize, most: u8) -> Option<usize>
    requires { (at ≤ length s.now) × (1 ≤ n) }
    ensures { result ≡ size_bounded n (length s.now - at) (get_or s.now (at + n - 1) 0) most }
{
    if n <= s.len() - at && s[at + n - 1] <= most {
        Some(n)
    } else {
        None
    }
}

// The size of the value at `at` where it is a leaf of data but a decimal: a short way past most values. Each arm asks for the size of a
// command that is known, so that the loops have it as a constant. A test for decimals would cost all others time.
pub fn leaf_size_at(s: &[u8], at: usize, left: usize) -> Option<usize>
    requires { at ≤ length s.now }
    ensures { Short is_short_leaf (read_v left (drop at s.now)) result (length s.now - at) }
{
    if left == 0 || s.len() == at {
        return None;
    }
    let c = s[at];
    match c {
        commands::NUMBER => within(s, at, commands::leaf_size(commands::NUMBER)?),
        commands::STRING => within(s, at, commands::leaf_size(commands::STRING)?),
        commands::NULL..=commands::BOOLEAN => {
            bounded(
                s,
                at,
                commands::leaf_size(commands::NULL)?,
                commands::operand_end(c),
            )
        }
        commands::DATE..=commands::YEARS_AND_MONTHS => {
            within(s, at, commands::leaf_size(commands::DATE)?)
        }
        _ => None,
    }
}

// A definition behind its four bytes: the result type, then `count` names and types in any order.
fn walk_definition(s: &[u8], count: usize, left: usize, told: &mut usize) -> usize
    requires { length s.now + 4 < 2 ^ 64 }
    ensures { Told (up 4 (pair_walk level level_params s.now (read_params (read_t left) count 0) (read_t left s.now))) (length s.now + 4) result told.new }
{
    let mut at = walk_type(s, left, told);
    if at == 0 {
        return 0;
    }
    let mut deep = *told;
    for _ in 0..count {
        if s.len() - at < NAME_WIDTH {
            return stop(Fault::Shape, told);
        }
        let from = at + NAME_WIDTH;
        let size = walk_type(&s[from..], left, told);
        if size == 0 {
            return 0;
        }
        at = from + size;
        deep = deep.max(*told);
    }
    end(at + 4, deep + 1, told)
}

// A value that is no range, list or context.
fn walk_other(s: &[u8], left: usize, told: &mut usize) -> usize
    requires { 3 ≤ length s.now → 9 ≤ get_or s.now 0 0 → 11 < get_or s.now 0 0 }
    ensures { Told (walk_of level_v (read_v left s.now)) (length s.now) result told.new }
{
    if s.len() == 0 {
        return stop(Fault::Shape, told);
    }
    if left == 0 {
        return stop(Fault::Level, told);
    }
    let c = s[0];
    let w = commands::width(c);
    if s.len() - 1 < w {
        return stop(Fault::Shape, told);
    }
    match c {
        commands::NULL..=commands::YEARS_AND_MONTHS | commands::DECIMAL => {
            flag(s[w], commands::operand_end(c), w + 1, told)
        }
        commands::FUNCTION_DEFINITION => walk_definition(
            &s[4..],
            usize::from(s[1]),
            left - 1,
            told,
        ),
        commands::BUILT_IN_FUNCTION => flag(s[1], 85, 2, told),
        commands::FEEL_TYPE => walk_types(&s[1..], 1, 1, left - 1, told),
        commands::IRRELEVANT => end(1, 1, told),
        _ => stop(Fault::Shape, told),
    }
}

// The commands that most records have stand here, so that the call is short.
#[cycle(walk_entries_walk_items_walk_value)]
pub fn walk_value(s: &[u8], left: usize, told: &mut usize) -> usize
    ensures { Told (walk_of level_v (read_v left s.now)) (length s.now) result told.new }
{
    if s.len() < 3 {
        return walk_other(&s[0..], left, told);
    }
    if left == 0 {
        return stop(Fault::Level, told);
    }
    match s[0] {
        commands::RANGE => {
            if 3 < s[1] {
                return stop(Fault::Shape, told);
            }
            if 3 < s[2] {
                return stop(Fault::Shape, told);
            }
            walk_items(&s[3..], 2, left - 1, told)
        }
        commands::LIST => walk_items(&s[3..], bytes::word_at(s, 1), left - 1, told),
        commands::CONTEXT => walk_entries(&s[3..], bytes::word_at(s, 1), left - 1, told),
        _ => walk_other(&s[0..], left, told),
    }
}

// `count` values, one behind the other; behind three bytes of their parent.
#[cycle(walk_entries_walk_items_walk_value)]
fn walk_items(s: &[u8], count: usize, left: usize, told: &mut usize) -> usize
    requires { length s.now + 3 < 2 ^ 64 }
    ensures { Told (up 3 (walk_by level_vals 0 0 (read_vals (read_v left) count s.now))) (length s.now + 3) result told.new }
{
    if 0 == count {
        return end(3, 1, told);
    }
    let mut at: usize = 0;
    let mut deep: usize = 1;
    for _ in 0..count {
        if let Some(n) = leaf_size_at(s, at, left) {
            at = at + n;
            continue;
        }
        let size = walk_value(&s[at..], left, told);
        if size == 0 {
            return 0;
        }
        at = at + size;
        deep = deep.max(*told);
    }
    end(at + 3, deep + 1, told)
}

// `count` entries of a context, their names strictly ascending; behind three bytes of their parent.
#[cycle(walk_entries_walk_items_walk_value)]
fn walk_entries(s: &[u8], count: usize, left: usize, told: &mut usize) -> usize
    requires { length s.now + 3 < 2 ^ 64 }
    ensures { Told (up 3 (walk_by level_entries 0 0 (read_entries (read_v left) count 0 s.now))) (length s.now + 3) result told.new }
{
    if 0 == count {
        return end(3, 1, told);
    }
    let mut at: usize = 0;
    let mut deep: usize = 1;
    let mut least: usize = 0;
    for _ in 0..count {
        if s.len() - at < NAME_WIDTH {
            return stop(Fault::Shape, told);
        }
        let name = bytes::name_at(s, at);
        if name < least {
            return stop(Fault::Names, told);
        }
        let from = at + NAME_WIDTH;
        least = name + 1;
        if let Some(n) = leaf_size_at(s, from, left) {
            at = from + n;
            continue;
        }
        let size = walk_value(&s[from..], left, told);
        if size == 0 {
            return 0;
        }
        at = from + size;
        deep = deep.max(*told);
    }
    end(at + 3, deep + 1, told)
}
