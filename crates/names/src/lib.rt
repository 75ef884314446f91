// Names over the byte form: names.rs, and of types.rs the names of the built-in types.
#![tactic(auto)]

ghost use Rattle.std.specs.Prelude.{◌≡◌, ℕ, ◌+◌, ◌-◌, ◌<◌, ◌≤◌, ◌^◌, true, false, length, slice_index, IfSome};
ghost use Rattle.form.specs.Limits.{most_bytes};
ghost use Rattle.form.specs.Answers.{Built};
ghost use Rattle.output.specs.Output.{puts};
ghost use Rattle.form.specs.Options.{map};
ghost use Rattle.names.specs.BuiltInNames.{is_built_in_type_name};
ghost use Rattle.names.specs.Names.{blank, Trimmed, is_mark, parted, added, name_new, Writes};
ghost use Rattle.names.specs.Parts.{read_parts};
ghost use Rattle.names.specs.Calls.{name_new_call, trim_call, from_str_call, known};

use form::Refusal;
use form::commands::ANY_TYPE;
use form::limits::MOST_BYTES;

pub mod built_in; // for the crate `display` alone
pub mod texts; // for the crate `display` too

// Parts with so few bytes have a small spare place.
const FEW: usize = 512;

// ---- the names of the built-in types

// `FeelType::from_str`: the command of the type with this name. It refuses nothing.
pub fn from_str(s: &[u8]) -> Option<u8>
    ensures { known result ≡ from_str_call s.now }
{
    let place = built_in::simple_names().iter().position(|name| s == *name);
    place.map(|k| ANY_TYPE + k as u8)
}

// `is_built_in_type_name`. It refuses nothing.
#[tactic(auto, using(crate::proofs::BuiltInNames::known_read, crate::proofs::BuiltInNames::built_in_read))]
pub fn is_built_in_type_name(s: &[u8]) -> bool
    ensures { result ≡ is_built_in_type_name s.now }
{
    from_str(s).is_some()
}

// ---- trim

fn is_blank(b: u8) -> bool
    ensures { result ≡ blank b }
{
    matches!(b, 0x09..=0x0D | 0x20)
}

// Where the blanks at the front end.
fn trim_start(s: &[u8]) -> usize
    ensures within { result ≤ length s.now }
    ensures blanks { (k : ℕ) → k < result → blank (slice_index s.now k) ≡ true }
    ensures stops { result < length s.now → blank (slice_index s.now result) ≡ false }
{
    s.iter().position(|b| !is_blank(*b)).unwrap_or(s.len())
}

// Where the blanks at the end start.
fn trim_end(s: &[u8]) -> usize
    ensures within { result ≤ length s.now }
    ensures blanks { (k : ℕ) → result ≤ k → k < length s.now → blank (slice_index s.now k) ≡ true }
    ensures stops { 0 < result → blank (slice_index s.now (result - 1)) ≡ false }
{
    s.iter()
        .rposition(|b| !is_blank(*b))
        .map_or(0, |last| last + 1)
}

// `Name::from`: the caller's own bytes without the blanks at both ends. It refuses nothing.
pub fn trim<'a>(s: &'a [u8]) -> &'a [u8]
    ensures { Trimmed s.entry result }
{
    let from = trim_start(s);
    let rest = &s[from..];
    let to = trim_end(rest);
    &rest[..to]
}

// `trim` at the front of the output. Refusals 19 (more than 16,384 bytes), 18.
pub fn trim_into(s: &[u8], out: &mut [u8]) -> Result<usize, Refusal>
    ensures { Built (trim_call s.now (length out.old)) out.old out.new result }
{
    if MOST_BYTES < s.len() {
        return Err(Refusal::Texts);
    }
    output::give(trim(s), out)
}

// ---- Name::new

// One of the marks that stand in a name without a space before and behind them.
fn is_mark(part: &[u8]) -> bool
    ensures { result ≡ is_mark part.now }
{
    matches!(part, [b'.' | b'/' | b'-' | b'\'' | b'+' | b'*'])
}

// Whether a space stands in front of the part.
fn is_parted(index: u8, prev: bool, part: &[u8]) -> bool
    ensures { result ≡ parted index prev part.now }
{
    index != 0 && !prev && !is_mark(part) && !part.is_empty()
}

// What a trimmed part adds to the name, written from `at` on.
#[tactic(auto, using(crate::proofs::Pieces::put_twice))]
fn put_part(index: u8, prev: bool, part: &[u8], out: &mut [u8], at: usize) -> usize
    requires { at + length part.now + 1 < 2 ^ 64 }
    ensures value { result ≡ at + length (added index prev part.now) }
    ensures out_after { out.new ≡ puts at (added index prev part.now) out.old }
{
    if is_parted(index, prev, part) {
        let from = output::put(b" ", out, at);
        return output::put(part, out, from);
    }
    output::put(part, out, at)
}

// The name of the parts, as much as has room: its length, which is not above theirs, or None where these are no parts.
fn write_name(parts: &[u8], out: &mut [u8]) -> Option<usize>
    requires { length parts.now ≤ most_bytes }
    ensures writes { Writes (map name_new (read_parts parts.now)) out.old out.new result }
    ensures bound { IfSome result (λ n. n ≤ length parts.now) }
{
    let (count, mut rest) = parts.split_first()?;
    let mut prev = false;
    let mut to: usize = 0;
    for index in 0..*count {
        let (part, behind) = texts::split_text(rest)?;
        if !part.is_ascii() {
            return None;
        }
        let trimmed = trim(part);
        to = put_part(index, prev, trimmed, out, to);
        prev = is_mark(trimmed);
        rest = behind;
    }
    if rest.is_empty() { Some(to) } else { None }
}

// The name of the parts, built in a spare place as long as the parts and handed on. Refusals 19, 18.
fn name_by(parts: &[u8], spare: &mut [u8], out: &mut [u8]) -> Result<usize, Refusal>
    requires short { length parts.now ≤ most_bytes }
    requires room { length parts.now ≤ length spare.old }
    ensures { Built (name_new_call parts.now (length out.old)) out.old out.new result }
{
    let n = write_name(parts, spare).ok_or(Refusal::Texts)?;
    output::give(&spare[..n], out)
}

// `Name::new`. Refusals 19, 18.
pub fn name_new(parts: &[u8], out: &mut [u8]) -> Result<usize, Refusal>
    ensures { Built (name_new_call parts.now (length out.old)) out.old out.new result }
{
    if parts.len() <= FEW {
        return name_by(parts, &mut [0; FEW], out);
    }
    if MOST_BYTES < parts.len() {
        return Err(Refusal::Texts);
    }
    name_by(parts, &mut [0; MOST_BYTES], out)
}
