// Paths into a context over the byte form: the reading half of context.rs.
#![tactic(auto)]

ghost use Rattle.std.specs.Prelude.{◌≡◌, ◌+◌, ◌≤◌, length, IfSome};
ghost use Rattle.form.specs.Answers.{outcome};
ghost use Rattle.paths.specs.Places.{found, extent_of, Lends, Lent};
ghost use Rattle.paths.specs.Calls.{search_deep_call, get_entry_call, get_first_call, contains_deep_call, contains_entry_call, is_context_call, is_empty_call, len_call};

pub mod way;

use form::limits::{MOST_NAMES, NAME_WIDTH, VALUE_LEVELS};
use form::{Refusal, commands};

// A part of a context's bytes: where it starts and how long it is.
#[derive(Clone, Copy, Debug, PartialEq, Eq, Hash)]
pub struct Part {
    pub place: usize,
    pub size: usize,
}

// Where the value at the path stands. Refusals 1 to 5 of the context, 11, 12.
pub fn search_place(c: &[u8], path: &[u16]) -> Result<Option<Part>, Refusal>
    ensures { found result ≡ extent_of (search_deep_call c.now path.now) }
{
    let way = way::read(c, path)?;
    let is_long = MOST_NAMES < path.len();
    if is_long {
        return Err(Refusal::PathLength);
    }
    if c[0] != commands::CONTEXT {
        return Err(Refusal::NotContext);
    }
    let is_new = way.cut.gone == 0;
    if is_new || way.cut.names < path.len() {
        return Ok(None);
    }
    Ok(Some(Part {
        place: way.cut.at + NAME_WIDTH,
        size: way.cut.gone - NAME_WIDTH,
    }))
}

// Where the value of the name stands. Refusals 1 to 5, 12.
pub fn entry_place(c: &[u8], name: u16) -> Result<Option<Part>, Refusal>
    ensures { found result ≡ extent_of (get_entry_call c.now name) }
{
    search_place(c, &[name])
}

// Where the first value stands. Refusals 1 to 5, 12.
pub fn first_place(c: &[u8]) -> Result<Option<Part>, Refusal>
    ensures { found result ≡ extent_of (get_first_call c.now) }
{
    if len(c)? == 0 {
        return Ok(None);
    }
    let place = 3 + NAME_WIDTH;
    Ok(Some(Part {
        place,
        size: values::walk::skip(&c[place..], VALUE_LEVELS - 1),
    }))
}

// The bytes of a part of `c`.
fn lend(c: &[u8], part: Option<Part>) -> Option<&[u8]>
    requires { IfSome part (λ p. p.place + p.size ≤ length c.now) }
    ensures { Lends part c.entry result }
{
    let part = part?;
    let end = part.place + part.size;
    Some(&c[part.place..end])
}

// `FeelContext::search_deep`. Refusals 1 to 5 of the context, 11, 12.
pub fn search_deep<'a>(c: &'a [u8], path: &[u16]) -> Result<Option<&'a [u8]>, Refusal>
    ensures { Lent (search_deep_call c.now path.now) c.entry result }
{
    Ok(lend(c, search_place(c, path)?))
}

// `FeelContext::get_entry`. Refusals 1 to 5, 12.
pub fn get_entry(c: &[u8], name: u16) -> Result<Option<&[u8]>, Refusal>
    ensures { Lent (get_entry_call c.now name) c.entry result }
{
    Ok(lend(c, entry_place(c, name)?))
}

// `FeelContext::get_first`. Refusals 1 to 5, 12.
pub fn get_first(c: &[u8]) -> Result<Option<&[u8]>, Refusal>
    ensures { Lent (get_first_call c.now) c.entry result }
{
    Ok(lend(c, first_place(c)?))
}

// `FeelContext::contains_deep`. Refusals 1 to 5 of the context, 11, 12.
pub fn contains_deep(c: &[u8], path: &[u16]) -> Result<bool, Refusal>
    ensures { outcome result ≡ contains_deep_call c.now path.now }
{
    Ok(search_place(c, path)?.is_some())
}

// `FeelContext::contains_entry`. Refusals 1 to 5, 12.
pub fn contains_entry(c: &[u8], name: u16) -> Result<bool, Refusal>
    ensures { outcome result ≡ contains_entry_call c.now name }
{
    Ok(entry_place(c, name)?.is_some())
}

// `FeelContext::is_context`. Refusals 1 to 5, 12.
pub fn is_context(c: &[u8], name: u16) -> Result<bool, Refusal>
    ensures { outcome result ≡ is_context_call c.now name }
{
    match entry_place(c, name)? {
        Some(part) => Ok(c[part.place] == commands::CONTEXT),
        None => Ok(false),
    }
}

// `FeelContext::is_empty`. Refusals 1 to 5, 12.
pub fn is_empty(c: &[u8]) -> Result<bool, Refusal>
    ensures { outcome result ≡ is_empty_call c.now }
{
    Ok(len(c)? == 0)
}

// `FeelContext::len`. Refusals 1 to 5, 12.
pub fn len(c: &[u8]) -> Result<usize, Refusal>
    ensures { outcome result ≡ len_call c.now }
{
    form::check_value(c)?;
    if c[0] == commands::CONTEXT {
        Ok(form::bytes::word_at(c, 1))
    } else {
        Err(Refusal::NotContext)
    }
}
