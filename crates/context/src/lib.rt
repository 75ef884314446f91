// context.rs: updates of a context, over the byte form. The walks and the builders below are seen through their contracts only.
#![tactic(auto)]

ghost use Rattle.std.specs.Prelude.{false, ◌-◌, ◌<◌, length};
ghost use Rattle.form.specs.Answers.{Built};
ghost use Rattle.context.specs.Calls.{create_entries_call, apply_entries_call, set_entry_call, set_null_call, zip_call, overwrite_call, remove_entry_call, move_entry_call};

mod builder;

use form::Refusal;
use form::limits::MOST_BYTES;

// `FeelContext::create_entries`. Refusals 1 to 5 of the context, 11, 1 to 5 of the value, 12, 17, 18.
pub fn create_entries(c: &[u8], path: &[u16], v: &[u8], out: &mut [u8]) -> Result<usize, Refusal>
    ensures { Built (create_entries_call c.now path.now v.now (length out.old)) out.old out.new result }
{
    builder::update(c, path, v, false, out)
}

// `FeelContext::apply_entries`. Refusals 1 to 5 of the context, 11, 1 to 5 of the value, 12, 16, 17, 18.
pub fn apply_entries(c: &[u8], path: &[u16], v: &[u8], out: &mut [u8]) -> Result<usize, Refusal>
    ensures { Built (apply_entries_call c.now path.now v.now (length out.old)) out.old out.new result }
{
    builder::update(c, path, v, true, out)
}

// `FeelContext::set_entry`. Refusals 1 to 5 of the context, 1 to 5 of the value, 12, 17, 18.
pub fn set_entry(c: &[u8], name: u16, v: &[u8], out: &mut [u8]) -> Result<usize, Refusal>
    ensures { Built (set_entry_call c.now name v.now (length out.old)) out.old out.new result }
{
    create_entries(c, &[name], v, out)
}

// `FeelContext::set_null`. Refusals 1 to 5, 12, 17, 18.
pub fn set_null(c: &[u8], name: u16, out: &mut [u8]) -> Result<usize, Refusal>
    ensures { Built (set_null_call c.now name (length out.old)) out.old out.new result }
{
    let nothing = [0u8; 2];
    set_entry(c, name, &nothing, out)
}

// `FeelContext::zip`. Refusals 1 to 5 of each, 12, 17, 18.
pub fn zip(c: &[u8], other: &[u8], out: &mut [u8]) -> Result<usize, Refusal>
    ensures { Built (zip_call c.now other.now (length out.old)) out.old out.new result }
{
    builder::join(true, c, other, out)
}

// `FeelContext::overwrite`. Refusals 1 to 5 of each, 12, 17, 18.
pub fn overwrite(c: &[u8], other: &[u8], out: &mut [u8]) -> Result<usize, Refusal>
    ensures { Built (overwrite_call c.now other.now (length out.old)) out.old out.new result }
{
    builder::join(false, c, other, out)
}

// `FeelContext::remove_entry`. Refusals 1 to 5, 12, 17, 18; 17 is never met.
pub fn remove_entry(c: &[u8], name: u16, out: &mut [u8]) -> Result<usize, Refusal>
    ensures { Built (remove_entry_call c.now name (length out.old)) out.old out.new result }
{
    let cut = builder::find(c, name)?;
    if cut.gone == 0 {
        return output::give(c, out);
    }
    let count = form::bytes::word_at(c, 1) - 1;
    builder::give_without(c, cut.at, cut.at + cut.gone, count, out)
}

// `FeelContext::move_entry`. Refusals 1 to 5, 12, 17, 18.
pub fn move_entry(c: &[u8], name: u16, parent: u16, out: &mut [u8]) -> Result<usize, Refusal>
    ensures { Built (move_entry_call c.now name parent (length out.old)) out.old out.new result }
{
    let cut = builder::find(c, name)?;
    if cut.gone == 0 {
        return output::give(c, out);
    }
    let count = form::bytes::word_at(c, 1) - 1;
    let path = [parent, name];
    if c.len() <= 512 {
        let mut few = [0u8; 512];
        return builder::move_in(c, cut, count, &path, &mut few, out);
    }
    let mut spare = [0u8; MOST_BYTES];
    builder::move_in(c, cut, count, &path, &mut spare, out)
}
