// Display of types over the byte form, with the texts of names from the caller's table: types.rs.
#![tactic(auto)]

ghost use Rattle.std.specs.Prelude.{◌≡◌, ◌+◌, ◌*◌, ◌<◌, ◌≤◌, ◌^◌, min, length, IfSome};
ghost use Rattle.form.specs.Limits.{most_bytes};
ghost use Rattle.form.specs.Form.{num_at};
ghost use Rattle.form.specs.Answers.{Built};
ghost use Rattle.types.specs.At.{type_at, fields_at, sig_at, Ok};
ghost use Rattle.output.specs.Output.{puts};
ghost use Rattle.display.specs.Writing.{gap, label, of_types, of_inner, of_fields, of_sigs, Shows, Accepted};
ghost use Rattle.display.specs.Calls.{display_call, text_call};

mod table;

use form::limits::{MOST_BYTES, NAME_WIDTH, TYPE_LEVELS};
use form::{Refusal, commands};
use names::built_in;
use table::Texts;

// What was shown: how many bytes of the type were read, and where its text ends.
#[derive(Clone, Copy)]
struct Shown {
    read: usize,
    to: usize,
}

// A table with so few texts has few marks.
const FEW: usize = 64;

// The most texts of a table.
const MOST_TEXTS: usize = 8192;

// ---- the writers: they write from `at` on what has room, and count all

// A comma and a space in front of entry i, but not in front of the first.
#[tactic(auto, using(names::proofs::Pieces::put_none))]
fn put_gap(i: usize, out: &mut [u8], at: usize) -> usize
    requires { at + 2 < 2 ^ 64 }
    ensures value { result ≡ at + length (gap i) }
    ensures out_after { out.new ≡ puts at (gap i) out.old }
{
    if i == 0 {
        return at;
    }
    output::put(b", ", out, at)
}

// The name of entry i of a context type, with what stands in front of it and the colon behind it.
#[tactic(auto, using(names::proofs::Pieces::put_twice, crate::proofs::ShowPieces::label_is))]
fn put_label(i: usize, name: &[u8], out: &mut [u8], at: usize) -> usize
    requires { at + length name.now + 4 < 2 ^ 64 }
    ensures value { result ≡ at + length (label i name.now) }
    ensures out_after { out.new ≡ puts at (label i name.now) out.old }
{
    let from = put_gap(i, out, at);
    let to = output::put(name, out, from);
    output::put(b": ", out, to)
}

// The text of the type at the front of `t`.
#[cycle(shows)]
fn show(t: &[u8], texts: &Texts, out: &mut [u8], at: usize, left: usize) -> Option<Shown>
    requires t_len_bound { length t.now ≤ most_bytes }
    requires ok { Ok (type_at left t.now) }
    requires room { at + most_bytes * length t.now < 2 ^ 63 }
    ensures shows { Shows of_types texts.now (type_at left t.now) at out.old out.new result }
    ensures bound { IfSome result (λ s. s.to + 2 ≤ at + most_bytes * s.read) }
{
    let c = t[0];
    if c < commands::LIST_TYPE {
        let name = built_in::simple_names()[usize::from(c - commands::ANY_TYPE)];
        return Some(Shown {
            read: 1,
            to: output::put(name, out, at),
        });
    }
    if c == commands::LIST_TYPE {
        return show_inner(b"list<", &t[1..], texts, out, at, left - 1);
    }
    if c == commands::RANGE_TYPE {
        return show_inner(b"range<", &t[1..], texts, out, at, left - 1);
    }
    if c == commands::CONTEXT_TYPE {
        let from = output::put(b"context<", out, at);
        let fields = show_fields(
            &t[3..],
            form::bytes::word_at(t, 1),
            texts,
            out,
            from,
            left - 1,
        )?;
        return Some(Shown {
            read: fields.read + 3,
            to: output::put(b">", out, fields.to),
        });
    }
    let from = output::put(b"function<", out, at);
    let sig = show_sig(&t[2..], usize::from(t[1]), texts, out, from, left - 1)?;
    Some(Shown {
        read: sig.read + 2,
        to: sig.to,
    })
}

// A list or a range over the type at the front of `t`.
#[cycle(shows)]
fn show_inner(
    front: &[u8],
    t: &[u8],
    texts: &Texts,
    out: &mut [u8],
    at: usize,
    left: usize,
) -> Option<Shown>
    requires front_len_bound { length front.now ≤ 8 }
    requires t_len_bound { length t.now ≤ most_bytes }
    requires ok { Ok (type_at left t.now) }
    requires room { at + most_bytes + most_bytes * length t.now < 2 ^ 63 }
    ensures shows { Shows (of_inner front.now) texts.now (type_at left t.now) at out.old out.new result }
    ensures bound { IfSome result (λ s. s.to + 2 ≤ at + most_bytes * s.read) }
{
    let from = output::put(front, out, at);
    let inner = show(t, texts, out, from, left)?;
    Some(Shown {
        read: inner.read + 1,
        to: output::put(b">", out, inner.to),
    })
}

// `count` entries of a context type, each its name and its type, with a comma between two.
#[cycle(shows)]
fn show_fields(
    s: &[u8],
    count: usize,
    texts: &Texts,
    out: &mut [u8],
    at: usize,
    left: usize,
) -> Option<Shown>
    requires s_len_bound { length s.now ≤ most_bytes }
    requires ok { Ok (fields_at left count 0 s.now) }
    requires room { at + most_bytes * length s.now < 2 ^ 63 }
    ensures shows { Shows of_fields texts.now (fields_at left count 0 s.now) at out.old out.new result }
    ensures bound { IfSome result (λ s. s.to ≤ at + most_bytes * s.read) }
{
    let mut read = 0;
    let mut to = at;
    for i in 0..count {
        let name = texts.get(form::bytes::name_at(s, read))?;
        to = put_label(i, name, out, to);
        let from = read + NAME_WIDTH;
        let shown = show(&s[from..], texts, out, to, left)?;
        read = from + shown.read;
        to = shown.to;
    }
    Some(Shown { read, to })
}

// `count` parameters with a comma between two, and behind them the result.
#[cycle(shows)]
fn show_sig(
    s: &[u8],
    count: usize,
    texts: &Texts,
    out: &mut [u8],
    at: usize,
    left: usize,
) -> Option<Shown>
    requires s_len_bound { length s.now ≤ most_bytes }
    requires ok { Ok (sig_at left count s.now) }
    requires room { at + most_bytes * length s.now + 3 < 2 ^ 63 }
    ensures shows { Shows of_sigs texts.now (sig_at left count s.now) at out.old out.new result }
    ensures bound { IfSome result (λ s. s.to ≤ at + most_bytes * s.read + 1) }
{
    let mut read = 0;
    let mut to = at;
    for i in 0..count {
        to = put_gap(i, out, to);
        let shown = show(&s[read..], texts, out, to, left)?;
        read += shown.read;
        to = shown.to;
    }
    to = output::put(b">->", out, to);
    let shown = show(&s[read..], texts, out, to, left)?;
    Some(Shown {
        read: read + shown.read,
        to: shown.to,
    })
}

// ---- the call

// The text of an accepted type by a spare place: handed on from there where all of it has room, otherwise measured by it and written. Refusals 20, 18.
fn text_by(t: &[u8], texts: &Texts, spare: &mut [u8], out: &mut [u8]) -> Result<usize, Refusal>
    requires { Accepted t.now }
    ensures { Built (text_call texts.now t.now (length out.old)) out.old out.new result }
{
    let measured = show(t, texts, spare, 0, TYPE_LEVELS).ok_or(Refusal::NoSuchName)?; // before the room is looked at
    let n = measured.to;
    if n <= spare.len() {
        return output::give(&spare[..n], out);
    }
    if out.len() < n {
        return Err(Refusal::Output);
    }
    let written = show(t, texts, out, 0, TYPE_LEVELS).ok_or(Refusal::NoSuchName)?;
    Ok(written.to)
}

// The text of an accepted type over a spare place of its own, by the type's length: small, large, or none.
fn write_text(t: &[u8], texts: &Texts, out: &mut [u8]) -> Result<usize, Refusal>
    requires { Accepted t.now }
    ensures { Built (text_call texts.now t.now (length out.old)) out.old out.new result }
{
    if t.len() <= 40 {
        return text_by(t, texts, &mut [0; 512], out);
    }
    if t.len() <= 1000 {
        return text_by(t, texts, &mut [0; MOST_BYTES], out);
    }
    text_by(t, texts, &mut [], out)
}

// The text of an accepted type over a table, whose marks go to a lent place. Refusals 19, 20, 18.
fn display_by(t: &[u8], table: &[u8], marks: &mut [u16], out: &mut [u8]) -> Result<usize, Refusal>
    requires accepted { Accepted t.now }
    requires room { 2 ≤ length table.now → min (num_at 2 0 table.now) 8192 ≤ length marks.old }
    ensures { Built (display_call t.now table.now (length out.old)) out.old out.new result }
{
    let texts = Texts::read(table, marks).ok_or(Refusal::Texts)?;
    write_text(t, &texts, out)
}

// Display of `FeelType`. Refusals 6 to 10 of the type, 19 of the table, 20, 18.
pub fn display(t: &[u8], table: &[u8], out: &mut [u8]) -> Result<usize, Refusal>
    ensures { Built (display_call t.now table.now (length out.old)) out.old out.new result }
{
    form::check_type(t)?;
    if table.len() < 2 || form::bytes::word_at(table, 0) <= FEW {
        return display_by(t, table, &mut [0; FEW], out);
    }
    display_by(t, table, &mut [0; MOST_TEXTS], out)
}
