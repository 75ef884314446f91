// The table of texts: read once, with a mark where each text stands.
ghost use Rattle.std.specs.Prelude.{◌≡◌, ℕ, ◌+◌, ◌<◌, ◌≤◌, min, length, IfSome, MatchOption};
ghost use Rattle.std.proofs.Math.Option.{none, some};
ghost use Rattle.form.specs.Form.{num_at};
ghost use Rattle.display.specs.Texts.{nth};
ghost use Rattle.display.specs.Tables.{printable, tidy, less_text, behind, in_table, read_table};
ghost use Rattle.display.specs.Marks.{Reads};

use form::limits::MOST_BYTES;
use names::texts::split_text;
use std::marker::Model;

// The texts of a table: its bytes, and of each text the place of its length byte. Contracts see the list of the texts.
#[derive(Drop)]
pub(crate) struct Texts<'a> {
    table: &'a [u8],
    marks: &'a [u16],
}

impl<'a> Model for Texts<'a> {
    ghost use Rattle.std.specs.Prelude.{List, ℕ};
    ghost use Rattle.display.specs.Marks.{texts_of, Marks};

    ghost Value = { List (List ℕ) };

    ghost view = { λ t. texts_of t.table.now t.marks.now };

    ghost invariant = { λ t. Marks t.table.now t.marks.now };
}

impl<'a> Texts<'a> {
    // Reads a table, over a lent place for its marks; None where it is no table.
    pub(crate) fn read(table: &'a [u8], marks: &'a mut [u16]) -> Option<Self>
        requires { 2 ≤ length table.now → min (num_at 2 0 table.now) 8192 ≤ length marks.old }
        ensures { MatchOption result (read_table table.now ≡ none) (λ t. read_table table.now ≡ some t) }
    {
        let count = mark_texts(table, marks)?;
        Some(Texts {
            table,
            marks: &marks[..count],
        })
    }

    // The text with this number.
    pub(crate) fn get(&self, number: usize) -> Option<&'a [u8]>
        ensures text { MatchOption result (nth self.now number ≡ none) (λ t. nth self.now number ≡ some t.now) }
        ensures bound { IfSome result (λ t. length t.now < 256) }
    {
        let at = usize::from(*self.marks.get(number)?);
        let from = at + 1;
        let to = from + usize::from(self.table[at]);
        Some(&self.table[from..to])
    }
}

// Bytes 20 to 7E.
fn is_printable(s: &[u8]) -> bool
    ensures { result ≡ printable s.now }
{
    s.iter().all(|b| matches!(*b, 0x20..=0x7E))
}

// A text of the table: bytes 20 to 7E, neither first nor last 20.
fn is_tidy(s: &[u8]) -> bool
    ensures { result ≡ tidy s.now }
{
    is_printable(s) && !matches!(s, [b' ', ..] | [.., b' '])
}

// Whether s is below t: by the first byte that differs; a proper beginning is below.
#[tactic(auto, using(crate::proofs::Tables::less_is))]
fn is_less(s: &[u8], t: &[u8]) -> bool
    ensures { result ≡ less_text s.now t.now }
{
    s.cmp(&t).is_lt()
}

// Whether a text may stand at place i, behind the one before it.
fn is_next(i: usize, before: &[u8], text: &[u8]) -> bool
    ensures { result ≡ in_table (behind i before.now) text.now }
{
    is_tidy(text) && (i == 0 || is_less(before, text))
}

// Reads a table: a 16-bit count, and as many texts, strictly ascending, with nothing behind them. Answers how many there are, and leaves a mark for each.
fn mark_texts(table: &[u8], marks: &mut [u16]) -> Option<usize>
    requires { 2 ≤ length table.now → min (num_at 2 0 table.now) 8192 ≤ length marks.old }
    ensures { Reads (read_table table.now) table.now marks.new result }
{
    if table.len() < 2 || MOST_BYTES < table.len() {
        return None;
    }
    let count = form::bytes::word_at(table, 0);
    if marks.len() < count {
        return None;
    }
    let mut before: &[u8] = b"";
    let mut rest = &table[2..];
    for i in 0..count {
        let (text, behind) = split_text(rest)?;
        if !is_next(i, before, text) {
            return None;
        }
        marks[i] = (table.len() - rest.len()) as u16;
        before = text;
        rest = behind;
    }
    if rest.is_empty() { Some(count) } else { None }
}
