// A table is checked and becomes a reading. For the calls over a table, here and in the crates above.
ghost use Rattle.std.specs.Prelude.{◌≡◌, ℕ, Bool, true, false, cond, ◌<◌, ◌≤◌, IfNone, IfSome};
ghost use Rattle.form.specs.Answers.{outcome};
ghost use Rattle.order.specs.Order.{bit};
ghost use Rattle.order.specs.Table.{are_flags, is_table, pack, packed};
ghost use Rattle.tables.specs.Rows.{row_of, rows_of, carries_at, ordered_at, ordered_rows, is_row, joined_at, joined_rows};
ghost use Rattle.tables.specs.Calls.{reading_of};

use crate::readings::Reading;
use form::Refusal;
use std::array;

// The simple types, and the bytes of a table.
const TYPES: usize = 10;

const TABLE_BYTES: usize = TYPES * TYPES;

// The places of a table's bits in a reading.
const PLACES: usize = 64;

// The codes of Any and Null.
const ANY: usize = 0;

const NULL: usize = 9;

// Whether all bytes are 0 or 1.
fn are_flags(table: &[u8]) -> bool
    ensures { result ≡ are_flags table.now }
{
    table.iter().all(|&b| b <= 1)
}

// The number whose bits are the answers of `flag` at the places below `count`.
fn pack<F: Fn(usize) -> bool>(count: usize, flag: F) -> u64
    requires room { count ≤ 64 }
    requires callable { (k : ℕ) → k < count → F.pre flag k }
    ensures { (f : ℕ → ℕ) → ((k : ℕ) (b : Bool) → k < count → F.post flag k b → f k ≡ cond b 1 0) → result ≡ pack f 0 count }
{
    let mut n = 0;
    for k in 0..count {
        n += u64::from(flag(k)) << k;
    }
    n
}

// The bytes of a table, each 0 or 1.
#[derive(Clone, Copy)]
struct Flags<'a> {
    bytes: &'a [u8; TABLE_BYTES],
    ghost each: { are_flags bytes.now ≡ true },
}

impl Flags<'_> {
    // None of another length or with another byte.
    fn read(table: &[u8]) -> Option<Flags<'_>>
        ensures none { IfNone result (is_table table.now ≡ false) }
        ensures some { IfSome result (λ flags. (is_table table.now ≡ true) × (flags.bytes.now ≡ table.now)) }
    {
        let bytes = table.as_array()?;
        if are_flags(table) {
            Some(Flags { bytes })
        } else {
            None
        }
    }

    // Row i as a number.
    fn row(&self, i: usize) -> u64
        requires { i < 10 }
        ensures { result ≡ row_of self.now.bytes.now i }
    {
        pack(TYPES, |j| self.bytes[i * TYPES + j] == 1)
    }

    fn rows(&self) -> [u64; TYPES]
        ensures { result ≡ rows_of self.now.bytes.now }
    {
        array::from_fn(|i| self.row(i))
    }

    // The number of the table: the bytes among 21 to 28, 0 on the diagonal.
    fn number(&self) -> u64
        ensures { result ≡ packed self.now.bytes.now }
    {
        pack(
            PLACES,
            |k| k % 9 != 0 && self.bytes[k / 8 * TYPES + k % 8 + 11] == 1,
        )
    }
}

// Bit j of a row.
fn has_bit(row: u64, j: usize) -> bool
    requires { j < 64 }
    ensures { result ≡ bit row j }
{
    (row >> j) % 2 == 1
}

// Where type i conforms to type j: whether j does not conform to i, unless it is i, and i conforms to all to which j conforms.
fn carries(rows: &[u64; TYPES], i: usize, j: usize) -> bool
    requires { (i < 10) × (j < 10) }
    ensures { result ≡ carries_at rows.now i j }
{
    let own = rows[i];
    let other = rows[j];
    i == j || !has_bit(own, j) || (!has_bit(other, i) && own & other == other)
}

// Whether type i conforms to itself, Null to it and it to Any, and carries what it conforms to.
fn is_ordered_at(rows: &[u64; TYPES], i: usize) -> bool
    requires { i < 10 }
    ensures { result ≡ ordered_at rows.now i }
{
    has_bit(rows[i], i)
        && has_bit(rows[NULL], i)
        && has_bit(rows[i], ANY)
        && (0..TYPES).all(|j| carries(rows, i, j))
}

// Whether the rows are an order: none of the conditions of 27 fails.
fn is_ordered(rows: &[u64; TYPES]) -> bool
    ensures { result ≡ ordered_rows rows.now }
{
    (0..TYPES).all(|i| is_ordered_at(rows, i))
}

// Whether one of the rows is the given one.
fn is_row(rows: &[u64; TYPES], common: u64) -> bool
    ensures { result ≡ is_row rows.now common }
{
    rows.contains(&common)
}

// Whether type i and each before it have a least common supertype: one whose row is what theirs have in common.
fn is_joined_at(rows: &[u64; TYPES], i: usize) -> bool
    requires { i < 10 }
    ensures { result ≡ joined_at rows.now i }
{
    (0..i).all(|j| is_row(rows, rows[i] & rows[j]))
}

// Whether all two types have a least common supertype: 28 otherwise.
fn is_joined(rows: &[u64; TYPES]) -> bool
    ensures { result ≡ joined_rows rows.now }
{
    (0..TYPES).all(|i| is_joined_at(rows, i))
}

// The reading of a table that loads. Refusals 26, 27, 28.
#[tactic(auto, using(crate::proofs::CallContracts::by_rows))]
pub fn load(table: &[u8]) -> Result<Reading, Refusal>
    ensures { outcome result ≡ reading_of table.now }
{
    let Some(flags) = Flags::read(table) else {
        return Err(Refusal::Table);
    };
    let rows = flags.rows();
    if !is_ordered(&rows) {
        return Err(Refusal::NotOrdered);
    }
    if !is_joined(&rows) {
        return Err(Refusal::NoJoin);
    }
    Ok(Reading::of_number(flags.number()))
}
