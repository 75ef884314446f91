// The readings of conformance: document 01's, DMN's own, which is strict on functions, and those of tables. For the walks and builders of the crates above.
// From outside simple types go by their commands, in here by their codes.
ghost use Rattle.std.specs.Prelude.{◌≡◌, ◌+◌, ◌-◌, ◌≤◌};
ghost use Rattle.form.specs.Trees.{code};
ghost use Rattle.order.specs.Order.{top, toward, order_of, is_inner, related, below, below_in, closer, narrowed, nearest};

use form::commands;
use std::marker::Model;

// A reading. Contracts see its number, whose order is `order_of`.
#[derive(Clone, Copy, Debug, PartialEq, Eq, Hash)]
pub struct Reading {
    bits: u64,
}

impl Model for Reading {
    ghost use Rattle.std.specs.Prelude.{ℕ};

    ghost Value = { ℕ };

    ghost view = { λ reading. reading.bits };

    ghost inverse = { λ n. record { bits = n } };
}

// The readings from here on are those of tables.
const TABLES: u64 = 2;

// The codes of Any and Null, and of the first and the last type between them.
const ANY: u8 = 0;

const FIRST: u8 = 1;

const LAST: u8 = 8;

const NULL: u8 = 9;

impl Reading {
    // Document 01's: the result of a function without parameters is ignored.
    pub const DOCUMENT: Reading = Reading { bits: 0 };

    // DMN's: every function is judged by its result.
    pub const STRICT: Reading = Reading { bits: 1 };

    // The one with this number, of a table that loads or of none: the walks and builders are exact for every number.
    pub fn of_number(bits: u64) -> Reading
        ensures { result ≡ bits }
    {
        Reading { bits }
    }

    // Its number.
    pub fn number(self) -> u64
        ensures { result ≡ self }
    {
        let Reading { bits } = self;
        bits
    }

    // Whether it is strict: its bit 0.
    pub fn is_strict(self) -> bool
        ensures { result ≡ (order_of self).strict }
    {
        self.bits % 2 == 1
    }

    // Whether a table has the one type below the other; no for all but two of 21 to 28.
    pub fn is_related(self, c: u8, d: u8) -> bool
        ensures { result ≡ related self (c - 32) (d - 32) }
    {
        self.relates(code(c), code(d))
    }

    // The common supertype (up) or subtype of two types of which neither is the least in the direction, and which are not equal, where it is a simple one: what a
    // table says of two of 21 to 28, otherwise the greatest in the direction.
    pub fn nearest(self, up: bool, c: u8, d: u8) -> u8
        ensures { (32 ≤ result) × (result ≤ 41) × (result - 32 ≡ nearest self (toward up) (c - 32) (d - 32)) }
    {
        let i = code(c);
        let j = code(d);
        if self.bits < TABLES || !is_inner(i) || !is_inner(j) {
            return greatest(up);
        }
        commands::ANY_TYPE + self.narrow(up, i, j)
    }

    // The same as `is_related`, by codes.
    fn relates(self, i: u8, j: u8) -> bool
        ensures { result ≡ related self i j }
    {
        self.bits >= TABLES
            && is_inner(i)
            && is_inner(j)
            && (self.bits >> ((i - FIRST) * 8 + (j - FIRST))) % 2 == 1
    }

    // Whether one simple type conforms to another.
    fn conforms(self, i: u8, j: u8) -> bool
        ensures { result ≡ below self i j }
    {
        self.relates(i, j) || i == NULL || j == ANY || i == j
    }

    // The same in a direction: up, the one conforms to the other; otherwise the other to it.
    fn is_below(self, up: bool, i: u8, j: u8) -> bool
        ensures { result ≡ below_in self (toward up) i j }
    {
        if up {
            self.conforms(i, j)
        } else {
            self.conforms(j, i)
        }
    }

    // Whether u bounds both i and j, and is below the best so far.
    fn is_closer(self, up: bool, i: u8, j: u8, u: u8, best: u8) -> bool
        ensures { result ≡ closer self (toward up) i j u best }
    {
        self.is_below(up, i, u) && self.is_below(up, j, u) && self.is_below(up, u, best)
    }

    // The common bound of two of 21 to 28: each of them that is closer than the best before takes its place.
    fn narrow(self, up: bool, i: u8, j: u8) -> u8
        ensures { (result ≤ 9) × (result ≡ narrowed (closer self (toward up) i j) (code (top (toward up))) 1 8) }
    {
        let mut best = if up { ANY } else { NULL };
        for u in FIRST..=LAST {
            if self.is_closer(up, i, j, u, best) {
                best = u;
            }
        }
        best
    }
}

// The code of a simple type by its command.
fn code(c: u8) -> u8
    ensures { result ≡ c - 32 }
{
    c.saturating_sub(commands::ANY_TYPE)
}

// Whether a code is that of one of the eight types between Null and Any, 21 to 28.
fn is_inner(i: u8) -> bool
    ensures { result ≡ is_inner i }
{
    matches!(i, FIRST..=LAST)
}

// The greatest simple type in a direction: Any (up) or Null.
pub fn greatest(up: bool) -> u8
    ensures { result ≡ 32 + code (top (toward up)) }
{
    if up {
        commands::ANY_TYPE
    } else {
        commands::NULL_TYPE
    }
}
