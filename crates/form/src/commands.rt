// Commands and the widths of their operands. For the walks here and the leaves of the crates above.
ghost use Rattle.std.specs.Prelude.{◌≡◌, ◌+◌, ◌-◌, ◌<◌};
ghost use Rattle.form.specs.Outcome.{pick};
ghost use Rattle.form.specs.Layout.{no_width, width_of, is_leaf_command, leaf_type_command};
ghost use Rattle.form.specs.Walks.{operand_end};

use crate::limits::{MOST_EXPONENT, NAME_WIDTH};

// The commands of values.
pub const NULL: u8 = 0x00;

pub const BOOLEAN: u8 = 0x01;

pub const NUMBER: u8 = 0x02;

pub const STRING: u8 = 0x03;

pub const DATE: u8 = 0x04;

pub const TIME: u8 = 0x05;

pub const DATE_TIME: u8 = 0x06;

pub const DAYS_AND_TIME: u8 = 0x07;

pub const YEARS_AND_MONTHS: u8 = 0x08;

pub const RANGE: u8 = 0x09;

pub const LIST: u8 = 0x0A;

pub const CONTEXT: u8 = 0x0B;

pub const FUNCTION_DEFINITION: u8 = 0x0C;

pub const BUILT_IN_FUNCTION: u8 = 0x0D;

pub const FEEL_TYPE: u8 = 0x0E;

pub const IRRELEVANT: u8 = 0x0F;

pub const DECIMAL: u8 = 0x10;

// The commands of types.
pub const ANY_TYPE: u8 = 0x20;

pub const BOOLEAN_TYPE: u8 = 0x21;

pub const NUMBER_TYPE: u8 = 0x22;

pub const STRING_TYPE: u8 = 0x23;

pub const DATE_TYPE: u8 = 0x24;

pub const TIME_TYPE: u8 = 0x25;

pub const DATE_TIME_TYPE: u8 = 0x26;

pub const DAYS_AND_TIME_TYPE: u8 = 0x27;

pub const YEARS_AND_MONTHS_TYPE: u8 = 0x28;

pub const NULL_TYPE: u8 = 0x29;

pub const LIST_TYPE: u8 = 0x2A;

pub const RANGE_TYPE: u8 = 0x2B;

pub const CONTEXT_TYPE: u8 = 0x2C;

pub const FUNCTION_TYPE: u8 = 0x2D;

// The command of a boolean, a whole number, a string or a temporal value and that of its type differ by this.
const LEAF_TO_TYPE: u8 = 0x20;

// ---- the widths of operands: each stands here, once; who has to do with any command asks for it

// What a byte has that is no command.
const NO_WIDTH: usize = 255;

// How many operand bytes a leaf of data has, by ranges of its command; no width for every other byte. Apart from `width`, since the loops of the walks ask
// for leaves alone.
fn leaf_width(c: u8) -> usize
    ensures { result ≡ pick (is_leaf_command c) (width_of c) no_width }
{
    match c {
        NULL..=BOOLEAN => 1,
        NUMBER | DATE..=YEARS_AND_MONTHS => 8,
        STRING => NAME_WIDTH,
        DECIMAL => 9,
        _ => NO_WIDTH,
    }
}

// How many operand bytes a command has, by ranges of the command; no width for a byte that is no command. Single commands stand inside a range of their own:
// so it is a few comparisons, and no table of jumps.
pub fn width(c: u8) -> usize
    ensures { result ≡ width_of c }
{
    match c {
        NULL..=YEARS_AND_MONTHS | DECIMAL => leaf_width(c),
        RANGE..=CONTEXT => 2,
        FUNCTION_DEFINITION..=IRRELEVANT => match c {
            FUNCTION_DEFINITION => 3,
            BUILT_IN_FUNCTION => 1,
            _ => 0,
        },
        ANY_TYPE..=FUNCTION_TYPE => match c {
            CONTEXT_TYPE => 2,
            FUNCTION_TYPE => 1,
            _ => 0,
        },
        _ => NO_WIDTH,
    }
}

// ---- leaves

// The size of a leaf of data by its command.
pub fn leaf_size(c: u8) -> Option<usize>
    ensures { result ≡ pick (is_leaf_command c) (Some (width_of c + 1)) None }
{
    let w = leaf_width(c);
    if w == NO_WIDTH { None } else { Some(w + 1) }
}

// The command of a leaf's type by its own command, 0 for every other command.
pub fn leaf_type(c: u8) -> u8
    ensures { result ≡ leaf_type_command c }
{
    match c {
        NULL => NULL_TYPE,
        BOOLEAN..=YEARS_AND_MONTHS => c + LEAF_TO_TYPE,
        DECIMAL => NUMBER_TYPE,
        _ => 0,
    }
}

// The largest that the last operand byte of a leaf of data may be.
pub(crate) fn operand_end(c: u8) -> u8
    ensures { result ≡ operand_end c }
{
    match c {
        NULL => 3,
        BOOLEAN => 1,
        DECIMAL => MOST_EXPONENT,
        _ => 255,
    }
}
