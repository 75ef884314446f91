// What can be wrong with a line.
use std::fmt;

/// The first thing that is wrong with a line.
#[derive(Clone, Copy, Debug, PartialEq, Eq, Hash)]
pub enum Fault {
    /// Its word is no question's.
    UnknownQuestion,
    /// A byte of its arguments is no digit.
    NotADigit,
    /// A byte has one digit.
    HalfByte,
    /// Its arguments have too many bytes.
    TooLong,
    /// A name of another length.
    NotAName,
    /// A path of another length.
    NotAPath,
    /// What wants one byte has none or more.
    NotAByte,
    /// Another number of arguments than its question wants.
    Count {
        wanted: usize,
        found: usize,
        commas: bool,
    },
}

impl fmt::Display for Fault {
    fn fmt<W: fmt::Write>(&self, f: &mut fmt::Formatter<W>) -> fmt::Result {
        match *self {
            Fault::UnknownQuestion => f.write_str("unknown question"),
            Fault::NotADigit => f.write_str("not a hexadecimal digit"),
            Fault::HalfByte => f.write_str("half a byte"),
            Fault::TooLong => f.write_str("more bytes than three largest records have"),
            Fault::NotAName => f.write_str("a name has two bytes"),
            Fault::NotAPath => f.write_str("a path has two bytes a name"),
            Fault::NotAByte => f.write_str("one byte wanted"),
            Fault::Count {
                wanted,
                found,
                commas,
            } => {
                let arguments = if wanted == 1 { "argument" } else { "arguments" };
                let hint = if commas {
                    ""
                } else {
                    "; put commas between them"
                };
                write!(f, "wanted {wanted} {arguments}, found {found}{hint}")
            }
        }
    }
}
