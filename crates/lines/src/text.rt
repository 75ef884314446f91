// The words of answers, and bytes in hexadecimal.
ghost use Rattle.std.specs.Prelude.{◌≤◌, length};

use crate::fault::Fault;
use form::Refusal;
use std::fmt;

/// What is answered to a question.
#[derive(Clone, Copy, Debug, PartialEq, Eq, Hash)]
pub enum Answer {
    Yes,
    No,
    Number(usize),
    /// So many bytes, which stand at the front of the output.
    Bytes(usize),
    /// Nothing stands there.
    None,
    /// No type has this name.
    Unknown,
}

/// Why a question has no answer.
#[derive(Clone, Copy, Debug, PartialEq, Eq, Hash)]
pub enum Unanswered {
    /// The call refused.
    Refused(Refusal),
    /// Two calls that answer the same question did not agree.
    Apart,
    /// The line cannot be read.
    NotRead(Fault),
}

impl From<bool> for Answer {
    fn from(yes: bool) -> Answer {
        if yes { Answer::Yes } else { Answer::No }
    }
}

impl From<Refusal> for Unanswered {
    fn from(refusal: Refusal) -> Unanswered {
        Unanswered::Refused(refusal)
    }
}

impl From<Fault> for Unanswered {
    fn from(fault: Fault) -> Unanswered {
        Unanswered::NotRead(fault)
    }
}

/// The words of an answer; none where it is bytes, which stand in the output.
impl fmt::Display for Answer {
    fn fmt<W: fmt::Write>(&self, f: &mut fmt::Formatter<W>) -> fmt::Result {
        match *self {
            Answer::Yes => f.write_str("yes"),
            Answer::No => f.write_str("no"),
            Answer::Number(n) => write!(f, "{n}"),
            Answer::Bytes(_) => Ok(()),
            Answer::None => f.write_str("none"),
            Answer::Unknown => f.write_str("unknown"),
        }
    }
}

impl fmt::Display for Unanswered {
    fn fmt<W: fmt::Write>(&self, f: &mut fmt::Formatter<W>) -> fmt::Result {
        match *self {
            Unanswered::Refused(refusal) => {
                let number = u8::from(refusal);
                let words = words_of(refusal);
                write!(f, "refused {number}: {words}")
            }
            // No refusal has this number.
            Unanswered::Apart => f.write_str("refused 255: no such refusal"),
            Unanswered::NotRead(fault) => write!(f, "{fault}"),
        }
    }
}

// What a refusal says.
fn words_of(refusal: Refusal) -> &'static str {
    match refusal {
        Refusal::ValueLength => "value: no bytes, or more than 16,384",
        Refusal::ValueShape =>
            "value: ends inside, unknown command, or an operand outside its list",
        Refusal::ValueNames => "value: names not strictly ascending",
        Refusal::ValueLevel => "value: level over 31",
        Refusal::ValueLeftOver => "value: bytes left over",
        Refusal::TypeLength => "type: no bytes, or more than 16,384",
        Refusal::TypeShape => "type: ends inside, or unknown command",
        Refusal::TypeNames => "type: names not strictly ascending",
        Refusal::TypeLevel => "type: level over 32",
        Refusal::TypeLeftOver => "type: bytes left over",
        Refusal::PathLength => "path: more than 31 names",
        Refusal::NotContext => "a context is wanted, and the value is none",
        Refusal::NotData =>
            "least type asked of a value that holds a function, a built-in, a type or an irrelevant mark",
        Refusal::Scratch => "scratch too short",
        Refusal::NotRetrieved => "the value cannot be retrieved with the type",
        Refusal::NotApplied => "a value on the way of the path is no context",
        Refusal::ResultSize => "the result would have more than 16,384 bytes or a level over 31",
        Refusal::Output => "output too short for the answer",
        Refusal::Texts => "texts: table or parts malformed, or with bytes left over",
        Refusal::NoSuchName => "texts: a name's number is not in the table",
        Refusal::Table => "table: not a hundred bytes 0 or 1",
        Refusal::NotOrdered => "table: no order of the simple types from Null up to Any",
        Refusal::NoJoin => "table: two types lack a least common supertype",
    }
}

// The sixteen digits. `{:02X}` for each byte costs thirty times as much as a look-up.
const DIGITS: [u8; 16] = *b"0123456789ABCDEF";

/// Writes bytes in hexadecimal over the front of the output, as many as have room; answers how many digits.
pub fn encode(bytes: &[u8], out: &mut [u8]) -> usize
    ensures { result ≤ length out.old }
{
    let n = (out.len() / 2).min(bytes.len());
    for (byte, pair) in bytes.iter().zip(out.chunks_exact_mut(2)) {
        pair[0] = DIGITS[usize::from(byte / 16)];
        pair[1] = DIGITS[usize::from(byte % 16)];
    }
    n + n
}
