// A line of the input: its question and the bytes of its arguments, read as they come.
ghost use Rattle.std.specs.Prelude.{◌≡◌, ◌≤◌, false, length};

use crate::bytes::{Bytes, digit_value};
use crate::fault::Fault;
use crate::words::Question;

// The most bytes that the arguments of a line have together: three of the longest records, and some more.
const MOST: usize = 49216;

// The most letters of a word that are kept: more than any question's.
const LETTERS: usize = 32;

/// What stands in front of a byte of the arguments.
#[derive(Clone, Copy, Debug, PartialEq, Eq, Hash)]
pub enum State {
    /// A blank or a comma.
    Blank,
    /// A whole byte.
    Byte,
    /// The high digit of a byte.
    Half(u8),
    /// A point, which stands for no bytes where it is a word by itself.
    Point,
}

/// Where in a line the next byte stands.
#[derive(Clone, Copy, Debug, PartialEq, Eq, Hash)]
pub enum Part {
    /// In the word of its question, or in front of it.
    Word,
    /// In its arguments.
    Arguments(State),
    /// In a comment.
    Comment,
    /// Behind what is wrong.
    Wrong(Fault),
}

/// What was read of a line so far.
#[derive(Clone, Copy)]
pub struct Line {
    pub part: Part,
    pub question: Option<Question>,
    pub word: Bytes<LETTERS>,
    /// The bytes of the arguments, one behind the other.
    pub bytes: Bytes<MOST>,
    // Where the first two arguments end: at commas, or where there is no comma behind words.
    ends: [usize; 2],
    // How many have ended.
    ended: usize,
    commas: bool,
}

/// A question with its arguments, empty where fewer are wanted.
#[derive(Clone, Copy, Debug)]
pub struct Asked<'a> {
    pub question: Question,
    pub first: &'a [u8],
    pub second: &'a [u8],
    pub third: &'a [u8],
}

// What stands between words and is free between bytes.
fn is_blank(b: u8) -> bool {
    matches!(b, b' ' | b'\t' | b'\r')
}

// What stands between words: blanks, a comma, or what begins a comment.
fn is_between(b: u8) -> bool {
    is_blank(b) || matches!(b, b',' | b'#')
}

impl Line {
    ghost use Rattle.lines.specs.Line.{HasNoWord};

    /// Nothing is read yet.
    pub fn new() -> Self
        ensures no_word { HasNoWord result }
        ensures no_bytes { result.bytes.len ≡ 0 }
    {
        Line {
            part: Part::Word,
            question: None,
            word: Bytes::new(),
            bytes: Bytes::new(),
            ends: [0; 2],
            ended: 0,
            commas: false,
        }
    }

    /// The next line begins.
    pub fn clear(&mut self)
        ensures no_word { HasNoWord self.new }
        ensures no_bytes { self.new.bytes.len ≡ 0 }
    {
        self.part = Part::Word;
        self.question = None;
        self.word.clear();
        self.bytes.clear();
        self.ends = [0; 2];
        self.ended = 0;
        self.commas = false;
    }

    /// Reads what comes next of the line, without its line end: a run of whole bytes, or one byte of another kind.
    pub fn read(&mut self, text: &[u8]) {
        let mut rest = text;
        // Each turn takes a byte or more.
        for _ in 0..text.len() {
            let [b, behind @ ..] = rest else {
                return;
            };
            match self.part {
                Part::Comment | Part::Wrong(_) => return,
                // In front of its word.
                Part::Word if self.word.is_empty() && is_blank(*b) => {}
                _ if is_between(*b) => {
                    self.end_word();
                    self.read_between(*b);
                }
                // A word that has more letters than there is room for is cut, and is no question's.
                Part::Word => {
                    self.word.push(*b);
                }
                Part::Arguments(state) => {
                    let digits = self.read_bytes(state, rest);
                    if digits > 0 {
                        self.part = Part::Arguments(State::Byte);
                        rest = &rest[digits..];
                        continue;
                    }
                    self.part = match self.read_digit(state, *b) {
                        Ok(state) => Part::Arguments(state),
                        Err(fault) => Part::Wrong(fault),
                    };
                }
            }
            rest = behind;
        }
    }

    // Whole bytes, as far as there are any and they have room; answers how many digits they have.
    fn read_bytes(&mut self, state: State, text: &[u8]) -> usize
        ensures { result ≤ length text.now }
    {
        match state {
            State::Blank | State::Byte => self.bytes.push_decoded(text),
            State::Half(_) | State::Point => 0,
        }
    }

    // One digit: the high one of a byte, or the low one.
    fn read_digit(&mut self, state: State, b: u8) -> Result<State, Fault> {
        if b == b'.' && state == State::Blank {
            return Ok(State::Point);
        }
        let digit = digit_value(b).ok_or(Fault::NotADigit)?;
        match state {
            State::Point => Err(Fault::NotADigit),
            State::Half(high) => if self.bytes.push((high << 4) | digit) {
                Ok(State::Byte)
            } else {
                Err(Fault::TooLong)
            },
            State::Blank | State::Byte => {
                if self.bytes.is_full() {
                    Err(Fault::TooLong)
                } else {
                    Ok(State::Half(digit))
                }
            }
        }
    }

    /// A word ends here, where there is one.
    pub fn end_word(&mut self)
        ensures { HasNoWord self.old → HasNoWord self.new }
    {
        match self.part {
            Part::Word if !self.word.is_empty() => {
                self.question = Question::from_word(self.word.as_slice());
                self.part = match self.question {
                    Some(_) => Part::Arguments(State::Blank),
                    None => Part::Wrong(Fault::UnknownQuestion),
                };
            }
            Part::Arguments(State::Half(_)) => self.part = Part::Wrong(Fault::HalfByte),
            Part::Arguments(State::Byte | State::Point) => {
                self.part = Part::Arguments(State::Blank);
                if !self.commas {
                    self.end_argument();
                }
            }
            _ => {}
        }
    }

    // An argument ends here.
    fn end_argument(&mut self) {
        if self.ended < 2 {
            self.ends[self.ended] = self.bytes.len;
        }
        self.ended = self.ended.saturating_add(1);
    }

    // What stands between words. From the first comma on commas end arguments, and words do not.
    fn read_between(&mut self, b: u8) {
        match (self.part, b) {
            (Part::Word, b',') => self.part = Part::Wrong(Fault::UnknownQuestion),
            (Part::Arguments(_), b',') => {
                if !self.commas {
                    self.commas = true;
                    self.ended = 0;
                }
                self.end_argument();
            }
            (Part::Word | Part::Arguments(_), b'#') => self.part = Part::Comment,
            _ => {}
        }
    }

    // How many arguments were found.
    fn found(&self) -> usize
        ensures at_least { self.now.ended ≤ result }
        ensures by_words { self.now.commas ≡ false → result ≡ self.now.ended }
    {
        if self.commas {
            self.ended.saturating_add(1)
        } else {
            self.ended
        }
    }

    /// What a line asks whose last word has ended, if it asks anything.
    pub fn asked(&self) -> Result<Option<Asked<'_>>, Fault>
        ensures { HasNoWord self.now → result ≡ Ok None }
    {
        if let Part::Wrong(fault) = self.part {
            return Err(fault);
        }
        let Some(question) = self.question else {
            return Ok(None);
        };
        let wanted = question.wanted();
        let found = self.found();
        // Where one argument is wanted and no comma stands, all words are one.
        let words_are_one = wanted == 1 && !self.commas;
        if found != wanted && !words_are_one {
            return Err(Fault::Count {
                wanted,
                found,
                commas: self.commas,
            });
        }
        let bytes = self.bytes.as_slice();
        let end = bytes.len();
        let second_end = if wanted < 3 {
            end
        } else {
            self.ends[1].min(end)
        };
        let first_end = if wanted < 2 {
            second_end
        } else {
            self.ends[0].min(second_end)
        };
        Ok(Some(Asked {
            question,
            first: &bytes[..first_end],
            second: &bytes[first_end..second_end],
            third: &bytes[second_end..],
        }))
    }
}
