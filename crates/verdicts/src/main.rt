// Answers questions: each line of the input asks one of the calls with its arguments in hexadecimal, and gets one line of answer.
// `verdicts --help` tells how to ask.
#![tactic(auto)]

mod help;
mod say;
mod tally;

use lines::line::Line;
use lines::text::Unanswered;
use memchr::memchr;
use questions::ask;
use say::Out;
use std::env::{Env, FillError};
use std::fs::File;
use std::io::{Read, Result, Write};
use std::str;
use tally::{Tally, count};

// Room for the longest answer: the text of a type has fewer than 100 bytes for each byte of the type.
const BUILT: usize = 1638400;

// Room for a scratch, and for what is read at a time.
const LARGE: usize = 65536;

// The longest name of a file that is kept.
const PATH: usize = 4096;

// The line that is being read and its number, what was counted, and where answers are built and written.
#[derive(Drop)]
struct Session {
    rt: HostRuntime,
    line: Line,
    number: u64,
    tally: Tally,
    scratch: [u8; LARGE],
    built: [u8; BUILT],
    out: Out,
}

impl Session {
    // ---- a line

    // The line is whole: answers it, where it asks anything, and begins the next.
    fn end_line(&mut self, name: &[u8]) -> Result<()> {
        match ask::ask_line(&mut self.line, &mut self.scratch, &mut self.built) {
            Ok(None) => {}
            Ok(Some(answer)) => {
                count(&mut self.tally.answered);
                self.out.write_answer(answer, &self.built)?;
            }
            Err(unanswered) => self.write_unanswered(unanswered, name)?,
        }
        self.line.clear();
        count(&mut self.number);
        Ok(())
    }

    // What stands in an answer's place. Of a line that cannot be read also the file's name, where it has one, and the line's number.
    fn write_unanswered(&mut self, unanswered: Unanswered, name: &[u8]) -> Result<()> {
        let Unanswered::NotRead(fault) = unanswered else {
            count(&mut self.tally.refused);
            return writeln!(self.out, "{unanswered}");
        };
        count(&mut self.tally.unread);
        if !name.is_empty() {
            self.out.write_all(name)?;
            self.out.write_all(b": ")?;
        }
        let number = self.number;
        writeln!(self.out, "line {number}: {fault}")
    }

    // ---- a file

    // The lines that stand in a part of a file; the last one may go on behind it.
    fn read_part(&mut self, text: &[u8], name: &[u8]) -> Result<()> {
        let mut rest = text;
        // Each turn takes a line end.
        for _ in 0..text.len() {
            let Some(end) = memchr(b'\n', rest) else {
                break;
            };
            self.line.read(&rest[..end]);
            self.end_line(name)?;
            let [_, behind @ ..] = &rest[end..] else {
                break;
            };
            rest = behind;
        }
        self.line.read(rest);
        Ok(())
    }

    // Reads a file to its end, where its last line is whole, also without a line end.
    fn read_file<R: Read>(&mut self, file: &mut R, name: &[u8]) -> Result<()> {
        let mut part = [0; LARGE];
        self.line.clear();
        self.number = 1;
        // More often than any file is read: a loop has to end.
        for _ in 0..u64::MAX {
            match file.read(&mut part) {
                Ok(0) => return self.end_line(name),
                Ok(n) => self.read_part(&part[..n], name)?,
                Err(_) => {
                    // The line that was begun is not answered.
                    count(&mut self.tally.broken);
                    return self.write_of_file(name, b"standard input", "cannot be read");
                }
            }
        }
        Ok(())
    }

    // A line on a whole file, which is called `other` where it has no name.
    fn write_of_file(&mut self, name: &[u8], other: &[u8], what: &str) -> Result<()> {
        self.out
            .write_all(if name.is_empty() { other } else { name })?;
        writeln!(self.out, ": {what}")
    }

    // ---- the files

    // Reads the file with this name; `-` is standard input. A name that is not UTF-8 opens nothing.
    fn read_named(&mut self, name: &[u8]) -> Result<()> {
        if name == b"-".as_slice() {
            let mut stdin = self.rt.stdin();
            return self.read_file(&mut stdin, name);
        }
        match open(self.rt, name) {
            Some(mut file) => self.read_file(&mut file, name),
            None => {
                count(&mut self.tally.unopened);
                self.write_of_file(name, b"an argument", "cannot be opened")
            }
        }
    }

    // Reads all there is to read: the files that the arguments name, or standard input where there is none.
    // A name that is too long to be kept opens nothing, and is not repeated.
    fn read_files(&mut self) -> Result<()> {
        let mut path = [0; PATH];
        for i in 1..usize::MAX {
            match self.rt.arg(i, &mut path) {
                Ok(n) => self.read_named(&path[..n])?,
                Err(FillError::TooLong) => self.read_named(b"")?,
                Err(FillError::NotPresent) if i == 1 => {
                    let mut stdin = self.rt.stdin();
                    return self.read_file(&mut stdin, b"");
                }
                Err(FillError::NotPresent) => return Ok(()),
            }
        }
        Ok(())
    }

    // Answers all there is to read, and tells what was counted.
    fn run(&mut self) -> Result<()> {
        self.read_files()?;
        let tally = self.tally;
        writeln!(self.out, "{tally}")?;
        self.out.flush()
    }
}

fn open(rt: HostRuntime, name: &[u8]) -> Option<File> {
    File::open(&rt, str::from_utf8(name).ok()?).ok()
}

// Whether the first argument asks for help.
fn wants_help(rt: HostRuntime) -> bool {
    let mut first = [0; 8];
    match rt.arg(1, &mut first) {
        Ok(n) => matches!(&first[..n], b"--help" | b"-h"),
        Err(_) => false,
    }
}

fn main(rt: HostRuntime) -> Result<()> {
    if wants_help(rt) {
        return help::print(rt);
    }
    let mut session = Session {
        rt,
        line: Line::new(),
        number: 1,
        tally: Tally::default(),
        scratch: [0; LARGE],
        built: [0; BUILT],
        out: Out::new(rt),
    };
    // Where it cannot write, it stops.
    if let Err(error) = session.run() {
        let _ = eprintln!(rt; "standard output: {error}");
    }
    Ok(())
}
