// What is written, gathered in a buffer.
use arrayvec::ArrayVec;
use lines::text;
use lines::text::Answer;
use std::io::{Result, Write};

// How many bytes the buffer holds.
const ROOM: usize = 65536;

// The bytes that are written in hexadecimal at a time, and their digits.
const PIECE: usize = 512;

const DIGITS: usize = 1024;

/// Standard output behind a buffer.
#[derive(Drop)]
pub(crate) struct Out {
    rt: HostRuntime,
    buf: ArrayVec<u8, ROOM>,
}

impl Out {
    pub(crate) fn new(rt: HostRuntime) -> Self {
        Out {
            rt,
            buf: ArrayVec::new(),
        }
    }

    /// Writes an answer's line: bytes that were built, or words.
    pub(crate) fn write_answer(&mut self, answer: Answer, built: &[u8]) -> Result<()> {
        if let Answer::Bytes(n) = answer {
            self.write_hex(built.get(..n).unwrap_or_default())?;
        }
        writeln!(self, "{answer}")
    }

    // Writes bytes in hexadecimal; no bytes are a point.
    fn write_hex(&mut self, bytes: &[u8]) -> Result<()> {
        if bytes.is_empty() {
            return self.write_all(b".");
        }
        for piece in bytes.chunks(PIECE) {
            let mut digits = [0; DIGITS];
            let n = text::encode(piece, &mut digits);
            self.write_all(&digits[..n])?;
        }
        Ok(())
    }
}

impl Write for Out {
    fn write(&mut self, bytes: &[u8]) -> Result<usize> {
        self.write_all(bytes)?;
        Ok(bytes.len())
    }

    fn flush(&mut self) -> Result<()> {
        self.rt.write_all(&self.buf)?;
        self.buf.clear();
        Ok(())
    }

    fn write_all(&mut self, bytes: &[u8]) -> Result<()> {
        if self.buf.try_extend_from_slice(bytes).is_ok() {
            return Ok(());
        }
        self.flush()?;
        if self.buf.try_extend_from_slice(bytes).is_ok() {
            return Ok(());
        }
        // The buffer is too short for them.
        self.rt.write_all(bytes)
    }
}
