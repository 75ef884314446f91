// Bytes in a room of their own. `ArrayVec` is not `Copy`, which a line is.
ghost use Rattle.std.specs.Prelude.{◌≡◌, ◌/◌, ◌≤◌, ◌==◌, take, length};

/// At most `N` bytes, at the front of their room.
#[derive(Clone, Copy)]
pub struct Bytes<const N: usize> {
    pub room: [u8; N],
    pub len: usize,
    ghost within: { len ≤ N },
}

impl<const N: usize> Bytes<N> {
    // None yet.
    pub(crate) fn new() -> Self
        ensures { result.len ≡ 0 }
    {
        Bytes {
            room: [0; N],
            len: 0,
        }
    }

    // None any more.
    pub(crate) fn clear(&mut self)
        ensures { self.new.len ≡ 0 }
    {
        self.len = 0;
    }

    pub(crate) fn is_empty(&self) -> bool
        ensures { result ≡ (self.now.len == 0) }
    {
        self.len == 0
    }

    pub(crate) fn is_full(&self) -> bool {
        self.len == N
    }

    /// Those that stand there.
    pub fn as_slice(&self) -> &[u8]
        ensures { result.now ≡ take self.now.len self.now.room }
    {
        &self.room[..self.len]
    }

    // One more, where it has room; answers whether it has.
    pub(crate) fn push(&mut self, byte: u8) -> bool {
        if self.len == N {
            return false;
        }
        self.room[self.len] = byte;
        self.len += 1;
        true
    }

    // The bytes that a text in hexadecimal begins with, as far as there are any and they have room; answers how many digits they have.
    pub(crate) fn push_decoded(&mut self, text: &[u8]) -> usize
        ensures { result ≤ length text.now }
    {
        let room = &mut self.room[..];
        let digits = decode(text, &mut room[self.len..]);
        self.len += digits / 2;
        digits
    }
}

// ---- hexadecimal

// What stands for no digit.
const N: u8 = 255;

// The values of the digits by their bytes. std's `to_digit` tells them by branches, which digits of no order mislead.
static VALUES: [u8; 256] = [
    N, N, N, N, N, N, N, N, N, N, N, N, N, N, N, N, N, N, N, N, N, N, N, N, N, N, N, N, N, N, N, N,
    N, N, N, N, N, N, N, N, N, N, N, N, N, N, N, N, 0, 1, 2, 3, 4, 5, 6, 7, 8, 9, N, N, N, N, N, N,
    N, 10, 11, 12, 13, 14, 15, N, N, N, N, N, N, N, N, N, N, N, N, N, N, N, N, N, N, N, N, N, N, N,
    N, N, N, 10, 11, 12, 13, 14, 15, N, N, N, N, N, N, N, N, N, N, N, N, N, N, N, N, N, N, N, N, N,
    N, N, N, N, N, N, N, N, N, N, N, N, N, N, N, N, N, N, N, N, N, N, N, N, N, N, N, N, N, N, N, N,
    N, N, N, N, N, N, N, N, N, N, N, N, N, N, N, N, N, N, N, N, N, N, N, N, N, N, N, N, N, N, N, N,
    N, N, N, N, N, N, N, N, N, N, N, N, N, N, N, N, N, N, N, N, N, N, N, N, N, N, N, N, N, N, N, N,
    N, N, N, N, N, N, N, N, N, N, N, N, N, N, N, N, N, N, N, N, N, N, N, N, N, N, N, N, N, N, N, N,
    N, N, N, N,
];

// The value of a digit.
pub(crate) fn digit_value(b: u8) -> Option<u8> {
    let value = VALUES[usize::from(b)];
    if value == N { None } else { Some(value) }
}

// The byte with these digits.
fn byte_of(high: u8, low: u8) -> Option<u8> {
    let high = VALUES[usize::from(high)];
    let low = VALUES[usize::from(low)];
    if (high | low) == N {
        return None;
    }
    Some((high << 4) | low)
}

// Decodes the bytes that a text begins with over the front of the output, as far as there are any and they have room; answers how many digits they have.
fn decode(text: &[u8], out: &mut [u8]) -> usize
    ensures { (result ≤ length text.now) × (result / 2 ≤ length out.old) }
{
    let most = (text.len() / 2).min(out.len());
    for (i, (pair, place)) in text.chunks_exact(2).zip(out).enumerate() {
        let Some(byte) = byte_of(pair[0], pair[1]) else {
            return 2 * i;
        };
        *place = byte;
    }
    2 * most
}
