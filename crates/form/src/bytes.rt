// Numbers as they stand in the bytes: counts and names. For the walks and builders of the crates above.
ghost use Rattle.std.specs.Prelude.{◌≡◌, ◌+◌, ◌<◌, ◌≤◌, length};
ghost use Rattle.form.specs.Limits.{name_width, name_end};
ghost use Rattle.form.specs.Form.{num_at};

// The 16-bit number that stands at `at`: a count or a body number.
pub fn word_at(s: &[u8], at: usize) -> usize
    requires { at + 2 ≤ length s.now }
    ensures { (result ≡ num_at 2 at s.now) × (result < 65536) }
{
    usize::from(u16::from_le_bytes([s[at], s[at + 1]]))
}

// The name that stands at `at`.
pub fn name_at(s: &[u8], at: usize) -> usize
    requires { at + name_width ≤ length s.now }
    ensures { (result ≡ num_at name_width at s.now) × (result < name_end) }
{
    word_at(s, at)
}
