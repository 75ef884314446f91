// Bytes written into a lent output: copies, names, as much as has room; and the answer of a call that hands bytes on. No calls: all of it serves the crates above.
#![tactic(auto)]

ghost use Rattle.std.specs.Prelude.{◌≡◌, ◌+◌, ◌<◌, ◌≤◌, ◌/◌, ◌%◌, ◌^◌, min, length};
ghost use Rattle.form.specs.Limits.{name_width, name_end};
ghost use Rattle.form.specs.Form.{bytes, num_at};
ghost use Rattle.form.specs.Answers.{onto, Built};
ghost use Rattle.output.specs.Output.{over};
ghost use Rattle.form.specs.Outcome.{fits};
ghost use Rattle.output.specs.Output.{fill, puts};

use form::Refusal;
use form::limits::NAME_WIDTH;

// ---- numbers and copies

// The low byte of a number.
pub fn low(n: usize) -> u8
    ensures { result ≡ n % 256 }
{
    (n % 256) as u8
}

// The high byte of a number below 65,536.
pub fn high(n: usize) -> u8
    requires { n < 65536 }
    ensures { result ≡ n / 256 }
{
    (n / 256) as u8
}

// `src` over the front of the output.
pub fn copy(src: &[u8], out: &mut [u8])
    requires { length src.now ≤ length out.old }
    ensures { out.new ≡ onto src.now out.old }
{
    out[..src.len()].copy_from_slice(src);
}

// The name that stands at `at`, written at `to`.
pub fn copy_name(s: &[u8], at: usize, out: &mut [u8], to: usize)
    requires name_width_in_bounds { at + name_width ≤ length s.now }
    requires name_width_in_bounds_2 { to + name_width ≤ length out.old }
    ensures { out.new ≡ over to (bytes name_width (num_at name_width at s.now)) out.old }
{
    let p = at + NAME_WIDTH;
    copy(&s[at..p], &mut out[to..]);
}

// ---- as much as has room

// As much of `src` as has room, over the front of the output.
pub fn fill(src: &[u8], out: &mut [u8])
    ensures { out.new ≡ fill src.now out.old }
{
    let n = src.len().min(out.len());
    copy(&src[..n], out);
}

// `src` over the output from `at` on, as much as has room; answers where it ends.
pub fn put(src: &[u8], out: &mut [u8], at: usize) -> usize
    requires { at + length src.now < 2 ^ 64 }
    ensures value { result ≡ at + length src.now }
    ensures out_after { out.new ≡ puts at src.now out.old }
{
    let p = at.min(out.len());
    fill(src, &mut out[p..]);
    at + src.len()
}

// The name over the output from `at` on, as much as has room; answers where it ends.
pub fn put_name(name: usize, out: &mut [u8], at: usize) -> usize
    requires name_lt_name_end { name < name_end }
    requires name_width_bound { at + name_width < 2 ^ 64 }
    ensures value { result ≡ at + name_width }
    ensures out_after { out.new ≡ puts at (bytes name_width name) out.old }
{
    let n = [low(name), high(name)];
    put(&n, out, at)
}

// ---- an answer handed on

// `src` at the front of the output, where it has room. Refusal 18.
pub fn give(src: &[u8], out: &mut [u8]) -> Result<usize, Refusal>
    ensures { Built (fits (length out.old) src.now) out.old out.new result }
{
    let n = src.len();
    if out.len() < n {
        return Err(Refusal::Output);
    }
    copy(src, out);
    Ok(n)
}
