// Past a type that was read, and the next name of a context type. For the walks and builders of the crates above.
ghost use Rattle.std.specs.Prelude.{◌≡◌, cond, ◌+◌, ◌<◌, ◌≤◌, length, ltb};
ghost use Rattle.form.specs.Limits.{name_width, name_end};
ghost use Rattle.form.specs.Form.{num_at};
ghost use Rattle.types.specs.At.{type_at, size_at};

use form::limits::NAME_END;

// The size of the type at the front, 0 where there is none.
pub fn skip(s: &[u8], left: usize) -> usize
    ensures { result ≡ size_at (type_at left s.now) }
{
    if let Some(n) = form::walk::simple_at(s, 0, left) {
        return n;
    }
    let mut told = 0;
    form::walk::walk_type(s, left, &mut told)
}

// The name of entry i of n, which stands at `at`; NAME_END behind the last.
pub fn next_name(s: &[u8], at: usize, i: usize, n: usize) -> usize
    requires { i < n → at + name_width ≤ length s.now }
    ensures value { result ≡ cond (ltb i n) (num_at name_width at s.now) name_end }
    ensures upper_bound { (result ≤ name_end) × (i < n → result < name_end) }
{
    if i < n {
        return form::bytes::name_at(s, at);
    }
    NAME_END
}
