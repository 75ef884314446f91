// The size of a reduced form, without building it.
ghost use Rattle.std.specs.Prelude.{◌+◌, ◌<◌, ◌/◌, length};
ghost use Rattle.form.specs.Form.{bytes};
ghost use Rattle.order.specs.Order.{fixed};
ghost use Rattle.order.specs.Types.{reduce, reduce_fields};
ghost use Rattle.order.specs.Size.{size, size_fields};
ghost use Rattle.types.specs.At.{type_at, fields_at, sig_at, size_sig, Ok};
ghost use Rattle.bounds.specs.Measured.{reduce_sig, Measured, Roomy};

use form::commands;
use form::limits::NAME_WIDTH;

// The size of a type or a run of types, and of its reduced form.
#[derive(Clone, Copy, Debug, PartialEq, Eq)]
struct Sizes {
    read: usize,
    short: usize,
}

// The sizes of the type at the front: its own, and that of its reduced form.
#[cycle(measure_measure_fields_measure_sig)]
fn measure(s: &[u8], left: usize) -> Sizes
    requires { Ok (type_at left s.now) }
    ensures { Measured (reduce fixed) size (type_at left s.now) result.read result.short }
{
    let c = s[0];
    if c < commands::LIST_TYPE {
        return Sizes { read: 1, short: 1 };
    }
    if c < commands::CONTEXT_TYPE {
        let m = measure(&s[1..], left - 1);
        return Sizes {
            read: m.read + 1,
            short: m.short + 1,
        };
    }
    if c == commands::CONTEXT_TYPE {
        let m = measure_fields(&s[3..], form::bytes::word_at(s, 1), left - 1);
        return Sizes {
            read: m.read + 3,
            short: m.short + 3,
        };
    }
    let n = s[1];
    if n == 0 {
        return Sizes {
            read: types::walk::skip(s, left),
            short: 3,
        };
    }
    let m = measure_sig(&s[2..], usize::from(n), left - 1);
    Sizes {
        read: m.read + 2,
        short: m.short + 2,
    }
}

// The sizes of n entries of a context type: their own, and that of their reduced forms.
#[cycle(measure_measure_fields_measure_sig)]
fn measure_fields(s: &[u8], n: usize, left: usize) -> Sizes
    requires { Ok (fields_at left n 0 s.now) }
    ensures { Measured (reduce_fields fixed) size_fields (fields_at left n 0 s.now) result.read result.short }
{
    let mut at: usize = 0;
    let mut to: usize = 0;
    for _ in 0..n {
        let p = at + NAME_WIDTH;
        let w = to + NAME_WIDTH;
        let m = measure(&s[p..], left);
        at = p + m.read;
        to = w + m.short;
    }
    Sizes {
        read: at,
        short: to,
    }
}

// The sizes of `count` parameters and a result: their own, and that of their reduced forms.
#[cycle(measure_measure_fields_measure_sig)]
fn measure_sig(s: &[u8], count: usize, left: usize) -> Sizes
    requires { Ok (sig_at left count s.now) }
    ensures { Measured reduce_sig size_sig (sig_at left count s.now) result.read result.short }
{
    let mut at: usize = 0;
    let mut to: usize = 0;
    for _ in 0..count {
        let m = measure(&s[at..], left);
        at += m.read;
        to += m.short;
    }
    let m = measure(&s[at..], left);
    Sizes {
        read: at + m.read,
        short: to + m.short,
    }
}

// Whether the reduced form has room. It is never longer than the type, so it is measured only where the type itself has none.
pub(crate) fn has_room(t: &[u8], room: usize, left: usize) -> bool
    requires { Ok (type_at left t.now) }
    ensures { Roomy (type_at left t.now) room result }
{
    if t.len() <= room {
        return true;
    }
    let m = measure(t, left);
    m.short <= room
}
