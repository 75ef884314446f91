// Past a value that was read. For the walks and builders of the crates above.
ghost use Rattle.std.specs.Prelude.{◌≡◌, ◌-◌, length};
ghost use Rattle.form.specs.Form.{level_v};
ghost use Rattle.form.specs.Read.{read_v};
ghost use Rattle.form.specs.Walks.{walk_of, Told};
ghost use Rattle.values.specs.At.{value_at, size_at_v};

// The size of the value at the front, 0 for a fault; its level, or the fault, is left in `told`. A leaf of data takes a short way.
pub fn pass(s: &[u8], left: usize, told: &mut usize) -> usize
    ensures { Told (walk_of level_v (read_v left s.now)) (length s.now) result told.new }
{
    if let Some(n) = form::walk::leaf_size_at(s, 0, left) {
        *told = 1;
        return n;
    }
    form::walk::walk_value(s, left, told)
}

// The size of the value at the front, 0 where there is none.
pub fn skip(s: &[u8], left: usize) -> usize
    ensures { result ≡ size_at_v (value_at left s.now) }
{
    let mut told: usize = 0;
    pass(s, left, &mut told)
}
