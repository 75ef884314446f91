// Texts one behind the other, each behind its length byte: the parts of a name here, and the table of the crate `display`.
ghost use Rattle.std.specs.Prelude.{◌≡◌, MatchOption};
ghost use Rattle.std.proofs.Math.Option.{none, some};
ghost use Rattle.names.specs.Reader.{split_text};

// The text at the front and what stands behind it, or None where it ends inside.
pub fn split_text(s: &[u8]) -> Option<(&[u8], &[u8])>
    ensures { MatchOption result (split_text s.now ≡ none) (λ r. split_text s.now ≡ some (r.0.now, r.1.now)) }
{
    let (n, rest) = s.split_first()?;
    rest.split_at_checked(usize::from(*n))
}
