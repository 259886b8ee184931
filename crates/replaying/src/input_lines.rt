ghost use Rattle.std.specs.Prelude.{◌≡◌, [], ◌∷◌, length, MatchOption};
ghost use Rattle.std.specs.Iterator.{at_most};
ghost use Rattle.replaying.specs.Replays.{lines_of};
ghost use Rattle.replaying.specs.Lines.{IsUnended};

// The line without the byte that ends it, if it is ended.
fn bare(line: &[u8]) -> &[u8]
    ensures { IsUnended line.now result.now }
{
    line.strip_suffix(b"\n").unwrap_or(line)
}

// The lines of an input that are left, one after another. It is a type of its own, since no invariant of a loop in a generic
// function can be said yet over an iterator that holds a closure.
#[derive(Drop)]
pub(crate) struct InputLines<'a>(pub(crate) &'a [u8]);

impl<'a> Iterator for InputLines<'a> {
    type Item = &'a [u8];

    ghost next_gives = { λ s r t. MatchOption r (lines_of s.0.now ≡ []) (λ line. lines_of s.0.now ≡ line.now ∷ lines_of t.0.now) };

    ghost remaining = { λ s. at_most (length s.0.now) };

    fn next(&mut self) -> Option<&'a [u8]> {
        let line = self.0.split_inclusive(|byte| *byte == b'\n').next()?;
        self.0 = &self.0[line.len()..];
        Some(bare(line))
    }
}
