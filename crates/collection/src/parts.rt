ghost use Rattle.std.specs.Prelude.{MatchOption, length};
ghost use Rattle.std.specs.Iterator.{at_most};
ghost use Rattle.collection.specs.Parts.{Begins, NoPart};

/// The first part of a collection, which stands behind its length in 4 bytes, the high one first, and what follows it. None
/// where no whole part stands.
pub fn next_part(bytes: &[u8]) -> Option<(&[u8], &[u8])>
    ensures { MatchOption result (NoPart bytes.now) (λ parts. Begins bytes.now parts.0.now parts.1.now) }
{
    let [a, b, c, d, rest @ ..] = bytes else {
        return None;
    };
    let size = u32::from_be_bytes([*a, *b, *c, *d]) as usize;
    rest.split_at_checked(size)
}

/// The parts of a collection, one behind another. They end where no whole part stands.
#[derive(Drop)]
pub struct Parts<'a>(pub &'a [u8]);

impl<'a> Iterator for Parts<'a> {
    type Item = &'a [u8];

    ghost next_gives = { λ s r t. MatchOption r (NoPart s.0.now) (λ part. Begins s.0.now part.now t.0.now) };

    ghost remaining = { λ s. at_most (length s.0.now) };

    fn next(&mut self) -> Option<&'a [u8]> {
        let (part, behind) = next_part(self.0)?;
        self.0 = behind;
        Some(part)
    }
}
