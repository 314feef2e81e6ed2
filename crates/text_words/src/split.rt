//! Cutting bytes at a mark.
ghost use Rattle.std.specs.Prelude.{◌≡◌, ◌+◌, ◌<◌, ◌==◌, [], ◌∷◌, length, position, MatchOption};
ghost use Rattle.text_words.specs.Split.{parts, Cut};

/// What stands before the first `mark`, and what follows it.
pub fn cut(bytes: &[u8], mark: u8) -> Option<(&[u8], &[u8])>
    ensures { MatchOption result (parts mark bytes.now ≡ bytes.now ∷ []) (λ p. Cut mark bytes.now p.0.now p.1.now) }
{
    let i = first_mark(bytes, mark)?;
    Some((&bytes[..i], &bytes[i + 1..]))
}

/// The index of the first `mark`.
fn first_mark(bytes: &[u8], mark: u8) -> Option<usize>
    ensures { result ≡ position (λ b. b == mark) bytes.now }
{
    bytes.iter().position(|b| *b == mark)
}
