// A text cut at a mark: what lines, fields and the parts of a fact have in common. The pieces are those of the library's
// `split`; where all parts of a fact are looked at, or the last one is cut off, the library is called there. A text and
// its mark come as two values, since lines, fields and parts have each a mark of their own.
ghost use Rattle.std.specs.Prelude.{◌≡◌, ◌<◌, ◌∷◌, length, IfSome, ◌==◌, nat_le};
ghost use Rattle.std.specs.Option.{option_map};
ghost use Rattle.std.specs.List.{slice_get};
ghost use Rattle.sheets.specs.Pieces.{pieces, following};

// The first piece of a text, and what follows its mark where there is one.
pub fn cut(text: &[u8], mark: u8) -> (&[u8], Option<&[u8]>)
    ensures parts { pieces mark text.now ≡ result.0.now ∷ following mark (option_map (λ x. x.now) result.1) }
    ensures shorter { IfSome result.1 (λ x. length x.now < length text.now) }
{
    let mut halves = text.splitn(2, |b| *b == mark);
    // There is always a first piece, so the text is never taken for want of one.
    let first = halves.next().unwrap_or(text);
    (first, halves.next())
}

// The piece at an index, counted from 0.
pub fn piece(text: &[u8], mark: u8, index: usize) -> Option<&[u8]>
    ensures { option_map (λ x. x.now) result ≡ slice_get (pieces mark text.now) index }
{
    text.split(|b| *b == mark).nth(index)
}

// How many pieces a text has.
pub fn count(text: &[u8], mark: u8) -> usize
    ensures { result ≡ length (pieces mark text.now) }
{
    text.split(|b| *b == mark).count()
}

// Whether a text has so many pieces at the most. Of those that are too many only the first is looked at.
pub fn has_at_most(text: &[u8], mark: u8, n: usize) -> bool
    ensures { result ≡ nat_le (length (pieces mark text.now)) n }
{
    piece(text, mark, n).is_none()
}

// Whether a text has just so many pieces. Of those that are too many only the first is looked at.
pub fn has_pieces(text: &[u8], mark: u8, n: usize) -> bool
    ensures { result ≡ (length (pieces mark text.now) == n) }
{
    n != 0 && text.split(|b| *b == mark).take(n.saturating_add(1)).count() == n
}
