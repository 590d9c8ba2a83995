// The marks of a formula's text.
ghost use Rattle.std.specs.Prelude.{◌≡◌, ◌≤◌, length};
ghost use Rattle.std.specs.List.{position_or_len};
ghost use Rattle.formulas.specs.Spelling.{is_mark};

fn is_mark(byte: u8) -> bool
    ensures { result ≡ is_mark byte }
{
    matches!(byte, b'!' | b'(' | b')' | b'&')
}

// How many bytes stand before the first mark.
pub fn before_mark(text: &[u8]) -> usize
    ensures value { result ≡ position_or_len is_mark text.now }
    ensures within { result ≤ length text.now }
{
    text.iter()
        .position(|byte| is_mark(*byte))
        .unwrap_or(text.len())
}
