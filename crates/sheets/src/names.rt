// The names of zones, matters and moves.
ghost use Rattle.std.specs.Prelude.{◌≡◌};
ghost use Rattle.sheets.specs.Bytes.{every};
ghost use Rattle.sheets.specs.Names.{name_byte, is_all, is_name};

// Whether a text has only bytes that a name may have.
fn has_name_bytes(text: &[u8]) -> bool
    ensures { result ≡ every name_byte text.now }
{
    text.iter().all(|b| matches!(b, b'a'..=b'z' | b'0'..=b'9'))
}

// Whether a text is the word for every zone at once.
pub fn is_all(text: &[u8]) -> bool
    ensures { result ≡ is_all text.now }
{
    text == b"all".as_slice()
}

// Whether a text has the form of a name; it may be listed or not.
pub fn is_name(text: &[u8]) -> bool
    ensures { result ≡ is_name text.now }
{
    (1..=8).contains(&text.len()) && has_name_bytes(text) && !is_all(text)
}
