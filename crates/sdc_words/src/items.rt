//! The names between braces.

ghost use Rattle.std.specs.Prelude.{◌≡◌, ◌∷◌, [], MatchOption};
ghost use Rattle.xt_lex.specs.Bytes.{begins, is_white};
ghost use Rattle.sdc_words.specs.Items.{separates, items_from};

/// Whether a byte is white space.
fn is_white(byte: u8) -> bool
    ensures { result ≡ is_white byte }
{
    byte == b' ' || (byte == b'\t' || byte == b'\r') || byte == b'\n'
}

/// Whether a newline comes first.
fn begins_line(bytes: &[u8]) -> bool
    ensures { result ≡ begins 10 bytes.now }
{
    match bytes {
        [byte, ..] => *byte == b'\n',
        [] => false,
    }
}

/// Whether a byte is white space, or a backslash that joins two lines, where these bytes come after it.
#[tactic(auto, unfolding(crate::specs::Items::separates))]
fn separates(byte: u8, more: &[u8]) -> bool
    ensures { result ≡ separates byte more.now }
{
    is_white(byte) || byte == b'\\' && begins_line(more)
}

/// The first item of some bytes, which white space separates, and the bytes after it.
pub fn first_item(bytes: &[u8]) -> Option<(&[u8], &[u8])>
    ensures { MatchOption result (items_from [] bytes.now ≡ [])
        (λ p. items_from [] bytes.now ≡ p.0.now ∷ items_from [] p.1.now) }
{
    let mut start = bytes;
    let mut size = 0;
    let mut rest = bytes;
    'bytes: while let [byte, more @ ..] = rest {
        if !separates(*byte, more) {
            size += 1;
        } else if 0 < size {
            return Some((&start[..size], more));
        } else {
            start = more;
        }
        rest = more;
    }
    if 0 < size {
        Some((&start[..size], rest))
    } else {
        None
    }
}
