//! The items in words and strings.

ghost use Rattle.std.specs.Prelude.{◌≡◌, [], ◌∷◌, MatchOption};
ghost use Rattle.liberty_tables.specs.Contents.{separates, items_from};

/// Whether a byte is between items: white space, and between numbers a comma too.
#[inline]
fn separates(commas: bool, byte: u8) -> bool
    ensures { result ≡ separates commas byte }
{
    ((byte == b' ' || (byte == b'\t' || byte == b'\r')) || byte == b'\n')
        || (commas && byte == b',')
}

/// The first item, and the bytes after it.
pub fn first_item(commas: bool, bytes: &[u8]) -> Option<(&[u8], &[u8])>
    ensures { MatchOption result (items_from commas [] bytes.now ≡ [])
        (λ p. items_from commas [] bytes.now ≡ p.0.now ∷ items_from commas [] p.1.now) }
{
    let mut start = bytes;
    let mut size = 0;
    let mut rest = bytes;
    'bytes: while let [byte, more @ ..] = rest {
        if !separates(commas, *byte) {
            size += 1;
        } else if 0 < size {
            return Some((&start[..size], more));
        } else {
            start = more;
        }
        rest = more;
    }
    if 0 < size {
        Some((&start[..size], rest))
    } else {
        None
    }
}
