//! What tokens are to the brackets around words.

ghost use Rattle.std.specs.Prelude.{◌≡◌};
ghost use Rattle.sdc_words.specs.Words.{part_of, closes};

use xt_lex::Kind;

/// What a token is to the brackets around words.
#[derive(Clone, Copy, Debug, PartialEq, Eq)]
pub enum Part {
    Opens,
    Closes,
    Plain,
}

impl Part {
    /// What a token of this kind is with these bytes.
    pub fn of(kind: Kind, text: &[u8]) -> Part
        ensures { result ≡ part_of kind text.now }
    {
        match kind {
            Kind::Mark => {
                if text == b"[".as_slice() {
                    Part::Opens
                } else {
                    Part::Closes
                }
            }
            _ => Part::Plain,
        }
    }

    /// Whether it is a closing bracket.
    pub fn closes(self) -> bool
        ensures { result ≡ closes self }
    {
        match self {
            Part::Closes => true,
            _ => false,
        }
    }
}
