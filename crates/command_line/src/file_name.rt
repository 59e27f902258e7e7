use std::marker::Model;

/// The name of a file, as the command line gives it. Contracts see its bytes.
#[derive(Debug, Drop)]
pub struct FileName {
    text: String,
}

impl Model for FileName {
    ghost use Rattle.std.specs.Prelude.{ℕ, List, string_bytes};

    ghost Value = { List ℕ };

    ghost view = { λ f. string_bytes f.text };
}

impl FileName {
    ghost use Rattle.std.specs.Prelude.{◌≡◌, string_bytes};

    /// The name that is written so. Takes no memory.
    pub fn new(text: String) -> FileName
        ensures { result ≡ string_bytes text }
    {
        FileName { text }
    }

    /// The name as text.
    pub fn as_str(&self) -> &str
        ensures { result.now ≡ self.now }
    {
        self.text.as_str()
    }
}
