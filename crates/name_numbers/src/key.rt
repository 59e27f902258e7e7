ghost use Rattle.std.specs.Prelude.{◌≡◌};
ghost use Rattle.name_numbers.specs.Keys.{first_state, joined_state, key_state};

use std::hash::{BuildHasher, DefaultHasher, FoldHasher, Hasher};

/// What the names of a text are hashed under. It depends on every byte of the text, so that names which collide can't
/// be chosen: a text with other names has another key. Nothing that is read depends on it.
///
/// A key of a table has to enter the hash in writes of at most 8 bytes, as bytes, slices of them and numbers do: of a
/// longer write the hash multiplies one half by the other, and bytes could be chosen that make it forget the key.
#[derive(Clone, Copy)]
pub struct TextKey {
    first: FoldHasher,
}

impl TextKey {
    /// The key of a text: one pass over its bytes.
    #[tactic(auto, unfolding(crate::specs::Keys::first_state))]
    pub fn of(text: &[u8]) -> TextKey
        ensures { key_state result ≡ first_state text.now }
    {
        let mut whole = DefaultHasher::new();
        whole.write(text);
        let mut first = FoldHasher::default();
        first.write(&whole.finish().to_le_bytes());
        TextKey { first }
    }

    /// A key that depends on both, for a table whose names come from two texts.
    #[tactic(auto, unfolding(crate::specs::Keys::joined_state))]
    pub fn joined(self, other: TextKey) -> TextKey
        ensures { key_state result ≡ joined_state (key_state self) (key_state other) }
    {
        let mut both = DefaultHasher::new();
        both.write(&self.first.finish().to_le_bytes());
        both.write(&other.first.finish().to_le_bytes());
        let mut first = FoldHasher::default();
        first.write(&both.finish().to_le_bytes());
        TextKey { first }
    }
}

impl BuildHasher for TextKey {
    type Hasher = FoldHasher;

    ghost build_hasher = { key_state };

    fn build_hasher(&self) -> FoldHasher {
        self.first
    }
}
