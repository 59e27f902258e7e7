//! Bytes that names share.

ghost use Rattle.std.specs.Prelude.{◌≡◌};

use std::alloc::{AllocError, Global};
use std::marker::Model;
use std::rc::Rc;

/// The bytes with which names begin. They are kept once for all of these names.
#[derive(Drop)]
pub struct Prefix {
    bytes: Rc<Vec<u8>>,
}

impl Model for Prefix {
    ghost use Rattle.std.specs.Prelude.{ℕ, List};

    ghost Value = { List ℕ };

    ghost view = { λ p. p.bytes.value.items };
}

impl Prefix {
    ghost use Rattle.std.specs.Prelude.{IfOk};

    /// A prefix of these bytes.
    pub fn new(alloc: Global, bytes: Vec<u8>) -> Result<Prefix, AllocError>
        ensures { IfOk result (λ p. p ≡ bytes.items) }
    {
        Ok(Prefix {
            bytes: Rc::new(alloc, bytes)?,
        })
    }

    /// The prefix once more, without a copy of its bytes.
    pub fn shared(&self) -> Result<Prefix, AllocError>
        ensures { IfOk result (λ p. p ≡ self.now) }
    {
        Ok(Prefix {
            bytes: self.bytes.clone()?,
        })
    }

    /// The bytes.
    #[inline]
    pub fn bytes(&self) -> &[u8]
        ensures { result.now ≡ self.now }
    {
        self.bytes.as_slice()
    }
}
