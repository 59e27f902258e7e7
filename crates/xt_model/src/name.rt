use smallvec::SmallVec;
use std::alloc::{AllocError, Global};
use std::marker::Model;

/// A name of a net, a sink or a check: 1 to 2,049 bytes of printable ASCII without white space. One of at most 16
/// bytes is in the value itself and takes no other memory.
#[derive(Debug, Drop)]
pub struct Name {
    bytes: SmallVec<u8, 16>,
}

impl Model for Name {
    ghost use Rattle.std.specs.Prelude.{ℕ, List};

    ghost Value = { List ℕ };

    ghost use Rattle.xt_model.specs.Names.{IsName};

    ghost view = { λ n. n.bytes.items };

    ghost invariant = { λ n. IsName n.bytes.items };
}

impl Name {
    ghost use Rattle.std.specs.Prelude.{◌≡◌, IfOk};
    ghost use Rattle.xt_model.specs.Names.{IsName};

    /// The name of 1 to 2,049 bytes from 33 to 126. Takes no memory.
    pub fn new(bytes: Vec<u8>) -> Name
        requires { IsName bytes.items }
        ensures { result ≡ bytes.items }
    {
        Name {
            bytes: SmallVec::from_vec(bytes),
        }
    }

    /// The name of a copy of these bytes.
    pub fn from_slice(alloc: Global, bytes: &[u8]) -> Result<Name, AllocError>
        requires { IsName bytes.now }
        ensures { IfOk result (λ n. n ≡ bytes.now) }
    {
        Ok(Name {
            bytes: SmallVec::from_slice(alloc, bytes)?,
        })
    }

    /// The bytes of the name.
    pub fn bytes(&self) -> &[u8]
        ensures value { result.now ≡ self.now }
        ensures sound { IsName self.now }
    {
        self.bytes.as_slice()
    }
}
