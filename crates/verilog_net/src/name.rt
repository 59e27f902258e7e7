//! Names of a netlist.

ghost use Rattle.std.specs.Prelude.{◌≡◌};

use std::alloc::{AllocError, Global};
use std::marker::Model;
use std::rc::Rc;

/// This many bytes are in the name itself.
const SHORT: usize = 14;

/// The bytes of a name. Most names are short, and take no memory beside the value; those of a long one can be shared.
#[derive(Debug, Drop)]
enum Bytes {
    Short { used: u8, buffer: [u8; SHORT] },
    Long(Rc<Vec<u8>>),
}

/// A name of a netlist: its bytes, an escaped one's without the backslash.
#[derive(Debug, Drop)]
pub struct Name {
    bytes: Bytes,
}

impl Model for Name {
    ghost use Rattle.std.specs.Prelude.{ℕ, List};
    ghost use Rattle.verilog_net.specs.Names.{held, IsHeld};

    ghost Value = { List ℕ };

    ghost view = { λ n. held n.bytes };

    ghost invariant = { λ n. IsHeld n.bytes };
}

impl Name {
    ghost use Rattle.std.specs.Prelude.{[], IfOk};

    /// A name of these bytes.
    pub fn copied(alloc: Global, bytes: &[u8]) -> Result<Name, AllocError>
        ensures { IfOk result (λ n. n ≡ bytes.now) }
    {
        if bytes.len() <= SHORT {
            let mut buffer = [0; SHORT];
            buffer[..bytes.len()].copy_from_slice(bytes);
            return Ok(Name {
                bytes: Bytes::Short {
                    used: bytes.len() as u8,
                    buffer,
                },
            });
        }
        let long = Rc::new(alloc, Vec::from_slice(alloc, bytes)?)?;
        Ok(Name {
            bytes: Bytes::Long(long),
        })
    }

    /// A name of no byte.
    pub(crate) fn empty() -> Name
        ensures { result ≡ [] }
    {
        Name {
            bytes: Bytes::Short {
                used: 0,
                buffer: [0; SHORT],
            },
        }
    }

    /// Another name of the same bytes. Those of a long name are kept once for both.
    pub fn shared(&self) -> Result<Name, AllocError>
        ensures { IfOk result (λ n. n ≡ self.now) }
    {
        let bytes = match &self.bytes {
            Bytes::Short { used, buffer } => Bytes::Short {
                used: *used,
                buffer: *buffer,
            },
            Bytes::Long(long) => Bytes::Long(long.clone()?),
        };
        Ok(Name { bytes })
    }

    /// The bytes of the name.
    pub fn bytes(&self) -> &[u8]
        ensures { result.now ≡ self.now }
    {
        match &self.bytes {
            Bytes::Short { used, buffer } => {
                let (text, _) = buffer.split_at(*used as usize);
                text
            }
            Bytes::Long(long) => long.as_slice(),
        }
    }
}
