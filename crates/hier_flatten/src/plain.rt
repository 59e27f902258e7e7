//! Whether names below instances are apart by the names of these alone.

ghost use Rattle.std.specs.Prelude.{◌≡◌, IfOk};
ghost use Rattle.std.specs.List.{list_any, list_all};
ghost use Rattle.hier_flatten.specs.Names.{is_slash, has_slash, has_plain_names};

use crate::names::are_repeated;
use name_numbers::TextKey;
use std::alloc::{AllocError, Global};
use verilog_net::{Instance, Netlist};

/// Whether a byte is a `/`.
fn is_slash(byte: &u8) -> bool
    ensures { result ≡ is_slash byte.now }
{
    *byte == b'/'
}

/// Whether the name of an instance has a `/`.
fn has_slash(instance: &Instance) -> bool
    ensures { result ≡ has_slash instance.now.name }
{
    instance.name.bytes().iter().any(|byte| is_slash(byte))
}

/// Whether some instance has a name with a `/`.
fn have_slashes(instances: &[Instance]) -> bool
    ensures { result ≡ list_any (λ i. has_slash i.name) instances.now }
{
    instances.iter().any(|instance| has_slash(instance))
}

/// Whether the instances of a module have names of their own without a `/`.
fn has_plain_names(alloc: Global, key: TextKey, netlist: &Netlist) -> Result<bool, AllocError>
    ensures { IfOk result (λ b. b ≡ has_plain_names netlist.now) }
{
    let instances = netlist.instances.as_slice();
    if have_slashes(instances) {
        return Ok(false);
    }
    let repeated = are_repeated(alloc, key, instances)?;
    Ok(!repeated)
}

/// Whether this is so in each module. Then no two instances of the flat netlist have one name, as the names on a path
/// are joined by `/`.
pub fn have_plain_names(
    alloc: Global,
    key: TextKey,
    modules: &[Netlist],
) -> Result<bool, AllocError>
    ensures { IfOk result (λ b. b ≡ list_all has_plain_names modules.now) }
{
    let mut rest = modules;
    'modules: while let [module, more @ ..] = rest {
        if !has_plain_names(alloc, key, module)? {
            return Ok(false);
        }
        rest = more;
    }
    Ok(true)
}
