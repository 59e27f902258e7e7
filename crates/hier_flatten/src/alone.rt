//! A module that is its own flat netlist.

ghost use Rattle.std.specs.Prelude.{◌≡◌, [], ◌∷◌, true, false, IfOk, IfErr};
ghost use Rattle.std.specs.List.{list_all};
ghost use Rattle.hier_flatten.specs.Alone.{is_plain, is_alone};

use crate::fits::cell_fits;
use verilog_net::{Instance, Modules, Netlist};
use xt_model::Row;

/// Whether an instance in a module of this name is one of a cell, none of whose pins is connected to a whole bus.
fn is_plain(name: &[u8], instance: &Instance) -> bool
    ensures { result ≡ is_plain name.now instance.now }
{
    name != instance.cell.bytes() && cell_fits(instance.pins.as_slice())
}

/// Whether all instances in a module of this name are such.
fn are_plain(name: &[u8], instances: &[Instance]) -> bool
    ensures { result ≡ list_all (is_plain name.now) instances.now }
{
    instances.iter().all(|instance| is_plain(name, instance))
}

/// Whether there is one module, which has neither an instance of itself nor a whole bus as a connection.
fn is_alone(modules: &[Netlist]) -> bool
    ensures { result ≡ is_alone modules.now }
{
    let [module] = modules else {
        return false;
    };
    are_plain(module.module.bytes(), module.instances.as_slice())
}

/// The one module of a text that has neither an instance of itself nor a whole bus as a connection: it is its own flat
/// netlist, and is handed on. Other modules are given back.
pub fn lone_module(modules: Modules) -> Result<Netlist, Modules>
    ensures ok { IfOk result (λ m. (modules.list ≡ m ∷ []) × (is_alone modules.list ≡ true)) }
    ensures err { IfErr result (λ back. (back ≡ modules) × (is_alone modules.list ≡ false)) }
{
    if !is_alone(modules.list.as_slice()) {
        return Err(modules);
    }
    let mut list = modules.list.into_vec();
    match list.pop() {
        Some(module) => Ok(module),
        None => Err(Modules {
            list: Row::from_vec(list),
        }),
    }
}
