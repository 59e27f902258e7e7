//! The names of a flat netlist.

ghost use Rattle.std.specs.Prelude.{◌≡◌, ℕ, List, [], true, false, if◌then◌else◌, Some, None};
ghost use Rattle.std.specs.Prelude.{map, option_map, option_to_list, IfOk};
ghost use Rattle.std.specs.List.{list_any};
ghost use Rattle.hier_flatten.specs.Names.{is_repeated, has_bit_name, has_equal_names, is_long, has_long_name};
ghost use Rattle.verilog_net.specs.declared.netlist.Net.{Net};
ghost use Rattle.xt_model.specs.declared.code.Code.TheVariants as codes;
ghost use Rattle.hier_flatten.specs.Meaning.{named, AnswersFlat};

use crate::fault::FlatFault;
use crate::growing::Growing;
use name_numbers::{NameTable, Names, TextKey};
use std::alloc::{AllocError, Global};
use verilog_net::{Instance, Net, Netlist, named_bit};
use xt_model::limits::MOST_TEXT_NAME;
use xt_model::{Code, Row};

/// Whether a net of one bit has the name of a bit of a bus.
fn has_bit_name(table: &NameTable<Net>, net: Option<(&[u8], &Net)>) -> bool
    ensures { result ≡ list_any (has_bit_name table.now)
        (option_to_list (option_map (λ e. (e.0.now, e.1.now)) net.entry)) }
{
    let Some((name, net)) = net else {
        return false;
    };
    net.range.is_none() && named_bit(table, name).is_some()
}

/// Whether some net of one bit has the name of a bit of a bus.
fn have_bit_names(table: &NameTable<Net>) -> bool
    ensures { result ≡ list_any (has_bit_name table.now) table.now }
{
    for number in 0..table.len() {
        if has_bit_name(table, table.get(number)) {
            return true;
        }
    }
    false
}

/// Enters the names of instances, up to the first that is there already. Answers whether one is.
fn enter_names<'a>(instances: &'a [Instance], names: &mut Names<'a>) -> Result<bool, AllocError>
    requires { names.old ≡ [] }
    ensures { IfOk result (λ b. b ≡ is_repeated (map (λ i. i.name) instances.entry.now)) }
{
    let mut rest = instances;
    'instances: while let [instance, more @ ..] = rest {
        let (_, fresh) = names.enter(instance.name.bytes())?;
        if !fresh {
            return Ok(true);
        }
        rest = more;
    }
    Ok(false)
}

/// Whether two instances have one name.
pub fn are_repeated(alloc: Global, key: TextKey, instances: &[Instance]) -> Result<bool, AllocError>
    ensures { IfOk result (λ b. b ≡ is_repeated (map (λ i. i.name) instances.now)) }
{
    let mut names = Names::new(alloc, key);
    enter_names(instances, &mut names)
}

/// Whether the name of a net has more than 1,024 bytes.
fn is_long_net(net: Option<(&[u8], &Net)>) -> bool
    ensures { result ≡ list_any (λ (n : List ℕ × Net). is_long n.0)
        (option_to_list (option_map (λ e. (e.0.now, e.1.now)) net.entry)) }
{
    match net {
        Some((name, _)) => name.len() > MOST_TEXT_NAME,
        None => false,
    }
}

/// Whether the name of an instance has more than 1,024 bytes.
fn is_long_instance(instance: &Instance) -> bool
    ensures { result ≡ is_long instance.now.name }
{
    instance.name.bytes().len() > MOST_TEXT_NAME
}

/// Whether a net has a name of more than 1,024 bytes.
fn has_long_net(nets: &NameTable<Net>) -> bool
    ensures { result ≡ list_any (λ net. is_long net.0) nets.now }
{
    for number in 0..nets.len() {
        if is_long_net(nets.get(number)) {
            return true;
        }
    }
    false
}

/// Whether an instance has a name of more than 1,024 bytes.
fn has_long_instance(instances: &[Instance]) -> bool
    ensures { result ≡ list_any (λ i. is_long i.name) instances.now }
{
    instances.iter().any(|instance| is_long_instance(instance))
}

/// Whether a net or an instance has a name of more than 1,024 bytes.
#[tactic(auto, unfolding(crate::specs::Names::has_long_name))]
fn has_long_name(nets: &NameTable<Net>, instances: &[Instance]) -> bool
    ensures { result ≡ has_long_name nets.now instances.now }
{
    has_long_net(nets) || has_long_instance(instances)
}

/// Whether two bits of nets with names of their own, or two instances, have one name. The instances are not asked
/// where their names are known to be `apart`.
fn has_equal_names(
    alloc: Global,
    nets: &NameTable<Net>,
    instances: &[Instance],
    apart: bool,
) -> Result<bool, AllocError>
    requires { apart ≡ true → is_repeated (map (λ i. i.name) instances.now) ≡ false }
    ensures { IfOk result (λ b. is_repeated (map (λ net. net.0) nets.now) ≡ false
        → b ≡ has_equal_names nets.now instances.now) }
{
    if have_bit_names(nets) {
        return Ok(true);
    }
    if apart {
        return Ok(false);
    }
    let repeated = are_repeated(alloc, nets.key(), instances)?;
    Ok(repeated)
}

/// Why the names of these nets, or of these instances, are refused, where no two nets have one name. Those of the
/// instances may be known to be `apart`.
fn fault_of_names(
    alloc: Global,
    nets: &NameTable<Net>,
    instances: &[Instance],
    apart: bool,
) -> Result<Option<Code>, AllocError>
    requires { apart ≡ true → is_repeated (map (λ i. i.name) instances.now) ≡ false }
    ensures { IfOk result (λ code. is_repeated (map (λ net. net.0) nets.now) ≡ false
        → code ≡ (if has_equal_names nets.now instances.now then Some codes.V5
        else if has_long_name nets.now instances.now then Some codes.V1 else None)) }
{
    if has_equal_names(alloc, nets, instances, apart)? {
        return Ok(Some(Code::V5));
    }
    if has_long_name(nets, instances) {
        return Ok(Some(Code::V1));
    }
    Ok(None)
}

/// The flat netlist of a top, where its names are in order. Those of its instances may be known to be `apart`.
pub fn with_names(
    alloc: Global,
    top: &Netlist,
    flat: Growing,
    apart: bool,
    last_line: u32,
) -> Result<Netlist, FlatFault>
    requires { apart ≡ true → is_repeated (map (λ i. i.name) flat.instances) ≡ false }
    ensures { AnswersFlat result (λ o. o ≡ named last_line top.now flat) }
{
    let (table, instances) = flat.into_parts();
    let Some(nets) = table else {
        return Err(FlatFault::Refused {
            line: last_line,
            code: Code::V5,
        });
    };
    if let Some(code) = fault_of_names(alloc, &nets, instances.as_slice(), apart)? {
        return Err(FlatFault::Refused {
            line: last_line,
            code,
        });
    }
    Ok(Netlist {
        module: top.module.shared()?,
        nets,
        instances: Row::from_vec(instances),
    })
}
