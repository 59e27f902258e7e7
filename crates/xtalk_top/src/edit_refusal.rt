//! Why a line of a text of edits gives no design.

ghost use Rattle.std.specs.Prelude.{◌≡◌, ℕ, ◌<◌, length};
ghost use Rattle.call_meaning.specs.Outcome.{refuses};
ghost use Rattle.call_meaning.specs.Call.{IsStop};
ghost use Rattle.call_meaning.specs.Eco.{FaultMeans, IsOfDesign, refused_at};
ghost use Rattle.eco_warm.specs.declared.edit.EditFault.TheVariants as faults;
ghost use Rattle.call_meaning.specs.declared.refusal.FileRefusal.TheVariants.{Content};
ghost use Rattle.call_meaning.specs.declared.refusal.Refusal.TheVariants.{File};

use call_meaning::{FileRefusal, PassedLimit, Refusal, Stop, TextRefusal};
use command_line::FileName;
use eco_warm::EditFault;
use std::alloc::Global;
use xt_model::{Code, Design, LimitKind, Name, NetId};

// The refusal of the file of this name.
fn refusal(alloc: Global, file: &FileName, why: TextRefusal) -> Stop
    ensures { IsStop (λ o. o ≡ refuses (File file.now (Content why))) (λ _. ⊥) result }
{
    match String::from_str(alloc, file.as_str()) {
        Ok(name) => Stop::Refused(Refusal::File {
            file: FileName::new(name),
            why: FileRefusal::Content(why),
        }),
        Err(_) => Stop::NoMemory,
    }
}

/// The refusal of the file of this name at a line.
pub fn refused(alloc: Global, file: &FileName, line: u32, code: Code) -> Stop
    ensures { IsStop (λ o. o ≡ refused_at file.now line code) (λ _. ⊥) result }
{
    refusal(alloc, file, TextRefusal::At { line, code })
}

// The refusal of the file of this name, for this load of a net of the design.
fn overloaded(alloc: Global, file: &FileName, design: &Design, net: NetId, value: u128) -> Stop
    requires { net.0 < length design.now.nets }
    ensures { (line : ℕ) → IsStop (FaultMeans file.now line design.now (faults.Load net value)) (λ _. ⊥) result }
{
    let name = design.net(net.0 as usize).name.bytes();
    match Name::from_slice(alloc, name) {
        Ok(name) => refusal(
            alloc,
            file,
            TextRefusal::Beyond(PassedLimit {
                what: LimitKind::Load,
                name: Some(name),
                value,
            }),
        ),
        Err(_) => Stop::NoMemory,
    }
}

/// The refusal of the file of this name, whose line is at fault.
pub fn stop_of(alloc: Global, file: &FileName, line: u32, design: &Design, fault: EditFault) -> Stop
    requires { IsOfDesign design.now.nets fault }
    ensures { IsStop (FaultMeans file.now line design.now fault) (λ _. ⊥) result }
{
    match fault {
        EditFault::E1 => refused(alloc, file, line, Code::E1),
        EditFault::E2 => refused(alloc, file, line, Code::E2),
        EditFault::E3 => refused(alloc, file, line, Code::E3),
        EditFault::E4 => refused(alloc, file, line, Code::E4),
        EditFault::Load { net, value } => overloaded(alloc, file, design, net, value),
        EditFault::NoMemory => Stop::NoMemory,
    }
}
