//! From the bytes of a netlist to its modules.

ghost use Rattle.std.specs.Prelude.{◌≡◌, ◌≤◌, length, IfOk};
ghost use Rattle.std.specs.List.{All};
ghost use Rattle.verilog_net.specs.Reading.{text_state, modules_in, modules_of, one_of, netlist_of_text};
ghost use Rattle.verilog_net.specs.Sound.{IsSoundModule, IsSoundNetlist};
ghost use Rattle.text_forms.specs.Stops.{Gives};

use crate::context::Context;
use crate::netlist::{Modules, Netlist};
use crate::state::Progress;
use name_numbers::TextKey;
use std::alloc::Global;
use text_forms::{Terms, read_all, tokens_refused};
use xt_lex::{MOST_BYTES, Rules, TextFault};
use xt_model::{Code, Row};

/// The modules of a text, where one alone is admitted or several are.
#[tactic(auto, unfolding(crate::specs::Reading::text_state))]
fn modules(alloc: Global, single: bool, bytes: &[u8]) -> Result<Vec<Netlist>, TextFault>
    requires { length bytes.now ≤ MOST_BYTES }
    ensures { Gives (λ ms. ms.items) result (modules_in (text_state single bytes.now)) }
{
    if let Some(refused) = tokens_refused(bytes, Rules::Verilog, Code::V1, Code::V2) {
        return Err(TextFault::from(refused));
    }
    let mut state = Progress::new(alloc, TextKey::of(bytes), single);
    let mut terms = Terms::new(bytes, Rules::Verilog);
    let read = read_all(alloc, Context::Start, &mut terms, &mut state);
    // What is left of the state is dropped here alone, whatever was read.
    let ended = state.into_ended(alloc);
    match read {
        Ok(()) => Ok(ended),
        Err(fault) => Err(fault),
    }
}

/// The modules of a structural Verilog text, in its order, or its first refusal, at the line of the token that shows
/// it.
///
/// `V1` is a token that does not fit, a byte that is not allowed where it is, or a name of no byte or of more than
/// 1,024; `V2` a text, a comment or an attribute that ends early, at the last line. `V3` is a part of the language that
/// is not read, such as `assign`, a part select or an ordered connection, or a second declaration of a name with
/// another range or the other direction; `V4` a bit of a name that is not declared or, at `endmodule`, a name of the
/// header without a direction; `V5` a name of a module, of an instance in its module or of a pin in its instance that
/// is there twice; `V6` a bit outside its range or of a declared name without one, or a bound above 1,048,575. A fault
/// of the tokens comes before all others. Without memory the answer is `NoMemory`. Takes time and memory linear in the
/// bytes.
pub fn read_modules(alloc: Global, bytes: &[u8]) -> Result<Modules, TextFault>
    requires { length bytes.now ≤ MOST_BYTES }
    ensures value { Gives (λ m. m.list) result (modules_of bytes.now) }
    ensures sound { IfOk result (λ m. All IsSoundModule m.list) }
{
    let list = modules(alloc, false, bytes)?;
    Ok(Modules {
        list: Row::from_vec(list),
    })
}

/// The one module of a structural Verilog text, or its first refusal: those of `read_modules`, and `V3` also at a
/// second module and at the `)` after a whole bus as a connection. `NoMemory`, time and memory are as there.
pub fn read_netlist(alloc: Global, bytes: &[u8]) -> Result<Netlist, TextFault>
    requires { length bytes.now ≤ MOST_BYTES }
    ensures value { Gives (λ m. m) result (netlist_of_text bytes.now) }
    ensures sound { IfOk result IsSoundNetlist }
{
    let mut list = modules(alloc, true, bytes)?;
    if list.is_empty() {
        return Err(TextFault::Refused {
            line: 1,
            code: Code::V2,
        });
    }
    Ok(list.swap_remove(0))
}
