//! The names of groups.

ghost use Rattle.std.specs.Prelude.{IfOk};
ghost use Rattle.xt_model.specs.Names.{IsName};
ghost use Rattle.liberty_groups.specs.Trees.{tree_of};
ghost use Rattle.text_forms.specs.Stops.{Gives};
ghost use Rattle.liberty_tables.specs.Templates.{only_name};

use crate::contents::only;
use liberty_groups::Group;
use std::alloc::Global;
use text_forms::is_name;
use xt_lex::TextFault;
use xt_model::Code;

/// The one name of a cell or of a template.
#[tactic(auto, unfolding(crate::specs::Templates::only_name))]
pub fn only_name(alloc: Global, bytes: &[u8], group: &Group) -> Result<Vec<u8>, TextFault>
    ensures exact { Gives (λ name. name.items) result (only_name bytes.now (tree_of group.now)) }
    ensures sound { IfOk result (λ name. IsName name.items) }
{
    let line = group.line();
    match only(alloc, bytes, group.args())? {
        Some(name) => {
            if is_name(name.as_slice()) {
                Ok(name)
            } else {
                Err(TextFault::Refused {
                    line,
                    code: Code::L1,
                })
            }
        }
        None => Err(TextFault::Refused {
            line,
            code: Code::L1,
        }),
    }
}
