//! From the bytes of a text to its parasitics.

ghost use Rattle.std.specs.Prelude.{◌≤◌, length, IfOk};
ghost use Rattle.spef_read.specs.Reading.{text_state, parasitics_of};
ghost use Rattle.spef_read.specs.Sound.{AreSoundParasitics};
ghost use Rattle.text_forms.specs.Stops.{Gives};

use crate::context::Context;
use crate::parasitics::Parasitics;
use crate::state::Progress;
use name_numbers::TextKey;
use std::alloc::Global;
use text_forms::{Terms, read_all, tokens_refused};
use xt_lex::{MOST_BYTES, Rules, TextFault};
use xt_model::Code;

/// What a text means.
#[tactic(auto, unfolding(crate::specs::Reading::text_state))]
fn parasitics(alloc: Global, bytes: &[u8]) -> Result<Parasitics, TextFault>
    requires { length bytes.now ≤ MOST_BYTES }
    ensures { Gives (λ p. p) result (parasitics_of bytes.now) }
{
    if let Some(refused) = tokens_refused(bytes, Rules::Spef, Code::S1, Code::S2) {
        return Err(TextFault::from(refused));
    }
    let mut state = Progress::new(alloc, TextKey::of(bytes));
    let mut terms = Terms::new(bytes, Rules::Spef);
    let read = read_all(alloc, Context::Start, &mut terms, &mut state);
    // What is left of the state is dropped here alone, whatever was read.
    let parasitics = state.into_parasitics();
    match read {
        Ok(()) => Ok(parasitics),
        Err(fault) => Err(fault),
    }
}

/// The parasitics of a SPEF text (IEEE 1481).
///
/// A header is `*SPEF` and a string, and then titles, the flow, the divider, the delimiter, the brackets and the units
/// in any order; the last of a kind counts. Sections are `*NAME_MAP`, those of ports and supplies, which are skipped,
/// and `*D_NET`. A value is a number or three with colons between them, of which the middle one counts; capacitances
/// are read in aF, resistances in mΩ, each rounded half away from zero.
///
/// `S1` is a token that does not fit or a name of no byte or of more than 2,049; `S2` a text that ends early, at its
/// last line; `S3` a value below 0 or beyond the range; `S4` a unit that is not known, or a missing one of capacitance
/// or resistance at the first net or at the end of the text; `S5` a number of the name map twice or unknown; `S6` a net
/// twice; `S7` a section or a list that is not taken. The first refusal counts; one of the tokens themselves comes
/// before all others. Takes time and memory linear in the bytes.
pub fn read_spef(alloc: Global, bytes: &[u8]) -> Result<Parasitics, TextFault>
    requires { length bytes.now ≤ MOST_BYTES }
    ensures value { Gives (λ p. p) result (parasitics_of bytes.now) }
    ensures sound { IfOk result AreSoundParasitics }
{
    parasitics(alloc, bytes)
}
