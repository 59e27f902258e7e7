//! From the bytes of a text to its constraints.

ghost use Rattle.std.specs.Prelude.{◌≤◌, length, IfSome, IfOk, OnOk};
ghost use Rattle.sdc_words.specs.View.{command_text};
ghost use Rattle.sdc_read.specs.Meaning.{IsScale, IsClock};
ghost use Rattle.sdc_read.specs.Mentions.{state_of, IsKept};
ghost use Rattle.sdc_read.specs.Sound.{AreSoundConstraints};
ghost use Rattle.sdc_read.specs.Reading.{command_means, commands_mean, constraints_of};
ghost use Rattle.text_forms.specs.Stops.{Changes, Gives};

use crate::constraints::Constraints;
use crate::listed::ListedNetlist;
use crate::progress::Progress;
use name_numbers::TextKey;
use sdc_forms::statement_of_words;
use sdc_words::{Command, Commands};
use std::alloc::Global;
use text_forms::{Stop, tokens_refused};
use verilog_net::Netlist;
use xt_lex::{MOST_BYTES, Rules, TextFault};
use xt_model::Code;

/// Does what a command means.
fn act_on(
    alloc: Global,
    netlist: &ListedNetlist<'_>,
    command: &Command<'_>,
    state: &mut Progress,
) -> Result<(), Stop>
    ensures value { Changes result (state_of netlist.now state.new)
        (command_means netlist.now (command_text command.now) (state_of netlist.now state.old)) }
    ensures kept { OnOk result (IsKept netlist.now state.old → IsKept netlist.now state.new) }
{
    let statement = statement_of_words(alloc, command.words.as_ref())?;
    state.act(alloc, netlist, statement)
}

/// Does what the commands of a text mean.
fn read_all(
    alloc: Global,
    netlist: &ListedNetlist<'_>,
    commands: &mut Commands<'_>,
    state: &mut Progress,
) -> Result<(), TextFault>
    ensures value { Gives (λ _. state_of netlist.now state.new) result
        (commands_mean netlist.now commands.old (state_of netlist.now state.old)) }
    ensures kept { OnOk result (IsKept netlist.now state.old → IsKept netlist.now state.new) }
{
    'commands: while let Some(command) = commands.next_command(alloc)? {
        if let Err(stop) = act_on(alloc, netlist, &command, state) {
            return Err(stop.at_line(command.line));
        }
    }
    Ok(())
}

/// The constraints that an SDC text means for a netlist.
///
/// Until a command `set_units` a time is a number of 10^`time_scale` fs, and a capacitance one of 10^`cap_scale` aF;
/// each is rounded half away from zero. A later command replaces what an earlier one set. Without `-min` and `-max`
/// both are set, without `-rise` and `-fall` both edges. A clock is named as its port unless a name is given, rises at
/// 0, and falls in the middle of its period, rounded down, unless a waveform is given; input delays at its port are
/// ignored.
///
/// A command is refused at its first line. `C1` is that its words do not fit, a name is longer than 1,024 bytes, or the
/// tokens of the text have a fault, which comes before all else; `C2` is a command that is not known; `C3` an option or
/// an argument that is unknown, missing or twice, or a unit that is not listed; `C4` a number that is refused, a period
/// below 1 fs, a slew or a load below 0, or a waveform that is not 0 and a time within the period; `C6` a port or a
/// clock that is not there, a port of the other direction, or a source of a clock that is not exactly one bit; `C5` a
/// second clock. Of one command the first of these, in this order, counts, and of the text the first command.
///
/// A name of a whole bus, and a list of all ports, cost no more than another word: time and memory grow with the bytes
/// and with the nets of the netlist, whatever the widths of these.
#[tactic(auto, unfolding(crate::specs::Reading::constraints_of))]
pub fn read_sdc(
    alloc: Global,
    bytes: &[u8],
    netlist: &Netlist,
    time_scale: i32,
    cap_scale: i32,
) -> Result<Constraints, TextFault>
    requires bytes { length bytes.now ≤ MOST_BYTES }
    requires time { IsScale time_scale }
    requires cap { IsScale cap_scale }
    ensures value { Gives (λ c. c) result (constraints_of bytes.now netlist.now.nets time_scale cap_scale) }
    ensures clock { IfOk result (λ c. IfSome c.clock IsClock) }
    ensures sound { IfOk result AreSoundConstraints }
{
    if let Some(refused) = tokens_refused(bytes, Rules::Sdc, Code::C1, Code::C1) {
        return Err(TextFault::from(refused));
    }
    let netlist = ListedNetlist::new(alloc, netlist)?;
    let mut state = Progress::new(alloc, time_scale, cap_scale);
    read_all(alloc, &netlist, &mut Commands::new(bytes), &mut state)?;
    Ok(state.into_constraints(alloc, TextKey::of(bytes), &netlist)?)
}
