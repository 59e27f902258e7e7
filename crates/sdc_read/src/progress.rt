//! What the commands of a text mean, one after another.

ghost use Rattle.std.specs.Prelude.{◌≡◌, pos, [], None, option_map, map, IfSome, IfOk, OnOk};
ghost use Rattle.sdc_words.specs.View.{word_text};
ghost use Rattle.sdc_forms.specs.View.{statement_text, HasPowers, IsPower};
ghost use Rattle.sdc_read.specs.Changes.{IsChange};
ghost use Rattle.sdc_read.specs.Meaning.{or_same, with_units, create_clock, change_ports, means, bit_of};
ghost use Rattle.sdc_read.specs.Meaning.{if_known, or_name, IsScale, IsClock};
ghost use Rattle.sdc_read.specs.Mentions.{Kept, nets_of, told, state_of, IsKept};
ghost use Rattle.sdc_read.specs.Ports.{settled};
ghost use Rattle.sdc_read.specs.Sound.{AreSoundConstraints};
ghost use Rattle.sdc_read.specs.Objects.{bit_name, knows_clock};
ghost use Rattle.text_forms.specs.Stops.{Changes};

use crate::change::Change;
use crate::clocks::knows_clock;
use crate::constraints::{Clock, Constraints};
use crate::listed::ListedNetlist;
use crate::mentions::Mentions;
use crate::numbers::{fall_in, number_from, number_in};
use crate::objects::change_objects;
use crate::port_table::PortTable;
use crate::ports::PortBit;
use crate::source::{bit_name, source_of};
use name_numbers::TextKey;
use sdc_forms::Statement;
use sdc_words::Word;
use std::alloc::{AllocError, Global};
use std::marker::Model;
use text_forms::Stop;
use verilog_net::Name;
use xt_model::Code;

/// What the commands of a text said so far.
#[derive(Drop)]
pub struct Progress {
    time: i32,
    cap: i32,
    clock: Option<Clock>,
    said: Mentions,
}

impl Model for Progress {
    ghost use Rattle.std.specs.Prelude.{IfSome};
    ghost use Rattle.sdc_read.specs.Meaning.{IsScale, IsClock};
    ghost use Rattle.sdc_read.specs.Mentions.{Kept};

    ghost Value = { Kept };

    ghost view = { λ p. record { time = p.time; cap = p.cap; clock = p.clock; said = p.said } };

    ghost invariant = { λ p. IsScale p.time × IsScale p.cap × IfSome p.clock IsClock };
}

/// The power of ten of a unit, where one is given.
fn or_same(given: Option<i32>, old: i32) -> i32
    requires given { IfSome given IsPower }
    requires old { IsScale old }
    ensures value { result ≡ or_same given old }
    ensures bounds { IsScale result }
{
    match given {
        Some(power) => power,
        None => old,
    }
}

/// The bit of the clock's port.
fn bit_of(clock: &Option<Clock>) -> Option<PortBit>
    ensures { result ≡ option_map bit_of clock.now }
{
    match clock {
        Some(clock) => Some(PortBit {
            decl: clock.decl,
            bit: clock.bit,
        }),
        None => None,
    }
}

/// The name of a clock, which is that of its port's bit where no other is given.
fn clock_name(
    alloc: Global,
    netlist: &ListedNetlist<'_>,
    name: Option<&[u8]>,
    at: PortBit,
) -> Result<Name, AllocError>
    ensures { IfOk result (λ n. n ≡ or_name (option_map (λ t. t.now) name.entry) (bit_name netlist.now at)) }
{
    match name {
        Some(name) => Name::copied(alloc, name),
        None => bit_name(alloc, netlist.whole(), at),
    }
}

impl Progress {
    /// Nothing read.
    pub fn new(alloc: Global, time: i32, cap: i32) -> Progress
        requires time { IsScale time }
        requires cap { IsScale cap }
        ensures { result ≡ record { time = time; cap = cap; clock = None; said = [] } }
    {
        Progress {
            time,
            cap,
            clock: None,
            said: Mentions::new(alloc),
        }
    }

    /// Units hold for the commands after them.
    fn set_units(&mut self, time: Option<i32>, cap: Option<i32>)
        requires time { IfSome time IsPower }
        requires cap { IfSome cap IsPower }
        ensures { self.new
            ≡ record self.old { time = or_same time self.old.time; cap = or_same cap self.old.cap } }
    {
        self.time = or_same(time, self.time);
        self.cap = or_same(cap, self.cap);
    }

    /// Makes the clock.
    #[tactic(auto, unfolding(crate::specs::Meaning::create_clock))]
    fn create_clock(
        &mut self,
        alloc: Global,
        netlist: &ListedNetlist<'_>,
        name: Option<&[u8]>,
        period: &[u8],
        waveform: Option<&[u8]>,
        source: Word<'_>,
    ) -> Result<(), Stop>
        ensures value { Changes result (state_of netlist.now self.new)
            (create_clock netlist.now (option_map (λ t. t.now) name.entry) period.now
            (option_map (λ t. t.now) waveform.entry) (word_text source.entry) (state_of netlist.now self.old)) }
        ensures kept { OnOk result (IsKept netlist.now self.old → IsKept netlist.now self.new) }
    {
        let period = number_from(1, period, self.time)?;
        let fall = fall_in(self.time, period, waveform)?;
        let at = source_of(netlist, source)?;
        if self.clock.is_some() {
            return Err(Stop::Refused(Code::C5));
        }
        let name = clock_name(alloc, netlist, name, at)?;
        self.clock = Some(Clock {
            name,
            decl: at.decl,
            bit: at.bit,
            period,
            fall,
        });
        Ok(())
    }

    /// Changes the ports of a list.
    #[tactic(auto, unfolding(crate::specs::Meaning::change_ports))]
    fn change_ports(
        &mut self,
        netlist: &ListedNetlist<'_>,
        change: Change,
        list: Word<'_>,
    ) -> Result<(), Stop>
        requires { IsChange change }
        ensures value { Changes result (state_of netlist.now self.new)
            (change_ports netlist.now change (word_text list.entry) (state_of netlist.now self.old)) }
        ensures kept { OnOk result (IsKept netlist.now self.old → IsKept netlist.now self.new) }
    {
        let clock = bit_of(&self.clock);
        change_objects(netlist, clock, change, list, &mut self.said)
    }

    /// Changes the ports of a list, if the clock of another one is known.
    fn change_known(
        &mut self,
        netlist: &ListedNetlist<'_>,
        clock: Word<'_>,
        change: Change,
        list: Word<'_>,
    ) -> Result<(), Stop>
        requires { IsChange change }
        ensures value { Changes result (state_of netlist.now self.new)
            (if_known (knows_clock self.old.clock (word_text clock.entry))
            (change_ports netlist.now change (word_text list.entry) (state_of netlist.now self.old))) }
        ensures kept { OnOk result (IsKept netlist.now self.old → IsKept netlist.now self.new) }
    {
        if !knows_clock(&self.clock, clock) {
            return Err(Stop::Refused(Code::C6));
        }
        self.change_ports(netlist, change, list)
    }

    /// Does what a command says.
    #[tactic(auto, unfolding(crate::specs::Meaning::means))]
    pub fn act(
        &mut self,
        alloc: Global,
        netlist: &ListedNetlist<'_>,
        statement: Statement<'_>,
    ) -> Result<(), Stop>
        requires { HasPowers statement }
        ensures value { Changes result (state_of netlist.now self.new)
            (means netlist.now (statement_text statement.entry) (state_of netlist.now self.old)) }
        ensures kept { OnOk result (IsKept netlist.now self.old → IsKept netlist.now self.new) }
    {
        match statement {
            Statement::Nothing => Ok(()),
            Statement::Units(time, cap) => {
                self.set_units(time, cap);
                Ok(())
            }
            Statement::Clock(name, period, waveform, source) => {
                self.create_clock(alloc, netlist, name, period, waveform, source)
            }
            Statement::InputDelay(number, clock, picked, list) => {
                let number = number_in(number, self.time)?;
                self.change_known(netlist, clock, Change::InputDelay(picked, number), list)
            }
            Statement::OutputDelay(number, clock, picked, list) => {
                let number = number_in(number, self.time)?;
                self.change_known(netlist, clock, Change::OutputDelay(picked, number), list)
            }
            Statement::InputTransition(number, picked, list) => {
                let number = number_from(0, number, self.time)?;
                self.change_ports(netlist, Change::Slew(picked, number), list)
            }
            Statement::Load(number, list) => {
                let number = number_from(0, number, self.cap)?;
                self.change_ports(netlist, Change::Load(number), list)
            }
        }
    }

    /// The constraints, with the key of their text.
    pub fn into_constraints(
        self,
        alloc: Global,
        key: TextKey,
        netlist: &ListedNetlist<'_>,
    ) -> Result<Constraints, AllocError>
        requires { IsKept netlist.now self }
        ensures value { IfOk result (λ c. c
            ≡ record { clock = self.clock; ports = map settled (told (nets_of netlist.now) self.said) }) }
        ensures clock { IfOk result (λ c. IfSome c.clock IsClock) }
        ensures sound { IfOk result AreSoundConstraints }
    {
        let Progress {
            time: _,
            cap: _,
            clock,
            said,
        } = self;
        let ports = PortTable::new(alloc, key, netlist.whole(), bit_of(&clock), said)?;
        Ok(Constraints { clock, ports })
    }
}
