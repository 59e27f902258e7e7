//! What is set for single bits, for whole ports, and for all ports of a direction.

ghost use Rattle.std.specs.Prelude.{◌≡◌, ◌==◌, ◌-◌, ◌<◌, IfOk, OnOk, Some, option_map};
ghost use Rattle.std.specs.List.{slice_get};
ghost use Rattle.std.specs.Map.{lookup};
ghost use Rattle.sdc_read.specs.Ports.{same_bit};
ghost use Rattle.sdc_read.specs.Levels.{no_levels, for_role, for_port, for_rest, for_bit, with_bit, with_port};
ghost use Rattle.sdc_read.specs.Levels.{with_role, with_all, with_place, levels_of};
ghost use Rattle.sdc_read.specs.Origins.{numbers_at};

use crate::mentions::{Mention, Mentions, role_at};
use crate::origins::{Origins, or_all, put_origins};
use crate::ports::PortBit;
use crate::set_numbers::SetNumbers;
use indexmap::IndexMap;
use name_numbers::TextKey;
use std::alloc::{AllocError, Global};
use std::marker::Model;
use verilog_net::{Net, PortRole};

/// What is set for bits that were named, for whole ports by the numbers of their nets, and for all inputs and all
/// outputs, each number by the mention that sets it. Of a bit its own numbers are the latest ones, then its port's,
/// then those of all ports.
#[derive(Drop)]
pub struct Levels {
    said: Mentions,
    bits: IndexMap<PortBit, Origins, TextKey>,
    ports: IndexMap<u32, Origins, TextKey>,
    inputs: Option<Origins>,
    outputs: Option<Origins>,
}

impl Model for Levels {
    ghost use Rattle.std.specs.Prelude.{map, option_map};
    ghost use Rattle.sdc_read.specs.Levels.{SaidLevels};
    ghost use Rattle.sdc_read.specs.Origins.{numbers_at};

    ghost Value = { SaidLevels };

    ghost view = { λ l. record {
      said = l.said;
      levels = record {
        bits = map (λ e. (e.0, numbers_at l.said e.1)) l.bits.entries;
        ports = map (λ e. (e.0, numbers_at l.said e.1)) l.ports.entries;
        inputs = option_map (numbers_at l.said) l.inputs;
        outputs = option_map (numbers_at l.said) l.outputs;
      };
    } };
}

impl Levels {
    /// Nothing is set, with the key of the text that names the bits.
    fn new(alloc: Global, key: TextKey, said: Mentions) -> Levels
        ensures { result ≡ record { said = said; levels = no_levels } }
    {
        Levels {
            said,
            bits: IndexMap::with_hasher(alloc, key),
            ports: IndexMap::with_hasher(alloc, key),
            inputs: None,
            outputs: None,
        }
    }

    /// What is set for all ports of a direction.
    fn for_role(&self, role: PortRole) -> Option<Origins>
        ensures { option_map (numbers_at self.now.said) result ≡ for_role self.now.levels role }
    {
        match role {
            PortRole::Input => self.inputs,
            PortRole::Output => self.outputs,
            PortRole::Inner => None,
        }
    }

    /// What was set for a whole port itself.
    fn own_port(&self, decl: u32) -> Option<Origins>
        ensures { option_map (numbers_at self.now.said) result ≡ lookup (λ d. decl == d) self.now.levels.ports }
    {
        match self.ports.get(&decl) {
            Some(origins) => Some(*origins),
            None => None,
        }
    }

    /// What was set for a bit itself.
    fn own_bit(&self, at: PortBit) -> Option<Origins>
        ensures { option_map (numbers_at self.now.said) result ≡ lookup (same_bit at) self.now.levels.bits }
    {
        match self.bits.get(&at) {
            Some(origins) => Some(*origins),
            None => None,
        }
    }

    /// What is set for all bits of a port.
    #[tactic(auto, using(crate::proofs::OriginLaws::all_or))]
    fn for_port(&self, decl: u32, role: PortRole) -> Option<Origins>
        ensures { option_map (numbers_at self.now.said) result ≡ for_port self.now.levels decl role }
    {
        or_all(self.own_port(decl), self.for_role(role))
    }

    /// What is set for all bits of the port that has a bit.
    fn for_rest(&self, decl: u32, role: Option<PortRole>) -> Option<Origins>
        ensures { option_map (numbers_at self.now.said) result ≡ for_rest self.now.levels decl role }
    {
        match role {
            Some(role) => self.for_port(decl, role),
            None => None,
        }
    }

    /// What is set for a bit, by the mentions that set it.
    #[tactic(auto, using(crate::proofs::OriginLaws::all_or))]
    fn origins(&self, nets: &[Net], at: PortBit) -> Option<Origins>
        ensures { option_map (numbers_at self.now.said) result ≡ for_bit nets.now self.now.levels at }
    {
        or_all(self.own_bit(at), self.for_rest(at.decl, role_at(nets, at)))
    }

    /// What is set for a bit.
    pub fn for_bit(&self, nets: &[Net], at: PortBit) -> Option<SetNumbers>
        ensures { result ≡ for_bit nets.now self.now.levels at }
    {
        match self.origins(nets, at) {
            Some(origins) => Some(origins.numbers(&self.said)),
            None => None,
        }
    }

    /// The mentions.
    pub fn said(&self) -> &Mentions
        ensures { result.now ≡ self.now.said }
    {
        &self.said
    }

    /// Sets for a bit what the earlier mention of this number does.
    fn set_bit(
        &mut self,
        nets: &[Net],
        at: PortBit,
        mention: Mention,
        number: u32,
    ) -> Result<(), AllocError>
        requires some { 0 < number }
        requires there { slice_get self.now.said (number - 1) ≡ Some mention }
        ensures { OnOk result
            (self.new ≡ record self.old { levels = with_bit nets.now at mention.change self.old.levels }) }
    {
        let origins = put_origins(self.origins(nets, at), mention.change, number);
        self.bits.insert(at, origins)?;
        Ok(())
    }

    /// Sets for a whole port what the earlier mention of this number does.
    fn set_port(&mut self, decl: u32, mention: Mention, number: u32) -> Result<(), AllocError>
        requires some { 0 < number }
        requires there { slice_get self.now.said (number - 1) ≡ Some mention }
        ensures { OnOk result
            (self.new ≡ record self.old { levels = with_port decl mention.change self.old.levels }) }
    {
        let change = mention.change;
        let origins = put_origins(self.for_port(decl, change.role()), change, number);
        self.ports.insert(decl, origins)?;
        Ok(())
    }

    /// Puts these for all ports of a direction.
    fn set_role(&mut self, role: PortRole, origins: Origins)
        ensures { self.new
            ≡ record self.old { levels = with_role role (numbers_at self.old.said origins) self.old.levels } }
    {
        match role {
            PortRole::Input => self.inputs = Some(origins),
            PortRole::Output => self.outputs = Some(origins),
            PortRole::Inner => {}
        }
    }

    /// Sets for all ports of a direction what the earlier mention of this number does.
    #[tactic(auto, using(crate::proofs::OriginLaws::origins_put))]
    fn set_all(&mut self, mention: Mention, number: u32)
        requires some { 0 < number }
        requires there { slice_get self.now.said (number - 1) ≡ Some mention }
        ensures { self.new ≡ record self.old { levels = with_all mention.change self.old.levels } }
    {
        let change = mention.change;
        let origins = put_origins(self.for_role(change.role()), change, number);
        self.set_role(change.role(), origins);
    }

    /// Sets what the earlier mention of this number does.
    fn set(&mut self, nets: &[Net], mention: Mention, number: u32) -> Result<(), AllocError>
        requires some { 0 < number }
        requires there { slice_get self.now.said (number - 1) ≡ Some mention }
        ensures { OnOk result (self.new
            ≡ record self.old { levels = with_place nets.now mention.bits mention.change self.old.levels }) }
    {
        match mention.bits {
            None => {
                self.set_all(mention, number);
                Ok(())
            }
            Some(bits) => {
                if bits.first == bits.last {
                    let (decl, bit) = (bits.decl, bits.first);
                    self.set_bit(nets, PortBit { decl, bit }, mention, number)
                } else {
                    self.set_port(bits.decl, mention, number)
                }
            }
        }
    }

    /// The levels of mentions, the last of which is looked at first, with the key of their text. There is no memory for
    /// 2^32 of them.
    #[tactic(auto, using(crate::proofs::KeptLaws::levels_more))]
    pub fn of(
        alloc: Global,
        key: TextKey,
        nets: &[Net],
        said: Mentions,
    ) -> Result<Levels, AllocError>
        ensures { IfOk result (λ l. l ≡ record { said = said; levels = levels_of nets.now said }) }
    {
        let Ok(count) = u32::try_from(said.len()) else {
            return Err(AllocError);
        };
        let mut levels = Levels::new(alloc, key, said);
        let mut number = count;
        'said: while number > 0 {
            let mention = levels.said.at(number as usize - 1);
            levels.set(nets, mention, number)?;
            number -= 1;
        }
        Ok(levels)
    }
}
