//! What the forms of a text mean, one after another.

ghost use Rattle.std.specs.Prelude.{◌≡◌, ℕ, ℤ, pos, neg_ℤ, ◌≤ℤ◌, false, [], Ok, IfOk, MatchOption};
ghost use Rattle.spef_read.specs.Meaning.{nothing, with_separator, are_brackets, set_separator, brackets_by, set_pair};
ghost use Rattle.spef_read.specs.Meaning.{set_brackets, unit_number, set_unit, with_units, pair_number, end_pair, node};
ghost use Rattle.spef_read.specs.Meaning.{net_name, net_total, first_node, cap_node, res_node, cap_value, res_value};
ghost use Rattle.spef_read.specs.Meaning.{end_net};
ghost use Rattle.spef_read.specs.Reading.{parasitics_in};
ghost use Rattle.text_forms.specs.Misfits.{IsFurther};
ghost use Rattle.text_forms.specs.Stops.{Changes, Answers, Computes, Reads, refusal_of};

use crate::context::Context;
use crate::forms::read_form;
use crate::item::{FormRead, Item, Quantity, Separator};
use crate::map::NameMap;
use crate::marks::Marks;
use crate::names::{pair_name, whole_name};
use crate::parasitics::{CapText, NameId, Parasitics, ResText, WireText};
use crate::sort::Sort;
use crate::values::{unit_power, value_of};
use crate::words::without_zeros;
use name_numbers::TextKey;
use name_parts::{PrefixedName, PrefixedTable};
use std::alloc::Global;
use std::marker::Model;
use text_forms::{FormReader, Refused, Stop, Terms};
use xt_model::{Code, Row};
use xt_number::power_of_ten;

/// What the forms of a text said so far.
#[derive(Drop)]
pub struct Progress<'a> {
    marks: Marks,
    quantity: Quantity,
    power: i32,
    cap_scale: Option<i32>,
    res_scale: Option<i32>,
    map: NameMap<'a>,
    index: &'a [u8],
    names: PrefixedTable<Option<u32>>,
    nets: Vec<WireText>,
    net: NameId,
    total: i64,
    caps: Vec<CapText>,
    resistors: Vec<ResText>,
    first: NameId,
    cap_second: Option<NameId>,
    res_second: NameId,
    /// The name that was made last.
    made: PrefixedName,
}

impl<'a> Model for Progress<'a> {
    ghost use Rattle.std.specs.Prelude.{IfSome, pos, neg_ℤ, ◌≤ℤ◌};
    ghost use Rattle.spef_read.specs.Meaning.{State};
    ghost use Rattle.xt_number.specs.Quantities.{IsScale};

    ghost Value = { State };

    ghost view = { λ s. record {
      marks = s.marks;
      quantity = s.quantity;
      power = s.power;
      cap_scale = s.cap_scale;
      res_scale = s.res_scale;
      map = s.map;
      index = s.index.now;
      names = s.names;
      nets = s.nets.items;
      net = s.net;
      total = s.total;
      caps = s.caps.items;
      resistors = s.resistors.items;
      first = s.first;
      cap_second = s.cap_second;
      res_second = s.res_second;
    } };

    ghost invariant = { λ s. (neg_ℤ (pos 3) ≤ℤ s.power) × (s.power ≤ℤ pos 3)
        × IfSome s.cap_scale IsScale × IfSome s.res_scale IsScale };
}

impl Marks {
    /// The marks with another divider or delimiter.
    fn with_separator(self, which: Separator, byte: u8) -> Marks
        ensures { result ≡ with_separator which byte self }
    {
        match which {
            Separator::Divider => Marks {
                divider: byte,
                ..self
            },
            Separator::Delimiter => Marks {
                delimiter: byte,
                ..self
            },
        }
    }
}

/// Whether two brackets belong together.
fn are_brackets(left: u8, right: u8) -> bool
    ensures { result ≡ are_brackets left right }
{
    left == b'[' && right == b']'
        || (left == b'<' && right == b'>' || left == b'(' && right == b')')
}

impl<'a> Progress<'a> {
    /// Nothing read of the text with this key.
    pub fn new(alloc: Global, key: TextKey) -> Progress<'a>
        ensures { result ≡ nothing }
    {
        let first = NameId { number: 0 };
        Progress {
            marks: Marks {
                divider: b'/',
                delimiter: b':',
                left: b'[',
                right: b']',
            },
            quantity: Quantity::Time,
            power: 0,
            cap_scale: None,
            res_scale: None,
            map: NameMap::new(alloc, key),
            index: b"",
            names: PrefixedTable::new(alloc, key),
            nets: Vec::new(alloc),
            net: first,
            total: 0,
            caps: Vec::new(alloc),
            resistors: Vec::new(alloc),
            first,
            cap_second: None,
            res_second: first,
            made: PrefixedName::new(alloc),
        }
    }

    /// One of the marks of names.
    fn set_separator(&mut self, which: Separator, word: &[u8]) -> Result<(), Stop>
        ensures { Changes result self.new (set_separator which word.now self.old) }
    {
        match word {
            [byte] => {
                self.marks = self.marks.with_separator(which, *byte);
                Ok(())
            }
            _ => Err(Stop::Refused(Code::S1)),
        }
    }

    /// The brackets of a bus's bit, if they belong together.
    fn brackets_by(&mut self, left: u8, right: u8) -> Result<(), Stop>
        ensures { Changes result self.new (brackets_by left right self.old) }
    {
        if !are_brackets(left, right) {
            return Err(Stop::Refused(Code::S1));
        }
        self.marks.left = left;
        self.marks.right = right;
        Ok(())
    }

    /// The brackets of a bus's bit, in one word.
    fn set_pair(&mut self, word: &[u8]) -> Result<(), Stop>
        ensures { Changes result self.new (set_pair word.now self.old) }
    {
        match word {
            [left, right] => self.brackets_by(*left, *right),
            _ => Err(Stop::Refused(Code::S1)),
        }
    }

    /// The brackets of a bus's bit, in two words.
    fn set_brackets(&mut self, left: &[u8], right: &[u8]) -> Result<(), Stop>
        ensures { Changes result self.new (set_brackets left.now right.now self.old) }
    {
        match (left, right) {
            ([left], [right]) => self.brackets_by(*left, *right),
            _ => Err(Stop::Refused(Code::S1)),
        }
    }

    /// The number of a unit.
    #[tactic(auto, unfolding(crate::specs::Meaning::unit_number))]
    fn unit_number(&mut self, quantity: Quantity, word: &[u8]) -> Result<(), Stop>
        ensures { Changes result self.new (unit_number quantity word.now self.old) }
    {
        let Some(power) = power_of_ten(word) else {
            return Err(Stop::Refused(Code::S1));
        };
        self.quantity = quantity;
        self.power = power;
        Ok(())
    }

    /// A unit.
    #[tactic(auto, unfolding(crate::specs::Meaning::set_unit))]
    fn set_unit(&mut self, word: &[u8]) -> Result<(), Stop>
        ensures { Changes result self.new (set_unit word.now self.old) }
    {
        let Some(power) = unit_power(self.quantity, word) else {
            return Err(Stop::Refused(Code::S4));
        };
        let scale = power + self.power;
        match self.quantity {
            Quantity::Capacitance => self.cap_scale = Some(scale),
            Quantity::Resistance => self.res_scale = Some(scale),
            Quantity::Time => {}
            Quantity::Inductance => {}
        }
        Ok(())
    }

    /// The units of capacitance and resistance have to be known.
    #[tactic(auto, unfolding(crate::specs::Meaning::with_units))]
    fn with_units(&mut self) -> Result<(), Stop>
        ensures { Changes result self.new (with_units self.old) }
    {
        if self.cap_scale.is_some() && self.res_scale.is_some() {
            Ok(())
        } else {
            Err(Stop::Refused(Code::S4))
        }
    }

    /// The number of a pair.
    #[tactic(auto, unfolding(crate::specs::Meaning::pair_number))]
    fn pair_number(&mut self, word: &'a [u8]) -> Result<(), Stop>
        ensures { Changes result self.new (pair_number word.entry.now self.old) }
    {
        let digits = match word {
            [_, digits @ ..] => digits,
            [] => word,
        };
        let index = without_zeros(digits);
        if self.map.has(index) {
            return Err(Stop::Refused(Code::S5));
        }
        self.index = index;
        Ok(())
    }

    /// The name of a pair.
    #[tactic(auto, unfolding(crate::specs::Meaning::end_pair))]
    fn end_pair(&mut self, alloc: Global, word: &[u8]) -> Result<(), Stop>
        ensures { Changes result self.new (end_pair word.now self.old) }
    {
        let name = pair_name(alloc, self.marks, word)?;
        self.map.set(self.index, name)?;
        Ok(())
    }

    /// The name of a node.
    #[tactic(auto, unfolding(crate::specs::Meaning::node))]
    fn node(&mut self, alloc: Global, word: &'a [u8]) -> Result<NameId, Stop>
        ensures { Answers result self.new (node word.entry.now self.old) }
    {
        whole_name(self.marks, &mut self.map, word, &mut self.made)?;
        if let Some((number, _)) = self.names.find(&self.made) {
            return Ok(NameId { number });
        }
        let number = self.names.len();
        self.names.set(alloc, &self.made, None)?;
        Ok(NameId { number })
    }

    /// The name of a net.
    #[tactic(auto, unfolding(crate::specs::Meaning::net_name))]
    fn net_name(&mut self, alloc: Global, word: &'a [u8]) -> Result<(), Stop>
        ensures { Changes result self.new (net_name word.entry.now self.old) }
    {
        whole_name(self.marks, &mut self.map, word, &mut self.made)?;
        let number = match self.names.find(&self.made) {
            Some((number, net)) => {
                if net.is_some() {
                    return Err(Stop::Refused(Code::S6));
                }
                number
            }
            None => self.names.len(),
        };
        let Ok(net) = u32::try_from(self.nets.len()) else {
            return Err(Stop::NoMemory);
        };
        self.names.set(alloc, &self.made, Some(net))?;
        self.net = NameId { number };
        Ok(())
    }

    /// The total capacitance of a net.
    fn net_total(&mut self, word: &[u8]) -> Result<(), Stop>
        ensures { Changes result self.new (net_total word.now self.old) }
    {
        self.total = value_of(word, self.cap_scale)?;
        Ok(())
    }

    /// The first node of an element.
    fn first_node(&mut self, alloc: Global, word: &'a [u8]) -> Result<(), Stop>
        ensures { Changes result self.new (first_node word.entry.now self.old) }
    {
        self.first = self.node(alloc, word)?;
        self.cap_second = None;
        Ok(())
    }

    /// The second node of a capacitor.
    fn cap_node(&mut self, alloc: Global, word: &'a [u8]) -> Result<(), Stop>
        ensures { Changes result self.new (cap_node word.entry.now self.old) }
    {
        let name = self.node(alloc, word)?;
        self.cap_second = Some(name);
        Ok(())
    }

    /// The second node of a resistor.
    fn res_node(&mut self, alloc: Global, word: &'a [u8]) -> Result<(), Stop>
        ensures { Changes result self.new (res_node word.entry.now self.old) }
    {
        self.res_second = self.node(alloc, word)?;
        Ok(())
    }

    /// The value of a capacitor.
    fn cap_value(&mut self, word: &[u8]) -> Result<(), Stop>
        ensures { Changes result self.new (cap_value word.now self.old) }
    {
        let value = value_of(word, self.cap_scale)?;
        self.caps.push(CapText {
            a: self.first,
            b: self.cap_second,
            value,
        })?;
        Ok(())
    }

    /// The value of a resistor.
    fn res_value(&mut self, word: &[u8]) -> Result<(), Stop>
        ensures { Changes result self.new (res_value word.now self.old) }
    {
        let value = value_of(word, self.res_scale)?;
        self.resistors.push(ResText {
            a: self.first,
            b: self.res_second,
            value,
        })?;
        Ok(())
    }

    /// The end of a net.
    fn end_net(&mut self, alloc: Global) -> Result<(), Stop>
        ensures { Changes result self.new (Ok (end_net self.old)) }
    {
        let caps = Vec::from_slice(alloc, self.caps.as_slice())?;
        let resistors = Vec::from_slice(alloc, self.resistors.as_slice())?;
        self.nets.push(WireText {
            name: self.net,
            total: self.total,
            caps: Row::from_vec(caps),
            resistors: Row::from_vec(resistors),
        })?;
        self.caps.clear();
        self.resistors.clear();
        Ok(())
    }

    /// The nets that ended, with their names.
    pub fn into_parasitics(self) -> Parasitics
        ensures { Ok result ≡ parasitics_in (Ok self.entry) }
    {
        Parasitics {
            delimiter: self.marks.delimiter,
            names: self.names,
            nets: Row::from_vec(self.nets),
        }
    }
}

impl<'a> FormReader for Progress<'a> {
    ghost use Rattle.spef_read.specs.Forms.{Slot, fits, forms_in, is_done, first_form, misfit};
    ghost use Rattle.spef_read.specs.declared.sort.Sort.TheVariants.{End};
    ghost use Rattle.spef_read.specs.Forms as grammar;
    ghost use Rattle.spef_read.specs.Meaning.{State, means};
    ghost use Rattle.spef_read.specs.View.{item_text, whole_of};

    type Sort = Sort;

    type Terms = Terms<'a, Sort>;

    type Context = Context;

    type Item = Item<'a>;

    ghost tokens = { λ ts. ts };

    ghost Slot = { Slot };

    ghost Said = { grammar.Item };

    ghost fits = { fits };

    ghost forms_in = { forms_in };

    ghost is_done = { is_done };

    ghost item_of = { item_text };

    ghost State = { State };

    ghost state_of = { λ s. s };

    ghost means = { means };

    #[inline]
    fn is_done(context: Context) -> bool
        ensures { result ≡ is_done context }
    {
        matches!(context, Context::Done)
    }

    fn read_form(context: Context, terms: &mut Terms<'a, Sort>) -> Result<FormRead<'a>, Refused>
        requires { is_done context ≡ false }
        ensures { Reads (λ r. (whole_of r, terms.new)) result (first_form (forms_in context) terms.old) }
    {
        read_form(context, terms)
    }

    fn further(terms: &mut Terms<'a, Sort>) -> Option<Refused>
        ensures { MatchOption result (terms.old ≡ []) (λ r. IsFurther (refusal_of r) misfit End terms.old) }
    {
        terms.further()
    }

    #[tactic(auto, unfolding(crate::specs::Meaning::means))]
    fn act(&mut self, alloc: Global, item: Item<'a>) -> Result<(), Stop>
        ensures { Changes result self.new (means (item_text item.entry) self.old) }
    {
        match item {
            Item::Nothing => Ok(()),
            Item::Refused(code) => Err(Stop::Refused(code)),
            Item::Separator(which, word) => self.set_separator(which, word),
            Item::Pair(word) => self.set_pair(word),
            Item::Brackets(left, right) => self.set_brackets(left, right),
            Item::UnitNumber(quantity, word) => self.unit_number(quantity, word),
            Item::Unit(word) => self.set_unit(word),
            Item::PairNumber(word) => self.pair_number(word),
            Item::PairName(word) => self.end_pair(alloc, word),
            Item::NetBegins => self.with_units(),
            Item::NetName(word) => self.net_name(alloc, word),
            Item::Total(word) => self.net_total(word),
            Item::FirstNode(word) => self.first_node(alloc, word),
            Item::CapNode(word) => self.cap_node(alloc, word),
            Item::ResNode(word) => self.res_node(alloc, word),
            Item::CapValue(word) => self.cap_value(word),
            Item::ResValue(word) => self.res_value(word),
            Item::NetEnds => self.end_net(alloc),
            Item::TextEnds => self.with_units(),
        }
    }
}
