//! What the forms of a netlist mean, one after another.

ghost use Rattle.std.specs.Prelude.{◌≡◌, ℕ, false, [], map, Ok, MatchOption};
ghost use Rattle.std.specs.List.{list_all};
ghost use Rattle.verilog_net.specs.Nets.{is_port, named_bit};
ghost use Rattle.verilog_net.specs.Meaning.{nothing, begin_module, name_module, list_name, end_module, declare};
ghost use Rattle.verilog_net.specs.Meaning.{with_further, declare_new};
ghost use Rattle.verilog_net.specs.Meaning.{declare_scalar, left_bound, right_bound, begin_further, begin_instance};
ghost use Rattle.verilog_net.specs.Meaning.{begin_pin, connect, connect_name, connect_bit, end_instance};
ghost use Rattle.text_forms.specs.Misfits.{IsFurther};
ghost use Rattle.text_forms.specs.Stops.{Changes, Reads, refusal_of};

use crate::context::Context;
use crate::forms::read_form;
use crate::item::{FormRead, Item};
use crate::name::Name;
use crate::netlist::{Instance, Net, Netlist, PortRole, Wire};
use crate::nets::{has_bit, has_bit_net, is_port, named_bit, note_net, number_of, same_range};
use crate::pin_names::PinNames;
use crate::sort::Sort;
use name_numbers::{NameTable, Named, Names, TextKey};
use std::alloc::Global;
use std::marker::Model;
use std::mem;
use text_forms::{FormReader, Refused, Stop, Terms};
use xt_model::{Code, Row};

/// What the forms of a netlist said so far.
#[derive(Drop)]
pub struct Progress<'a> {
    key: TextKey,
    single: bool,
    ended: Vec<Netlist>,
    modules: Names<'a>,
    current: &'a [u8],
    header: Vec<&'a [u8]>,
    nets: NameTable<Net>,
    bit_nets: Named<'a, Row<u32>>,
    instance_names: Names<'a>,
    instances: Vec<Instance>,
    role: PortRole,
    left: u32,
    range: Option<(u32, u32)>,
    cell: Name,
    instance: &'a [u8],
    line: u32,
    pin_names: PinNames<'a>,
    pins: Vec<(Name, Wire)>,
    pin: &'a [u8],
}

impl<'a> Model for Progress<'a> {
    ghost use Rattle.std.specs.Prelude.{map};
    ghost use Rattle.verilog_net.specs.Meaning.{State};

    ghost Value = { State };

    ghost view = { λ s. record {
      single = s.single;
      ended = s.ended.items;
      modules = s.modules;
      current = s.current.now;
      header = map (λ n. n.now) s.header.items;
      nets = s.nets;
      bit_nets = s.bit_nets;
      instance_names = s.instance_names;
      instances = s.instances.items;
      role = s.role;
      left = s.left;
      range = s.range;
      cell = s.cell;
      instance = s.instance.now;
      line = s.line;
      pin_names = s.pin_names;
      pins = s.pins.items;
      pin = s.pin.now;
    } };
}

/// Whether each of the names is that of a port.
fn are_ports(nets: &NameTable<Net>, names: &[&[u8]]) -> bool
    ensures { result ≡ list_all (λ name. is_port name nets.now) (map (λ n. n.now) names.now) }
{
    let mut rest = names;
    'names: while let [name, more @ ..] = rest {
        if !is_port(nets, *name) {
            return false;
        }
        rest = more;
    }
    true
}

impl<'a> Progress<'a> {
    /// Nothing read of the text with this key. `single` says whether one module alone is admitted, and no whole bus as
    /// a connection.
    pub fn new(alloc: Global, key: TextKey, single: bool) -> Progress<'a>
        ensures { result ≡ nothing single }
    {
        Progress {
            key,
            single,
            ended: Vec::new(alloc),
            modules: Names::new(alloc, key),
            current: b"",
            header: Vec::new(alloc),
            nets: NameTable::new(alloc, key),
            bit_nets: Named::new(alloc, key),
            instance_names: Names::new(alloc, key),
            instances: Vec::new(alloc),
            role: PortRole::Inner,
            left: 0,
            range: None,
            cell: Name::empty(),
            instance: b"",
            line: 0,
            pin_names: PinNames::new(alloc, key),
            pins: Vec::new(alloc),
            pin: b"",
        }
    }

    /// A further module.
    #[tactic(auto, unfolding(crate::specs::Meaning::begin_module))]
    fn begin_module(&mut self) -> Result<(), Stop>
        ensures { Changes result self.new (begin_module self.old) }
    {
        if self.single && !self.ended.is_empty() {
            return Err(Stop::Refused(Code::V3));
        }
        Ok(())
    }

    /// The name of a module.
    #[tactic(auto, unfolding(crate::specs::Meaning::name_module))]
    fn name_module(&mut self, alloc: Global, name: &'a [u8]) -> Result<(), Stop>
        ensures { Changes result self.new (name_module name.entry.now self.old) }
    {
        let (_, fresh) = self.modules.enter(name)?;
        if !fresh {
            return Err(Stop::Refused(Code::V5));
        }
        self.current = name;
        self.header = Vec::new(alloc);
        mem::drop(mem::replace(&mut self.bit_nets, Named::new(alloc, self.key)));
        mem::drop(mem::replace(&mut self.instance_names, Names::new(alloc, self.key)));
        Ok(())
    }

    /// A name of the header.
    fn list_name(&mut self, name: &'a [u8]) -> Result<(), Stop>
        ensures { Changes result self.new (Ok (list_name name.entry.now self.old)) }
    {
        self.header.push(name)?;
        Ok(())
    }

    /// The end of a module.
    #[tactic(auto, unfolding(crate::specs::Meaning::end_module))]
    fn end_module(&mut self, alloc: Global) -> Result<(), Stop>
        ensures { Changes result self.new (end_module self.old) }
    {
        if !are_ports(&self.nets, self.header.as_slice()) {
            return Err(Stop::Refused(Code::V4));
        }
        let module = Name::copied(alloc, self.current)?;
        let nets = mem::replace(&mut self.nets, NameTable::new(alloc, self.key));
        let instances = mem::replace(&mut self.instances, Vec::new(alloc));
        self.ended.push(Netlist {
            module,
            nets,
            instances: Row::from_vec(instances),
        })?;
        Ok(())
    }

    /// A further net.
    fn further_net(&mut self, alloc: Global, name: &'a [u8], net: Net) -> Result<(), Stop>
        ensures { Changes result self.new (Ok (with_further name.entry.now net self.old)) }
    {
        self.nets.set(alloc, name, net)?;
        note_net(alloc, &mut self.bit_nets, name)?;
        Ok(())
    }

    /// Declares a name.
    #[tactic(auto, unfolding(crate::specs::Meaning::declare))]
    fn declare(&mut self, alloc: Global, name: &'a [u8]) -> Result<(), Stop>
        ensures { Changes result self.new (declare name.entry.now self.old) }
    {
        let Some((_, net)) = self.nets.find(name) else {
            return self.declare_new(alloc, name);
        };
        let Some(role) = net.role.joined(self.role) else {
            return Err(Stop::Refused(Code::V3));
        };
        if !same_range(net.range, self.range) {
            return Err(Stop::Refused(Code::V3));
        }
        let net = Net {
            range: self.range,
            role,
            declared: true,
        };
        self.nets.set(alloc, name, net)?;
        Ok(())
    }

    /// Declares a name that no net has.
    fn declare_new(&mut self, alloc: Global, name: &'a [u8]) -> Result<(), Stop>
        ensures { Changes result self.new
            (declare_new name.entry.now self.old (named_bit name.entry.now self.old.nets)) }
    {
        if named_bit(&self.nets, name).is_some() {
            return Err(Stop::Refused(Code::V3));
        }
        if has_bit_net(&self.bit_nets, name, self.range) {
            return Err(Stop::Refused(Code::V3));
        }
        let net = Net {
            range: self.range,
            role: self.role,
            declared: true,
        };
        self.further_net(alloc, name, net)
    }

    /// Declares a name without a range.
    fn declare_scalar(&mut self, alloc: Global, role: PortRole, name: &'a [u8]) -> Result<(), Stop>
        ensures { Changes result self.new (declare_scalar role name.entry.now self.old) }
    {
        self.role = role;
        self.range = None;
        self.declare(alloc, name)
    }

    /// The left bound of a range.
    #[tactic(auto, unfolding(crate::specs::Meaning::left_bound))]
    fn left_bound(&mut self, role: PortRole, digits: &'a [u8]) -> Result<(), Stop>
        ensures { Changes result self.new (left_bound role digits.entry.now self.old) }
    {
        let Some(left) = number_of(digits) else {
            return Err(Stop::Refused(Code::V6));
        };
        self.role = role;
        self.left = left;
        Ok(())
    }

    /// The right bound of a range.
    #[tactic(auto, unfolding(crate::specs::Meaning::right_bound))]
    fn right_bound(&mut self, digits: &'a [u8]) -> Result<(), Stop>
        ensures { Changes result self.new (right_bound digits.entry.now self.old) }
    {
        let Some(right) = number_of(digits) else {
            return Err(Stop::Refused(Code::V6));
        };
        self.range = Some((self.left, right));
        Ok(())
    }

    /// An instance of the same cell as the one before.
    #[tactic(auto, unfolding(crate::specs::Meaning::begin_further))]
    fn begin_further(&mut self, alloc: Global, name: &'a [u8], line: u32) -> Result<(), Stop>
        ensures { Changes result self.new (begin_further name.entry.now line self.old) }
    {
        let (_, fresh) = self.instance_names.enter(name)?;
        if !fresh {
            return Err(Stop::Refused(Code::V5));
        }
        self.instance = name;
        self.line = line;
        self.pin_names.clear(alloc);
        Ok(())
    }

    /// An instance of a cell.
    fn begin_instance(
        &mut self,
        alloc: Global,
        cell: &'a [u8],
        name: &'a [u8],
        line: u32,
    ) -> Result<(), Stop>
        ensures { Changes result self.new (begin_instance cell.entry.now name.entry.now line self.old) }
    {
        self.cell = Name::copied(alloc, cell)?;
        self.begin_further(alloc, name, line)
    }

    /// A pin of the instance.
    #[tactic(auto, unfolding(crate::specs::Meaning::begin_pin))]
    fn begin_pin(&mut self, name: &'a [u8]) -> Result<(), Stop>
        ensures { Changes result self.new (begin_pin name.entry.now self.old) }
    {
        if !self.pin_names.enter(name)? {
            return Err(Stop::Refused(Code::V5));
        }
        self.pin = name;
        Ok(())
    }

    /// Connects the pin.
    fn connect(&mut self, alloc: Global, wire: Wire) -> Result<(), Stop>
        ensures { Changes result self.new (Ok (connect wire self.old)) }
    {
        let pin = Name::copied(alloc, self.pin)?;
        self.pins.push((pin, wire))?;
        Ok(())
    }

    /// Connects the pin to a name.
    #[tactic(auto, unfolding(crate::specs::Meaning::connect_name))]
    fn connect_name(&mut self, alloc: Global, name: &'a [u8]) -> Result<(), Stop>
        ensures { Changes result self.new (connect_name name.entry.now self.old) }
    {
        if let Some((decl, net)) = self.nets.find(name) {
            let range = net.range;
            if range.is_none() {
                return self.connect(alloc, Wire::Bit { decl, bit: 0 });
            }
            if self.single {
                return Err(Stop::Refused(Code::V3));
            }
            return self.connect(alloc, Wire::Whole { decl });
        }
        if let Some((decl, bit, _)) = named_bit(&self.nets, name) {
            return self.connect(alloc, Wire::Bit { decl, bit });
        }
        let decl = self.nets.len();
        let net = Net {
            range: None,
            role: PortRole::Inner,
            declared: false,
        };
        self.further_net(alloc, name, net)?;
        self.connect(alloc, Wire::Bit { decl, bit: 0 })
    }

    /// Connects the pin to a bit.
    #[tactic(auto, unfolding(crate::specs::Meaning::connect_bit))]
    fn connect_bit(&mut self, alloc: Global, name: &'a [u8], digits: &'a [u8]) -> Result<(), Stop>
        ensures { Changes result self.new (connect_bit name.entry.now digits.entry.now self.old) }
    {
        let Some((decl, net)) = self.nets.find(name) else {
            return Err(Stop::Refused(Code::V4));
        };
        if !net.declared {
            return Err(Stop::Refused(Code::V4));
        }
        let (Some(range), Some(bit)) = (net.range, number_of(digits)) else {
            return Err(Stop::Refused(Code::V6));
        };
        if !has_bit(range, bit) {
            return Err(Stop::Refused(Code::V6));
        }
        self.connect(alloc, Wire::Bit { decl, bit })
    }

    /// The end of an instance.
    fn end_instance(&mut self, alloc: Global) -> Result<(), Stop>
        ensures { Changes result self.new (Ok (end_instance self.old)) }
    {
        // A list of just their number: to shrink the other one would leave a hole after each instance.
        let mut pins = Vec::with_capacity(alloc, self.pins.len())?;
        pins.append(&mut self.pins)?;
        let name = Name::copied(alloc, self.instance)?;
        // Its bytes are kept once for all instances of a statement.
        let cell = self.cell.shared()?;
        self.instances.push(Instance {
            cell,
            name,
            line: self.line,
            pins: Row::from_vec(pins),
        })?;
        Ok(())
    }

    /// The modules that ended.
    pub fn into_ended(self, alloc: Global) -> Vec<Netlist>
        ensures { result.items ≡ self.entry.ended }
    {
        let mut state = self;
        let ended = mem::replace(&mut state.ended, Vec::new(alloc));
        mem::drop(state);
        ended
    }
}

impl<'a> FormReader for Progress<'a> {
    ghost use Rattle.verilog_net.specs.declared.sort.Sort.{Sort};
    ghost use Rattle.verilog_net.specs.Sorts.{same_sort};
    ghost use Rattle.verilog_net.specs.declared.sort.Sort.TheVariants.{End};
    ghost use Rattle.verilog_net.specs.Forms.{forms_in, is_done, first_form, misfit};
    ghost use Rattle.verilog_net.specs.Forms as grammar;
    ghost use Rattle.verilog_net.specs.Meaning.{State, means};
    ghost use Rattle.verilog_net.specs.View.{item_text, whole_of};

    type Sort = Sort;

    type Terms = Terms<'a, Sort>;

    type Context = Context;

    type Item = Item<'a>;

    ghost tokens = { λ ts. ts };

    ghost Slot = { Sort };

    ghost Said = { grammar.Item };

    ghost fits = { same_sort };

    ghost forms_in = { forms_in };

    ghost is_done = { is_done };

    ghost item_of = { item_text };

    ghost State = { State };

    ghost state_of = { λ s. s };

    ghost means = { means };

    fn is_done(context: Context) -> bool
        ensures { result ≡ is_done context }
    {
        matches!(context, Context::Done)
    }

    fn read_form(context: Context, terms: &mut Terms<'a, Sort>) -> Result<FormRead<'a>, Refused>
        requires { is_done context ≡ false }
        ensures { Reads (λ r. (whole_of r, terms.new)) result (first_form (forms_in context) terms.old) }
    {
        read_form(context, terms)
    }

    fn further(terms: &mut Terms<'a, Sort>) -> Option<Refused>
        ensures { MatchOption result (terms.old ≡ []) (λ r. IsFurther (refusal_of r) misfit End terms.old) }
    {
        terms.further()
    }

    #[tactic(auto, unfolding(crate::specs::Meaning::means))]
    fn act(&mut self, alloc: Global, item: Item<'a>) -> Result<(), Stop>
        ensures { Changes result self.new (means (item_text item.entry) self.old) }
    {
        match item {
            Item::Nothing => Ok(()),
            Item::Refused(code) => Err(Stop::Refused(code)),
            Item::ModuleBegins => self.begin_module(),
            Item::ModuleName(name) => self.name_module(alloc, name),
            Item::Listed(name) => self.list_name(name),
            Item::ModuleEnds => self.end_module(alloc),
            Item::Scalar(role, name) => self.declare_scalar(alloc, role, name),
            Item::Left(role, digits) => self.left_bound(role, digits),
            Item::Right(digits) => self.right_bound(digits),
            Item::Further(name) => self.declare(alloc, name),
            Item::Instance(cell, name, line) => self.begin_instance(alloc, cell, name, line),
            Item::FurtherInstance(name, line) => self.begin_further(alloc, name, line),
            Item::Pin(name) => self.begin_pin(name),
            Item::NoConnection => self.connect(alloc, Wire::Open),
            Item::Constant => self.connect(alloc, Wire::Constant),
            Item::Net(name) => self.connect_name(alloc, name),
            Item::Bit(bus, digits) => self.connect_bit(alloc, bus, digits),
            Item::InstanceEnds => self.end_instance(alloc),
        }
    }
}
