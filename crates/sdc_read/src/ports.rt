//! The bits of ports with what constraints say of them.

ghost use Rattle.std.specs.Prelude.{◌≡◌};
ghost use Rattle.std.specs.Option.{option_or};
ghost use Rattle.sdc_read.specs.Ports.{filled, or_zero, no_sides, settled, same_bit};
ghost use Rattle.sdc_read.specs.Ports.{IsTime, IsSize, AreTimes, AreSizes, AreInRange, IsInRange};

/// A bit of a port: the number `decl` of the port's net in its module, and the number of the bit as the range of a bus
/// has it, which is 0 for a net without a range.
#[derive(Clone, Copy, Debug, PartialEq, Eq, Hash)]
pub struct PortBit {
    pub decl: u32,
    pub bit: u32,
}

/// A number for each edge and side, in fs, where constraints give one.
#[derive(Clone, Copy, Debug, PartialEq, Eq)]
pub struct Sides {
    pub rise_min: Option<i64>,
    pub rise_max: Option<i64>,
    pub fall_min: Option<i64>,
    pub fall_max: Option<i64>,
}

/// What the commands of a text set for a bit of a port: delays and slews in fs, the load in aF.
#[derive(Clone, Copy)]
pub struct PortSides {
    pub input: Sides,
    pub output: Sides,
    pub slew: Sides,
    pub load: i64,
}

/// What constraints mean for a bit of a port: when it arrives as an input, when it is required as an output, its slews
/// as an input (all in fs), and its load as an output in aF. An edge of `input` has both sides or none, and then it is
/// quiet; `slew` has all four.
#[derive(Clone, Copy, Debug, PartialEq, Eq)]
pub struct PortSet {
    pub decl: u32,
    pub bit: u32,
    pub input: Sides,
    pub output: Sides,
    pub slew: Sides,
    pub load: i64,
}

/// The number, or the other one where there is none.
pub fn or_other(number: Option<i64>, other: Option<i64>) -> Option<i64>
    ensures value { result ≡ option_or number other }
    ensures times { IsTime number → IsTime other → IsTime result }
    ensures sizes { IsSize number → IsSize other → IsSize result }
{
    number.or(other)
}

impl PortBit {
    /// Whether it is the same bit of the same port.
    pub fn same(self, other: PortBit) -> bool
        ensures { result ≡ same_bit self other }
    {
        self.decl == other.decl && self.bit == other.bit
    }
}

impl Sides {
    /// No number.
    pub fn none() -> Sides
        ensures { result ≡ no_sides }
    {
        Sides {
            rise_min: None,
            rise_max: None,
            fall_min: None,
            fall_max: None,
        }
    }

    /// With the other side's number for a missing one.
    fn filled(self) -> Sides
        ensures value { result ≡ filled self }
        ensures times { AreTimes self → AreTimes result }
        ensures sizes { AreSizes self → AreSizes result }
    {
        Sides {
            rise_min: or_other(self.rise_min, self.rise_max),
            rise_max: or_other(self.rise_max, self.rise_min),
            fall_min: or_other(self.fall_min, self.fall_max),
            fall_max: or_other(self.fall_max, self.fall_min),
        }
    }

    /// With 0 for a missing number.
    fn or_zero(self) -> Sides
        ensures value { result ≡ or_zero self }
        ensures sizes { AreSizes self → AreSizes result }
    {
        Sides {
            rise_min: or_other(self.rise_min, Some(0)),
            rise_max: or_other(self.rise_max, Some(0)),
            fall_min: or_other(self.fall_min, Some(0)),
            fall_max: or_other(self.fall_max, Some(0)),
        }
    }
}

impl PortSides {
    /// What is meant by what is set for a bit.
    pub fn settled(self, at: PortBit) -> PortSet
        requires { AreInRange self }
        ensures value { result ≡ settled (at, self) }
        ensures range { IsInRange result }
    {
        PortSet {
            decl: at.decl,
            bit: at.bit,
            input: self.input.filled(),
            output: self.output,
            slew: self.slew.filled().or_zero(),
            load: self.load,
        }
    }
}
