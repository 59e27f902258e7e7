//! Numbers that commands set, where they do.

ghost use Rattle.std.specs.Prelude.{◌≡◌, None};
ghost use Rattle.sdc_read.specs.Ports.{no_sides, unset};
ghost use Rattle.sdc_read.specs.Changes.{chosen, with_number};
ghost use Rattle.sdc_read.specs.Levels.{or_sides, or_numbers, numbers_of, over_numbers, put};

use crate::change::Change;
use crate::ports::{PortSides, Sides, or_other};
use sdc_forms::Picked;

/// The numbers that commands set for a bit, a port or all ports, where they do: delays and slews in fs, the load in aF.
#[derive(Clone, Copy)]
pub struct SetNumbers {
    pub input: Sides,
    pub output: Sides,
    pub slew: Sides,
    pub load: Option<i64>,
}

/// A number, where it is picked.
fn number_if(picked: bool, number: i64) -> Option<i64>
    ensures { result ≡ chosen picked number None }
{
    if picked { Some(number) } else { None }
}

/// A number for the picked edges and sides.
fn picked_sides(picked: Picked, number: i64) -> Sides
    ensures { result ≡ with_number picked number no_sides }
{
    Sides {
        rise_min: number_if(picked.rise && picked.min, number),
        rise_max: number_if(picked.rise && picked.max, number),
        fall_min: number_if(picked.fall && picked.min, number),
        fall_max: number_if(picked.fall && picked.max, number),
    }
}

/// The first's numbers, and the other's where it has none.
fn or_sides(first: Sides, other: Sides) -> Sides
    ensures { result ≡ or_sides first other }
{
    Sides {
        rise_min: or_other(first.rise_min, other.rise_min),
        rise_max: or_other(first.rise_max, other.rise_max),
        fall_min: or_other(first.fall_min, other.fall_min),
        fall_max: or_other(first.fall_max, other.fall_max),
    }
}

impl SetNumbers {
    /// The numbers that a command sets.
    pub fn of(change: Change) -> SetNumbers
        ensures { result ≡ numbers_of change }
    {
        let none = SetNumbers {
            input: Sides::none(),
            output: Sides::none(),
            slew: Sides::none(),
            load: None,
        };
        match change {
            Change::InputDelay(picked, number) => SetNumbers {
                input: picked_sides(picked, number),
                ..none
            },
            Change::OutputDelay(picked, number) => SetNumbers {
                output: picked_sides(picked, number),
                ..none
            },
            Change::Slew(picked, number) => SetNumbers {
                slew: picked_sides(picked, number),
                ..none
            },
            Change::Load(number) => SetNumbers {
                load: Some(number),
                ..none
            },
        }
    }

    /// These numbers, and the other ones where there are none.
    pub fn or(self, other: SetNumbers) -> SetNumbers
        ensures { result ≡ or_numbers self other }
    {
        SetNumbers {
            input: or_sides(self.input, other.input),
            output: or_sides(self.output, other.output),
            slew: or_sides(self.slew, other.slew),
            load: or_other(self.load, other.load),
        }
    }

    /// What is set for a bit by these numbers.
    pub fn sides(self) -> PortSides
        ensures { result ≡ over_numbers self unset }
    {
        PortSides {
            input: or_sides(self.input, Sides::none()),
            output: or_sides(self.output, Sides::none()),
            slew: or_sides(self.slew, Sides::none()),
            load: self.load.unwrap_or(0),
        }
    }
}

/// Later numbers, and an earlier command's where they have none.
pub fn put(later: Option<SetNumbers>, change: Change) -> SetNumbers
    ensures { result ≡ put later change }
{
    let earlier = SetNumbers::of(change);
    match later {
        None => earlier,
        Some(later) => later.or(earlier),
    }
}
