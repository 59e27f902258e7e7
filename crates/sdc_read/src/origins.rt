//! Numbers by the mentions that set them.

ghost use Rattle.std.specs.Prelude.{◌≡◌, ◌&&◌};
ghost use Rattle.sdc_read.specs.Origins.{number_in, number_at, sides_at, numbers_at, or_number, or_side_origins};
ghost use Rattle.sdc_read.specs.Origins.{or_origins, number_if, picked_origins, no_side_origins, origins_of, or_all};
ghost use Rattle.sdc_read.specs.Origins.{put_origins};

use crate::change::Change;
use crate::mentions::Mentions;
use crate::ports::Sides;
use crate::set_numbers::SetNumbers;
use sdc_forms::Picked;

/// For each edge and side the mention that sets its number, as the mention's place and 1 more; 0 where none does.
#[derive(Clone, Copy)]
pub struct SideOrigins {
    pub rise_min: u32,
    pub rise_max: u32,
    pub fall_min: u32,
    pub fall_max: u32,
}

/// The same for all numbers of a bit, a port or all ports.
#[derive(Clone, Copy)]
pub struct Origins {
    pub input: SideOrigins,
    pub output: SideOrigins,
    pub slew: SideOrigins,
    pub load: u32,
}

/// The number that a command sets.
fn number_in(change: Change) -> i64
    ensures { result ≡ number_in change }
{
    match change {
        Change::InputDelay(_, number) => number,
        Change::OutputDelay(_, number) => number,
        Change::Slew(_, number) => number,
        Change::Load(number) => number,
    }
}

/// The number that the mention at a place sets, 0 where none is there; none for place 0, since places count from 1.
fn number_at(said: &Mentions, origin: u32) -> Option<i64>
    ensures { result ≡ number_at said.now origin }
{
    if origin == 0 {
        return None;
    }
    let place = origin as usize - 1;
    if place < said.len() {
        Some(number_in(said.at(place).change))
    } else {
        Some(0)
    }
}

/// The number of the first, or that of the other where there is none.
fn or_number(first: u32, other: u32) -> u32
    ensures { result ≡ or_number first other }
{
    if first == 0 { other } else { first }
}

/// A number, where it is picked.
fn number_if(picked: bool, number: u32) -> u32
    ensures { result ≡ number_if picked number }
{
    if picked { number } else { 0 }
}

impl SideOrigins {
    /// No mention.
    fn none() -> SideOrigins
        ensures { result ≡ no_side_origins }
    {
        SideOrigins {
            rise_min: 0,
            rise_max: 0,
            fall_min: 0,
            fall_max: 0,
        }
    }

    /// The mention of this number for the picked edges and sides.
    fn picked(picked: Picked, number: u32) -> SideOrigins
        ensures { result ≡ picked_origins picked number }
    {
        SideOrigins {
            rise_min: number_if(picked.rise && picked.min, number),
            rise_max: number_if(picked.rise && picked.max, number),
            fall_min: number_if(picked.fall && picked.min, number),
            fall_max: number_if(picked.fall && picked.max, number),
        }
    }

    /// These, and the other ones where there are none.
    fn or(self, other: SideOrigins) -> SideOrigins
        ensures { result ≡ or_side_origins self other }
    {
        SideOrigins {
            rise_min: or_number(self.rise_min, other.rise_min),
            rise_max: or_number(self.rise_max, other.rise_max),
            fall_min: or_number(self.fall_min, other.fall_min),
            fall_max: or_number(self.fall_max, other.fall_max),
        }
    }

    /// The numbers that are set.
    fn sides(self, said: &Mentions) -> Sides
        ensures { result ≡ sides_at said.now self }
    {
        Sides {
            rise_min: number_at(said, self.rise_min),
            rise_max: number_at(said, self.rise_max),
            fall_min: number_at(said, self.fall_min),
            fall_max: number_at(said, self.fall_max),
        }
    }
}

impl Origins {
    /// What a mention of this number sets.
    fn of(change: Change, number: u32) -> Origins
        ensures { result ≡ origins_of change number }
    {
        let none = Origins {
            input: SideOrigins::none(),
            output: SideOrigins::none(),
            slew: SideOrigins::none(),
            load: 0,
        };
        match change {
            Change::InputDelay(picked, _) => Origins {
                input: SideOrigins::picked(picked, number),
                ..none
            },
            Change::OutputDelay(picked, _) => Origins {
                output: SideOrigins::picked(picked, number),
                ..none
            },
            Change::Slew(picked, _) => Origins {
                slew: SideOrigins::picked(picked, number),
                ..none
            },
            Change::Load(_) => Origins {
                load: number,
                ..none
            },
        }
    }

    /// These, and the other ones where there are none.
    fn or(self, other: Origins) -> Origins
        ensures { result ≡ or_origins self other }
    {
        Origins {
            input: self.input.or(other.input),
            output: self.output.or(other.output),
            slew: self.slew.or(other.slew),
            load: or_number(self.load, other.load),
        }
    }

    /// The numbers that are set.
    pub fn numbers(self, said: &Mentions) -> SetNumbers
        ensures { result ≡ numbers_at said.now self }
    {
        SetNumbers {
            input: self.input.sides(said),
            output: self.output.sides(said),
            slew: self.slew.sides(said),
            load: number_at(said, self.load),
        }
    }
}

/// Later ones, and others where they have none.
pub fn or_all(later: Option<Origins>, other: Option<Origins>) -> Option<Origins>
    ensures { result ≡ or_all later other }
{
    match (later, other) {
        (None, other) => other,
        (Some(later), None) => Some(later),
        (Some(later), Some(other)) => Some(later.or(other)),
    }
}

/// Later ones, and an earlier mention's where they have none.
pub fn put_origins(later: Option<Origins>, change: Change, number: u32) -> Origins
    ensures { result ≡ put_origins later change number }
{
    let earlier = Origins::of(change, number);
    match later {
        None => earlier,
        Some(later) => later.or(earlier),
    }
}
