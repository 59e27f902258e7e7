use crate::related::RelatedNames;

/// What a timing group is: arcs (`Combinational`, `RisingEdge`), checks (`SetupRising`, `HoldRising`), or a group whose
/// tables are not read, because its type is skipped or unsupported.
#[derive(Clone, Copy, Debug, PartialEq, Eq)]
pub enum TimingKind {
    Combinational,
    RisingEdge,
    SetupRising,
    HoldRising,
    Skipped,
    Unsupported,
}

/// How an output follows an input.
#[derive(Clone, Copy, Debug, PartialEq, Eq)]
pub enum Sense {
    Positive,
    Negative,
    Non,
}

/// A timing group of a pin, with the names of the related pins of its cell. The options are numbers of the library's
/// tables: delays and slews at the output's edges, or for a check its constraints at the data's edges, in `rise` and
/// `fall`.
#[derive(Debug, Drop)]
pub struct Timing {
    pub related: RelatedNames,
    pub kind: TimingKind,
    pub sense: Sense,
    pub rise: Option<u32>,
    pub fall: Option<u32>,
    pub rise_slew: Option<u32>,
    pub fall_slew: Option<u32>,
}

/// What a table of a timing group is for: a delay or a constraint at an edge, or the slew after a delay.
#[derive(Clone, Copy, Debug, PartialEq, Eq)]
pub enum TableUse {
    Rise,
    Fall,
    RiseSlew,
    FallSlew,
}
