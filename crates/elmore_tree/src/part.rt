/// A resistor between two nodes, or from a node to itself, in milliohms.
#[derive(Clone, Copy, Debug, PartialEq, Eq)]
pub struct Resistor {
    pub a: u32,
    pub b: u32,
    pub value: i64,
}

/// The node at which a coupling capacitor hangs, and its capacitance in aF.
#[derive(Clone, Copy, Debug, PartialEq, Eq)]
pub struct Tap {
    pub node: u32,
    pub cap: i64,
}
