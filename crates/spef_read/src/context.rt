//! What may come next.

/// What may come next in a SPEF text.
#[derive(Clone, Copy)]
pub enum Context {
    /// The start of the text: `*SPEF`.
    Start,
    /// After `*SPEF` and its string, or an item of the header: a further item, a section or the end of the text.
    Header,
    /// After a string of the design's flow: a further string, or what may come in the header.
    Flow,
    /// After the number of a unit: the unit.
    Unit,
    /// In the name map: the number of a pair, a section or the end of the text.
    Pairs,
    /// After the number of a pair: its name.
    PairName,
    /// In a section that is skipped.
    Skipped,
    /// After `*END`: a section or the end of the text.
    BehindNet,
    /// After `*D_NET`: the net's name.
    NetName,
    /// After a net's name: its total capacitance.
    NetTotal,
    /// After a net's total capacitance: `*V`, or what its lists begin with.
    Totalled,
    /// After `*V` and its token: what the net's lists begin with.
    Lists,
    /// After `*CONN`: a connection, or what comes after the last one.
    Connections,
    /// In a connection: a token of it, or what comes after the last one.
    Connection,
    /// After `*CAP` or a capacitor: a capacitor, or what comes after the last one.
    Capacitors,
    /// After the first node of a capacitor: its second node, or its value.
    CapSecond,
    /// After the second node of a capacitor: its value.
    CapValue,
    /// After `*RES` or a resistor: a resistor, or what comes after the last one.
    Resistors,
    /// After the first node of a resistor: its second node.
    ResSecond,
    /// After the second node of a resistor: its value.
    ResValue,
    /// After the text's end.
    Done,
}
