/// What may come next in a netlist.
#[derive(Clone, Copy)]
pub enum Context {
    /// The start of the text: a module.
    Start,
    /// After `endmodule`: a further module, or the end of the text.
    BehindModule,
    /// After `module`: its name.
    ModuleName,
    /// After a module's name: its header's list of names, or `;`.
    Header,
    /// After a name of the header.
    Listed,
    /// Where a statement or `endmodule` may begin.
    Body,
    /// After the left bound of a range.
    LeftBound,
    /// After the right bound of a range.
    RightBound,
    /// After a declared name.
    Declared,
    /// After an instance's name.
    Opening,
    /// After the `(` of an instance.
    Pins,
    /// After the name of a pin.
    Pin,
    /// After the `(` of a pin.
    Connection,
    /// After the `]` of a bit.
    BitGiven,
    /// After the `)` of a pin.
    Connected,
    /// After the `)` of an instance.
    Closed,
    /// After the text's end.
    Done,
}
