/// Why a text is refused: one code for each cause, by format. The line of the cause is beside it.
#[derive(Clone, Copy, Debug, PartialEq, Eq)]
pub enum Code {
    /// Of a library: a token that does not fit, a `{` too deep, or a name that is not allowed.
    L1,
    /// Of a library: the text ends too early.
    L2,
    /// Of a library: a number that cannot be taken.
    L3,
    /// Of a library: a table or a timing group that does not fit together.
    L4,
    /// Of a library: an index that does not rise.
    L5,
    /// Of a library: a template that is not there.
    L6,
    /// Of a library: a cell twice.
    L7,
    /// Of a library: a unit that is not known.
    L8,
    /// Of a netlist: a token that does not fit.
    V1,
    /// Of a netlist: the text ends too early.
    V2,
    /// Of a netlist: a construct that is not taken.
    V3,
    /// Of a netlist: a name without a declaration.
    V4,
    /// Of a netlist: a name twice.
    V5,
    /// Of a netlist: a bit outside its range, or a bound too large.
    V6,
    /// Of a netlist of several modules: a module that is instantiated within itself.
    V7,
    /// Of a netlist of several modules: no module or more than one that no other instantiates.
    V8,
    /// Of a netlist of several modules: a connection that does not fit its port.
    V9,
    /// Of parasitics: a token that does not fit.
    S1,
    /// Of parasitics: the text ends too early.
    S2,
    /// Of parasitics: a value that cannot be taken.
    S3,
    /// Of parasitics: a unit that is not known, or a missing one.
    S4,
    /// Of parasitics: a number of the name map that is not there, or twice.
    S5,
    /// Of parasitics: a net twice.
    S6,
    /// Of parasitics: a section that is not taken.
    S7,
    /// Of constraints: words that do not fit.
    C1,
    /// Of constraints: a command that is not known.
    C2,
    /// Of constraints: an option or an argument that is unknown, missing or twice.
    C3,
    /// Of constraints: a number that cannot be taken.
    C4,
    /// Of constraints: a second clock.
    C5,
    /// Of constraints: a port or a clock that is not there.
    C6,
    /// Of edits: words that do not fit, or a line too many, missing or after the end.
    E1,
    /// Of edits: a number that cannot be taken.
    E2,
    /// Of edits: a name or a coupling that is not there.
    E3,
    /// Of edits: a capacitance or a coefficient that would leave its range.
    E4,
    /// Of a linked text: words, fields or a line that do not fit.
    X1,
    /// Of a linked text: a number that is not written as it has to be, or out of its range.
    X2,
    /// Of a linked text: a name or a reference that does not hold.
    X3,
}

impl Code {
    ghost use Rattle.std.specs.Prelude.{◌≡◌};
    ghost use Rattle.xt_model.specs.Codes.{code_text};

    /// The letter of the format and the number of the cause, as they are printed.
    pub fn text(self) -> &'static str
        ensures { result.now ≡ code_text self }
    {
        match self {
            Code::L1 => "L1",
            Code::L2 => "L2",
            Code::L3 => "L3",
            Code::L4 => "L4",
            Code::L5 => "L5",
            Code::L6 => "L6",
            Code::L7 => "L7",
            Code::L8 => "L8",
            Code::V1 => "V1",
            Code::V2 => "V2",
            Code::V3 => "V3",
            Code::V4 => "V4",
            Code::V5 => "V5",
            Code::V6 => "V6",
            Code::V7 => "V7",
            Code::V8 => "V8",
            Code::V9 => "V9",
            Code::S1 => "S1",
            Code::S2 => "S2",
            Code::S3 => "S3",
            Code::S4 => "S4",
            Code::S5 => "S5",
            Code::S6 => "S6",
            Code::S7 => "S7",
            Code::C1 => "C1",
            Code::C2 => "C2",
            Code::C3 => "C3",
            Code::C4 => "C4",
            Code::C5 => "C5",
            Code::C6 => "C6",
            Code::E1 => "E1",
            Code::E2 => "E2",
            Code::E3 => "E3",
            Code::E4 => "E4",
            Code::X1 => "X1",
            Code::X2 => "X2",
            Code::X3 => "X3",
        }
    }
}
