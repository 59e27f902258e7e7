//! The limits on the numbers of a design.

/// A bound of a window that shared words can hold, in fs and in size.
pub const TOP_BOUND: i64 = 1 << 62;

/// A time in fs, in size.
pub const MOST_TIME: i64 = 1 << 46;

/// A slew in fs.
pub const MOST_SLEW: i64 = 1 << 40;

/// A capacitance in aF, and the load of a net with every coupling counted twice.
pub const MOST_CAP: i64 = 1 << 46;

/// A product of resistance and capacitance in milliohms times aF.
pub const MOST_PRODUCT: i128 = 1 << 102;

/// An external delay in fs, in size.
pub const MOST_DELAY: i64 = 1 << 40;

/// A clock period in fs.
pub const MOST_PERIOD: i64 = 1 << 40;

/// A number of a table, in size.
pub const MOST_IN_TABLE: i64 = 1 << 40;

/// Rows, and columns, of a table.
pub const MOST_LINES: usize = 64;

/// A factor of a coupling, in quarters.
pub const MOST_FACTOR: u8 = 12;

/// Bytes of a name.
pub const MOST_NAME: usize = 2_049;

/// Bytes of a name in a Liberty, Verilog or SDC text.
pub const MOST_TEXT_NAME: usize = 1_024;

/// Instances of a netlist.
pub const MOST_INSTANCES: usize = 262_144;

/// Nodes of the wire of a net.
pub const MOST_NODES: usize = 65_536;

/// Nets of a design.
pub const MOST_NETS: usize = 262_144;

/// Tables of a design.
pub const MOST_TABLES: usize = 262_144;

/// Check points of a design.
pub const MOST_CHECKS: usize = 1_048_576;

/// Couplings of all nets.
pub const MOST_COUPLINGS: usize = 1_048_576;

/// Wire coefficients of all nets: sinks times couplings, summed over the nets.
pub const MOST_COEFFICIENTS: usize = 16_777_216;

/// Arcs of all nets.
pub const MOST_ARCS: usize = 4_194_304;

/// Nets and couplings that one evaluation of every net looks at.
pub const MOST_READS: usize = 134_217_728;

/// Nets of a generated design.
pub const MOST_GENERATED: u32 = 100_000;

/// Workers of a run.
pub const MOST_WORKERS: u32 = 64;
