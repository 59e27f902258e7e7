use crate::check::CheckPoint;
use crate::miller::Miller;
use crate::net::Net;
use crate::row::Row;
use crate::table::Table;

/// The parts of a design: the clock period in fs where there is one, which checks need; the look-up tables
/// of the cells; the nets and the check points; and the Miller numbers by which couplings count.
#[derive(Debug, Drop)]
pub struct DesignParts {
    pub period: Option<i64>,
    pub tables: Row<Table>,
    pub nets: Row<Net>,
    pub checks: Row<CheckPoint>,
    pub miller: Miller,
}
