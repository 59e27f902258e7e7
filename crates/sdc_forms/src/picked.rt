/// Which edges and which sides a command sets.
#[derive(Clone, Copy, Debug, PartialEq, Eq)]
pub struct Picked {
    pub rise: bool,
    pub fall: bool,
    pub min: bool,
    pub max: bool,
}
