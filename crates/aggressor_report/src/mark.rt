//! Whether an aggressor can matter.

ghost use Rattle.std.specs.Prelude.{◌≡◌};
ghost use Rattle.aggressor_report.specs.Guilt.{is_no};

/// Whether an aggressor can switch while a victim does: surely, by the least windows; possibly, by the
/// greatest alone; or not at all.
#[derive(Clone, Copy, Debug, PartialEq, Eq)]
pub enum Mark {
    No,
    Possible,
    Sure,
}

impl Mark {
    pub(crate) fn is_no(self) -> bool
        ensures { result ≡ is_no self }
    {
        matches!(self, Mark::No)
    }
}
