ghost use Rattle.std.specs.Prelude.{◌≡◌};
ghost use Rattle.report_kind.specs.Kind;

/// What a report is to have: all lines, those on the checks alone, or the peaks of glitch noise alone.
#[derive(Clone, Copy, Debug, PartialEq, Eq)]
pub enum ReportKind {
    All,
    Checks,
    Noise,
}

impl ReportKind {
    /// The kind that the word names: `all`, `checks` or `noise`.
    pub fn from_word(word: &str) -> Option<ReportKind>
        ensures { result ≡ Kind.kind_of word.now }
    {
        match word {
            "all" => Some(ReportKind::All),
            "checks" => Some(ReportKind::Checks),
            "noise" => Some(ReportKind::Noise),
            _ => None,
        }
    }
}
