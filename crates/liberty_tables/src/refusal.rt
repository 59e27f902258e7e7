//! The lines of faults.

ghost use Rattle.std.specs.Prelude.{◌≡◌};
ghost use Rattle.liberty_tables.specs.Refusals.{earlier};

/// Of two faults of one code the earlier.
pub fn earlier(one: Option<u32>, other: Option<u32>) -> Option<u32>
    ensures { result ≡ earlier one other }
{
    match (one, other) {
        (Some(line), Some(behind)) => {
            if line <= behind {
                Some(line)
            } else {
                Some(behind)
            }
        }
        (Some(line), None) => Some(line),
        (None, _) => other,
    }
}
