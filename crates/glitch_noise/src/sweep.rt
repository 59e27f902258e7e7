//! The greatest sum of changes over all moments.

ghost use Rattle.std.specs.Prelude.{◌≡◌};
ghost use Rattle.std.specs.List.{slice_get};
ghost use Rattle.glitch_noise.specs.Changes.{Ascend, IsBest, is_later};

use crate::change::Change;

/// The greatest sum in aF, and the first moment in fs that has it, where it is above 0.
#[derive(Clone, Copy, Debug)]
pub(crate) struct Best {
    pub sum: i128,
    pub moment: i64,
}

/// Whether the change of this number, where there is one, comes later than a moment.
fn is_later(changes: &[Change], number: usize, moment: i64) -> bool
    ensures { result ≡ is_later moment (slice_get changes.now number) }
{
    match changes.get(number) {
        Some(next) => moment < next.at,
        None => true,
    }
}

/// The greatest sum of changes that ascend. A sum counts once all changes of its moment are in it.
fn sweep(changes: &[Change]) -> Best
    requires { Ascend changes.now }
    ensures { IsBest changes.now result.sum result.moment }
{
    let mut sum = 0;
    let mut best = Best { sum: 0, moment: 0 };
    for (number, change) in changes.iter().enumerate() {
        sum += i128::from(change.by);
        if sum > best.sum && is_later(changes, number + 1, change.at) {
            best = Best {
                sum,
                moment: change.at,
            };
        }
    }
    best
}

/// The greatest sum of these changes. Sorts them by their moments.
pub(crate) fn best_of(changes: &mut Vec<Change>) -> Best
    ensures { IsBest changes.old.items result.sum result.moment }
{
    changes.sort_unstable_by_key(|change| change.at);
    sweep(changes.as_slice())
}
