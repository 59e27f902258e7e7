//! From where the windows of an edited design are found.

ghost use Rattle.std.specs.Prelude.{◌≡◌, length, IfOk};
ghost use Rattle.xt_model.specs.Quads.{meet_of};
ghost use Rattle.xt_model.specs.declared.direction.Direction.TheVariants.{Narrow, Widen};
ghost use Rattle.xt_meaning.specs.Barrier.{IsFittingStart};
ghost use Rattle.xt_meaning.specs.Envelope.{IsAccepted, IsEnvelope};
ghost use Rattle.xt_meaning.specs.Fixpoint.{IsGreatestFixpoint, IsLeastFixpoint};
ghost use Rattle.eco_warm.specs.Starts.{IsAfterEdit, high_start, low_start, met};

use crate::edit::{Change, Edited, StartWindows};
use envelope::quiet;
use std::alloc::{AllocError, Global};
use xt_model::{Design, NoMemory, Pair, Windows};

/// The greatest windows of a net that lie within both.
fn meet(own: &Pair, other: &Pair) -> Pair
    ensures { result ≡ record {
      rise = meet_of own.now.rise other.now.rise;
      fall = meet_of own.now.fall other.now.fall;
    } }
{
    Pair {
        rise: own.rise.meet(&other.rise),
        fall: own.fall.meet(&other.fall),
    }
}

/// Net by net the greatest windows that lie within both.
fn met(alloc: Global, windows: &Windows, others: &Windows) -> Result<Windows, AllocError>
    requires { length windows.now ≡ length others.now }
    ensures { IfOk result (λ w. w ≡ met windows.now others.now) }
{
    let mut pairs = Vec::new(alloc);
    for net in 0..windows.pairs().len() {
        let own = windows.pair(net);
        let other = others.pair(net);
        pairs.push(meet(&own, &other))?;
    }
    Ok(Windows::new(pairs))
}

/// The same windows once more.
fn copied(alloc: Global, windows: &Windows) -> Result<Windows, AllocError>
    ensures { IfOk result (λ w. w ≡ windows.now) }
{
    Ok(Windows::new(Vec::from_slice(alloc, windows.pairs())?))
}

/// Where the widening run of an edited design starts: at the old least windows where the edit makes none narrower, else
/// where nothing switches.
fn low_start(alloc: Global, after: &Edited, low: &Windows) -> Result<Windows, AllocError>
    ensures { IfOk result (λ w. w ≡ low_start after.now.change after.now.design low.now) }
{
    match after.change {
        Change::Grows => copied(alloc, low),
        _ => quiet(alloc, &after.design),
    }
}

/// Where the narrowing run starts: at the old greatest windows within the new envelope where the edit makes none wider,
/// else at the new envelope.
fn high_start(
    alloc: Global,
    after: &Edited,
    high: &Windows,
    top: &Windows,
) -> Result<Windows, AllocError>
    requires { length high.now ≡ length top.now }
    ensures { IfOk result (λ w. w ≡ high_start after.now.change high.now top.now) }
{
    match after.change {
        Change::Shrinks => met(alloc, high, top),
        _ => copied(alloc, top),
    }
}

/// Where the runs of an edited design start, from the least and the greatest windows of the design before and the
/// envelope of the design after, which keeps the limits. After an edit that makes no window wider the narrowing run
/// starts at the old greatest windows within the new envelope, and after one that makes none narrower the widening run
/// starts at the old least windows; else they start at the envelope, and where nothing switches. Fails only for want of
/// memory.
pub fn starts(
    alloc: Global,
    before: &Design,
    after: &Edited,
    low: &Windows,
    high: &Windows,
    top: &Windows,
) -> Result<StartWindows, NoMemory>
    requires edit { IsAfterEdit before.now after.now.design after.now.change }
    requires low { IsLeastFixpoint before.now low.now }
    requires high { IsGreatestFixpoint before.now high.now }
    requires envelope { IsEnvelope after.now.design top.now }
    requires accepted { IsAccepted after.now.design top.now }
    ensures low { IfOk result (λ s. s.low ≡ low_start after.now.change after.now.design low.now) }
    ensures high { IfOk result (λ s. s.high ≡ high_start after.now.change high.now top.now) }
    ensures low_fits { IfOk result (λ s. IsFittingStart Widen after.now.design s.low) }
    ensures high_fits { IfOk result (λ s. IsFittingStart Narrow after.now.design s.high) }
{
    prove!(after.design.nets().len() == high.pairs().len());
    Ok(StartWindows {
        low: low_start(alloc, after, low)?,
        high: high_start(alloc, after, high, top)?,
    })
}
