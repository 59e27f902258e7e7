//! The couplings of a net, and the coefficients of its sinks, after an edit.

ghost use Rattle.std.specs.Prelude.{◌≡◌, ◌≤◌, ◌++◌, ◌∷◌, ◌↔◌, List, ℤ, pos, ◌≤ℤ◌, ◌^◌};
ghost use Rattle.std.specs.Prelude.{length, IfOk, IfErr, OnOk, IsTrue};
ghost use Rattle.std.specs.List.{All};
ghost use Rattle.xt_model.specs.declared.net.Coupling.{Coupling};
ghost use Rattle.xt_model.specs.Limits.{most_couplings};
ghost use Rattle.xt_model.specs.Sound.{IsCap, IsProduct};
ghost use Rattle.eco_warm.specs.Edits.{coefs_left, couplings_left, total};
ghost use Rattle.eco_warm.specs.Possible.{AreInBounds, CanMove, IsImpossible, IsMove};

use crate::edit::{EditFault, Move};
use crate::portion::{cap_left, coef_left};
use std::alloc::{AllocError, Global};
use xt_model::{Coupling, NetId};

/// Whether each coupling to the other net can be moved: one without capacitance has no proportion in which it could
/// grow.
pub(crate) fn can_move(moving: Move, other: NetId, couplings: &[Coupling]) -> bool
    ensures { IsTrue result ↔ All (λ k. k.to.0 ≡ other.0 → CanMove moving k) couplings.now }
{
    match moving {
        Move::FromGround(_) => couplings.iter().all(|k| k.to.0 != other.0 || k.cap != 0),
        _ => true,
    }
}

/// Appends what is left of one coupling.
fn push_coupling(
    left: &mut Vec<Coupling>,
    moving: Move,
    other: NetId,
    coupling: Coupling,
) -> Result<(), AllocError>
    requires moving { IsMove moving }
    requires cap { IsCap coupling.cap }
    ensures { OnOk result ((ks : List Coupling) → left.new.items ++ couplings_left moving other.0 ks
        ≡ left.old.items ++ couplings_left moving other.0 (coupling ∷ ks)) }
{
    if coupling.to.0 != other.0 {
        left.push(coupling)?;
        return Ok(());
    }
    match moving {
        Move::Whole => {}
        _ => left.push(Coupling {
            to: coupling.to,
            cap: cap_left(moving, coupling.cap),
        })?,
    }
    Ok(())
}

/// What is left of the couplings of a net, where those to the other net are moved.
pub(crate) fn couplings_left(
    alloc: Global,
    moving: Move,
    other: NetId,
    couplings: &[Coupling],
) -> Result<Vec<Coupling>, AllocError>
    requires moving { IsMove moving }
    requires bounds { AreInBounds couplings.now }
    ensures { IfOk result (λ left. left.items ≡ couplings_left moving other.0 couplings.now) }
{
    let mut left = Vec::new(alloc);
    for coupling in couplings {
        push_coupling(&mut left, moving, other, *coupling)?;
    }
    Ok(left)
}

/// Appends what is left of the coefficient of one coupling.
fn push_coef(
    left: &mut Vec<i128>,
    moving: Move,
    other: NetId,
    coupling: &Coupling,
    coef: i128,
) -> Result<(), EditFault>
    requires moving { IsMove moving }
    requires cap { IsCap coupling.now.cap }
    requires coef { IsProduct coef }
    ensures ok { OnOk result ((ks : List Coupling) (cs : List ℤ)
        → left.new.items ++ coefs_left moving other.0 ks cs
        ≡ left.old.items ++ coefs_left moving other.0 (coupling.now ∷ ks) (coef ∷ cs)) }
    ensures range { OnOk result (All IsProduct left.old.items → All IsProduct left.new.items) }
    ensures impossible { IfErr result (IsImpossible ((ks : List Coupling) (cs : List ℤ)
        → All IsProduct (coefs_left moving other.0 (coupling.now ∷ ks) (coef ∷ cs)) → ⊥)) }
{
    if coupling.to.0 != other.0 {
        left.push(coef)?;
        return Ok(());
    }
    match moving {
        Move::Whole => {}
        _ => {
            let Some(coef) = coef_left(moving, coupling.cap, coef) else {
                return Err(EditFault::E4);
            };
            left.push(coef)?;
        }
    }
    Ok(())
}

/// What is left of the coefficients of a sink, one for each coupling of its net.
pub(crate) fn coefs_left(
    alloc: Global,
    moving: Move,
    other: NetId,
    couplings: &[Coupling],
    coefs: &[i128],
) -> Result<Vec<i128>, EditFault>
    requires moving { IsMove moving }
    requires bounds { AreInBounds couplings.now }
    requires count { length coefs.now ≡ length couplings.now }
    requires coefs { All IsProduct coefs.now }
    ensures ok { IfOk result (λ left. left.items ≡ coefs_left moving other.0 couplings.now coefs.now) }
    ensures range { IfOk result (λ left. All IsProduct left.items) }
    ensures impossible { IfErr result (IsImpossible
        (All IsProduct (coefs_left moving other.0 couplings.now coefs.now) → ⊥)) }
{
    let mut left = Vec::new(alloc);
    for (index, coupling) in couplings.iter().enumerate() {
        push_coef(&mut left, moving, other, coupling, coefs[index])?;
    }
    Ok(left)
}

/// The sum of the coefficients.
pub(crate) fn total(coefs: &[i128]) -> i128
    requires coefs { All IsProduct coefs.now }
    requires few { length coefs.now ≤ most_couplings }
    ensures value { result ≡ total coefs.now }
    ensures low { pos 0 ≤ℤ result }
    ensures high { result ≤ℤ pos (2 ^ 122) }
{
    let mut sum: i128 = 0;
    for coef in coefs {
        sum += *coef;
    }
    sum
}
