//! Which nets of a generated design are coupled.

ghost use Rattle.std.specs.Prelude.{◌≡◌, ◌≢◌, ◌<◌, List, length, map, IfOk, OnOk};
ghost use Rattle.design_gen.specs.Couples.{Couple, Coupled, with_couple, pair_net, coupled};
ghost use Rattle.design_gen.specs.Laws.{IsCount};
ghost use Rattle.design_gen.specs.Rows.{HoldCouplings, IsCoupledAt};

use crate::rows::{Items, empty_rows, push_item};
use drawn_numbers::Source;
use std::alloc::{AllocError, Global};
use std::marker::Model;
use xt_model::{Coupling, NetId};

const MOST_COUPLINGS: usize = 16;

/// A coupling as it is drawn, in 8 bytes. Contracts see the coupling.
#[derive(Default, Drop)]
pub(crate) struct DrawnCoupling {
    to: u32,
    cap: u32,
}

impl Model for DrawnCoupling {
    ghost use Rattle.xt_model.specs.declared.net.Coupling.{Coupling};
    ghost use Rattle.design_gen.specs.Couples.{coupling};

    ghost Value = { Coupling };

    ghost view = { λ c. coupling c.to c.cap };
}

impl DrawnCoupling {
    ghost use Rattle.design_gen.specs.Couples.{coupling};

    /// A coupling to a net by a capacitor, in aF.
    fn new(to: u32, cap: u32) -> DrawnCoupling
        ensures { result ≡ coupling to cap }
    {
        DrawnCoupling { to, cap }
    }

    /// The coupling of a net of a design.
    pub(crate) fn coupling(&self) -> Coupling
        ensures { result ≡ self.now }
    {
        Coupling {
            to: NetId(self.to),
            cap: i64::from(self.cap),
        }
    }
}

/// Makes a capacitor, in aF, a coupling of two nets, where both have room for it.
fn couple(
    rows: &mut Vec<Items<DrawnCoupling>>,
    first: u32,
    second: u32,
    cap: u32,
) -> Result<(), AllocError>
    requires first { first < length rows.old.items }
    requires second { second < length rows.old.items }
    requires differ { first ≢ second }
    ensures couples { (cs : List Couple) → HoldCouplings (map (λ r. r.items) rows.old.items) cs →
        OnOk result (HoldCouplings (map (λ r. r.items) rows.new.items) (with_couple cs first second cap)) }
    ensures count { OnOk result (length rows.new.items ≡ length rows.old.items) }
{
    let (one, other) = (first as usize, second as usize);
    if rows[one].len() < MOST_COUPLINGS && rows[other].len() < MOST_COUPLINGS {
        push_item(rows, one, DrawnCoupling::new(second, cap))?;
        push_item(rows, other, DrawnCoupling::new(first, cap))?;
    }
    Ok(())
}

/// Pairs a net with one that is drawn.
fn pair_net(
    source: &mut Source,
    rows: &mut Vec<Items<DrawnCoupling>>,
    nets: u32,
    net: u32,
) -> Result<(), AllocError>
    requires some { net < nets }
    requires count { length rows.old.items ≡ nets }
    ensures paired { (c : Coupled) → IsCoupledAt nets source.old.state (map (λ r. r.items) rows.old.items) c →
        OnOk result (IsCoupledAt nets source.new.state (map (λ r. r.items) rows.new.items) (pair_net nets net c)) }
    ensures count { OnOk result (length rows.new.items ≡ nets) }
{
    let other = source.draw(u64::from(nets)) as u32;
    if other != net {
        let cap = 200 + source.draw(800) as u32;
        couple(rows, net, other, cap)?;
    }
    Ok(())
}

/// The couplings of each net, once every net was paired.
pub(crate) fn draw_couplings(
    alloc: Global,
    source: &mut Source,
    nets: u32,
) -> Result<Vec<Items<DrawnCoupling>>, AllocError>
    requires { IsCount nets }
    ensures rows { IfOk result (λ rows.
        HoldCouplings (map (λ r. r.items) rows.items) (coupled nets source.old.state nets).couples) }
    ensures count { IfOk result (λ rows. length rows.items ≡ nets) }
{
    let mut rows = empty_rows(alloc, nets)?;
    for net in 0..nets {
        pair_net(source, &mut rows, nets, net)?;
    }
    Ok(rows)
}
