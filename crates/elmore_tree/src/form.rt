ghost use Rattle.std.specs.Prelude.{◌≡◌, ◌+◌, ◌*◌, ◌<◌, ◌≤◌, ◌^◌, length, pos, IfSome};
ghost use Rattle.std.specs.Int.RustNames.{unsigned_abs};
ghost use Rattle.std.specs.List.{All, slice_get};
ghost use Rattle.std.specs.Option.{IsSomeAnd};
ghost use Rattle.elmore_tree.specs.Sums.{SinkSums, IsSinkSums, quarters, delay_of};

use std::marker::Model;
use xt_model::Row;

/// What the delay to a sink is made of, in milliohms times aF: a base, and a coefficient for each tap.
#[derive(Debug, Drop)]
pub struct SinkForm {
    base: i128,
    coefs: Row<i128>,
}

impl Model for SinkForm {
    ghost use Rattle.elmore_tree.specs.Sums.{SinkSums, IsSinkSums};

    ghost Value = { SinkSums };

    ghost view = { λ s. record { base = s.base; coefs = s.coefs } };

    ghost invariant = { λ s. IsSinkSums (record { base = s.base; coefs = s.coefs }) };
}

impl SinkForm {
    /// A base and coefficients of 0 or more, at most 2^102 together.
    pub fn new(base: i128, coefs: Vec<i128>) -> SinkForm
        requires { IsSinkSums (record { base = base; coefs = coefs.items }) }
        ensures { result ≡ record { base = base; coefs = coefs.items } }
    {
        SinkForm {
            base,
            coefs: Row::from_vec(coefs),
        }
    }

    /// The part of the capacitances to ground.
    pub fn base(&self) -> i128
        ensures value { result ≡ self.now.base }
        ensures sound { IsSinkSums self.now }
    {
        self.base
    }

    /// The part of each tap where it counts once.
    pub fn coefs(&self) -> &[i128]
        ensures value { result.now ≡ self.now.coefs }
        ensures sound { IsSinkSums self.now }
    {
        self.coefs.as_slice()
    }

    /// The base and the coefficients, of sums that are not needed any more.
    pub fn into_parts(self) -> (i128, Row<i128>)
        ensures base { result.0 ≡ self.base }
        ensures coefs { result.1 ≡ self.coefs }
        ensures sound { IsSinkSums self }
    {
        let SinkForm { base, coefs } = self;
        (base, coefs)
    }
}

/// The Elmore form of a wire: its load to ground in aF, and the sums of each sink.
#[derive(Debug, Drop)]
pub struct WireForm {
    pub load: i64,
    pub sinks: Row<SinkForm>,
}

/// A coefficient times a factor in quarters.
fn scaled(factor: u8, coef: u128) -> u128
    requires factor { factor ≤ 12 }
    requires coef { coef ≤ 2 ^ 102 }
    ensures value { result ≡ factor * coef }
    ensures most { result ≤ 12 * coef }
{
    u128::from(factor) * coef
}

impl SinkForm {
    /// Four times the base, and of each coefficient its factor times it.
    fn quarter_sum(&self, factors: &[u8]) -> u128
        requires count { length factors.now ≡ length self.now.coefs }
        requires factors { All (λ f. f ≤ 12) factors.now }
        ensures value { result ≡ 4 * unsigned_abs self.now.base + quarters factors.now self.now.coefs }
        ensures most { result ≤ 12 * 2 ^ 102 }
    {
        let coefs = self.coefs();
        let mut sum = 4 * self.base().unsigned_abs();
        for (index, factor) in factors.iter().enumerate() {
            sum += scaled(*factor, coefs[index].unsigned_abs());
        }
        sum
    }
}

impl WireForm {
    /// The delay in fs to the sink of this number, where each tap counts by its factor in quarters, 0 to 12: the
    /// floor of a quarter of four times the base and of each coefficient times its factor, in units of
    /// 10^6 milliohms times aF (Elmore 1948).
    pub fn delay(&self, sink: usize, factors: &[u8]) -> i128
        requires sink { IsSomeAnd (slice_get self.now.sinks sink) (λ s. length factors.now ≡ length s.coefs) }
        requires factors { All (λ f. f ≤ 12) factors.now }
        ensures { IfSome (slice_get self.now.sinks sink) (λ s. result ≡ pos (delay_of s factors.now)) }
    {
        let form = &self.sinks.as_slice()[sink];
        (form.quarter_sum(factors) / 4_000_000) as i128
    }
}
