use crate::quad::Pair;
use std::marker::Model;

/// One pair of windows per net, each bound from -2^62 to 2^62 fs.
#[derive(Debug, Drop)]
pub struct Windows {
    pairs: Vec<Pair>,
}

impl Model for Windows {
    ghost use Rattle.std.specs.Prelude.{List};
    ghost use Rattle.std.specs.List.{All};
    ghost use Rattle.xt_model.specs.declared.quad.Pair.{Pair};

    ghost Value = { List Pair };

    ghost use Rattle.xt_model.specs.Quads.{IsPairInRange};

    ghost view = { λ w. w.pairs.items };

    ghost invariant = { λ w. All IsPairInRange w.pairs.items };
}

impl Windows {
    ghost use Rattle.std.specs.Prelude.{◌≡◌, ◌<◌, length, slice_set, Some};
    ghost use Rattle.std.specs.List.{All, slice_get};
    ghost use Rattle.xt_model.specs.Quads.{IsPairInRange};

    /// The windows of the nets, by number; every bound is from -2^62 to 2^62.
    pub fn new(pairs: Vec<Pair>) -> Windows
        requires { All IsPairInRange pairs.items }
        ensures { result ≡ pairs.items }
    {
        Windows { pairs }
    }

    /// The windows of each net, by number.
    pub fn pairs(&self) -> &[Pair]
        ensures value { result.now ≡ self.now }
        ensures in_range { All IsPairInRange self.now }
    {
        self.pairs.as_slice()
    }

    /// Gives one net other windows.
    pub fn set(&mut self, net: usize, pair: Pair)
        requires net { net < length self.old }
        requires in_range { IsPairInRange pair }
        ensures { self.new ≡ slice_set self.old net pair }
    {
        self.pairs[net] = pair;
    }

    /// The windows of one net.
    pub fn pair(&self, net: usize) -> Pair
        requires { net < length self.now }
        ensures value { slice_get self.now net ≡ Some result }
        ensures in_range { IsPairInRange result }
    {
        self.pairs[net]
    }
}
