//! For each net the nets whose read list has it.

ghost use Rattle.std.specs.Prelude.{◌≡◌, ◌<◌, length};
ghost use Rattle.net_eval.specs.ReadLists.{reads_of};

use xt_model::NetId;

/// For each net its readers: the nets whose read list has it, in order of number.
#[derive(Debug, Drop)]
pub struct Readers {
    pub(crate) rows: Vec<Vec<NetId>>,
}

impl std::marker::Model for Readers {
    ghost use Rattle.std.specs.Prelude.{List, map};
    ghost use Rattle.xt_model.specs.declared.net.NetId.{NetId};

    ghost Value = { List (List NetId) };

    ghost view = { λ r. map (λ row. row.items) r.rows.items };
}

impl Readers {
    /// The readers of a net.
    pub fn of(&self, net: NetId) -> &[NetId]
        requires { net.0 < length self.now }
        ensures { result.now ≡ reads_of self.now net.0 }
    {
        self.rows[net.0 as usize].as_slice()
    }
}
