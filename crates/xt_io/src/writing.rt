ghost use Rattle.std.specs.Prelude.{◌≡◌, ◌≤◌, length, OnOk, OnErr};
ghost use Rattle.xt_io.specs.Outside.{Rose, appended, IsPrefixAppended};

use crate::failed::Failed;
use crate::sink::Sink;

/// Writes all bytes, each time handing over all that are left. After a failure some first part of them was written.
#[tactic(auto, using(crate::proofs::Pieces::appended_piece))]
pub fn write_whole<S: Sink>(sink: &mut S, bytes: &[u8]) -> Result<(), Failed>
    ensures counts { S.faults sink.old ≤ S.faults sink.new }
    ensures ok { OnOk result (S.written sink.new ≡ appended (S.written sink.old) bytes.now) }
    ensures err { OnErr result (IsPrefixAppended (S.written sink.old) (S.written sink.new) bytes.now) }
    ensures kept { OnOk result (S.faults sink.new ≡ S.faults sink.old) }
    ensures failed { OnErr result (Rose (S.faults sink.old) (S.faults sink.new)) }
    ensures nothing { length bytes.now ≡ 0 → (result ≡ Ok tt) × (sink.new ≡ sink.old) }
{
    let mut at = 0;
    while at < bytes.len() {
        at += sink.write(&bytes[at..])?;
    }
    Ok(())
}
