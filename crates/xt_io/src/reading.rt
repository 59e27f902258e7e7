ghost use Rattle.std.specs.Prelude.{◌≡◌, ◌≢◌, ℕ, ◌<◌, ◌≤◌, ◌↔◌, List, [], ◌∷◌, length, IfSome, IfOk, vec_len};
ghost use Rattle.xt_io.specs.Outside.{Rose, AreOpened, KeepsCounts, ChangesOnly, IsPast};

use crate::files::Files;
use crate::read_fail::ReadFail;
use std::alloc::{AllocError, Global};

/// The most bytes that a file may have to be read whole: 256 MiB.
pub const MOST_BYTES: usize = 268_435_456;

// How many bytes are asked of the file at a time.
const PIECE_BYTES: usize = 65_536;

/// Reads the whole file of a name, which it opens once. It is refused as soon as more than [`MOST_BYTES`] bytes of it
/// were read.
pub fn read_whole<F: Files>(alloc: Global, files: &mut F, name: &str) -> Result<Vec<u8>, ReadFail>
    ensures content { (m : List ℕ) → F.content files.new m ≡ F.content files.old m }
    ensures read { IfOk result (λ bytes. F.place files.new ≡ Some (record { name = name.now; read = vec_len bytes })) }
    ensures fits { IfOk result (λ bytes. vec_len bytes ≤ 268435456) }
    ensures whole { IfOk result (λ bytes. IfSome (F.content files.old name.now) (λ whole. bytes.items ≡ whole)) }
    ensures too_long { (result ≡ Err ReadFail.TooLong) ↔ IsPast (F.place files.new) name.now 268435456 }
    ensures longer { result ≡ Err ReadFail.TooLong → IfSome (F.content files.old name.now)
        (λ whole. 268435456 < length whole) }

    // The file is opened once, and no other.
    ensures opened { AreOpened (name.now ∷ []) (F.opened files.old) (F.opened files.new) }

    // The counts of faults: only a fault raises one, that of the name.
    ensures counts { (m : List ℕ) → F.faults files.old m ≤ F.faults files.new m }
    ensures kept { result ≢ Err ReadFail.Fault → KeepsCounts (F.faults files.old) (F.faults files.new) }
    ensures fault { result ≡ Err ReadFail.Fault → Rose (F.faults files.old name.now) (F.faults files.new name.now) }
    ensures others { ChangesOnly name.now (F.faults files.old) (F.faults files.new) }
{
    if files.open(name).is_err() {
        return Err(ReadFail::Fault);
    }
    let Ok(mut room) = zeroed(alloc, PIECE_BYTES) else {
        return Err(ReadFail::NoMemory);
    };
    let piece = room.as_mut_slice();
    let mut bytes = Vec::new(alloc);
    'pieces: loop {
        let Ok(count) = files.read(piece) else {
            return Err(ReadFail::Fault);
        };
        if count == 0 {
            return Ok(bytes);
        }
        if count > MOST_BYTES - bytes.len() {
            return Err(ReadFail::TooLong);
        }
        let Ok(()) = bytes.extend_from_slice(&piece[..count]) else {
            return Err(ReadFail::NoMemory);
        };
    }
}

// So many bytes, each 0.
fn zeroed(alloc: Global, count: usize) -> Result<Vec<u8>, AllocError>
    ensures { IfOk result (λ bytes. vec_len bytes ≡ count) }
{
    vec![in alloc; 0; count]
}
