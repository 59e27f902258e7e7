//! The bytes of a file.

ghost use Rattle.std.specs.Prelude.{◌≡◌, ◌≤◌, [], ◌∷◌, length, IfOk, IfSome};
ghost use Rattle.xt_io.specs.Outside.{AreOpened};
ghost use Rattle.command_line.specs.Words.{Text};
ghost use Rattle.call_meaning.specs.Outcome.{FileMeans};
ghost use Rattle.call_meaning.specs.FailureWords.{most_bytes};
ghost use Rattle.call_meaning.specs.Call.{Answers};

use call_meaning::{FileRefusal, Refusal, Stop};
use command_line::FileName;
use std::alloc::Global;
use xt_io::{Files, ReadFail, read_whole};

/// The bytes of a file, after its name. The file is opened once. Fails where it can't be read, where it has more than
/// 268,435,456 bytes, and for want of memory.
pub fn read_file<F: Files>(
    alloc: Global,
    files: &mut F,
    file: FileName,
) -> Result<(FileName, Vec<u8>), Stop>
    ensures content { (m : Text) → F.content files.new m ≡ F.content files.old m }
    ensures whole { IfOk result (λ r. IfSome (F.content files.old file) (λ whole. r.1.items ≡ whole)) }
    ensures fits { IfOk result (λ r. length r.1.items ≤ most_bytes) }
    ensures opened { AreOpened (file ∷ []) (F.opened files.old) (F.opened files.new) }
    ensures answer { let Meant = FileMeans file (F.content files.old) (λ _. ⊥) in
        Answers result (λ r. r.0 ≡ file) Meant (F.faults files.old) (F.faults files.new) }
{
    match read_whole(alloc, files, file.as_str()) {
        Ok(bytes) => Ok((file, bytes)),
        Err(ReadFail::Fault) => Err(Stop::Unread { file }),
        Err(ReadFail::TooLong) => Err(Stop::Refused(Refusal::File {
            file,
            why: FileRefusal::TooLong,
        })),
        Err(ReadFail::NoMemory) => Err(Stop::NoMemory),
    }
}
