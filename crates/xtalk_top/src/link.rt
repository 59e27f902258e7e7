//! The command `link`.

ghost use Rattle.std.specs.Prelude.{◌≡◌, IfOk, IfErr};
ghost use Rattle.text_lines.specs.Lines.{text_of};
ghost use Rattle.linked_text.specs.Linked.{linked};
ghost use Rattle.command_line.specs.Words.{Text};
ghost use Rattle.call_meaning.specs.Outcome.{prints};
ghost use Rattle.call_meaning.specs.Opened.{FailsAfter, HasValue, OpensFirst, block_files};
ghost use Rattle.call_meaning.specs.Call.{Answers, IsStop};
ghost use Rattle.call_meaning.specs.Link.{LinkMeans};
ghost use Rattle.call_meaning.specs.declared.refusal.Failure.TheVariants.{NoText};

use crate::counted::counted_by;
use call_files::read_block;
use call_meaning::Stop;
use command_line::LinkJob;
use linked_text::write_linked;
use std::alloc::Global;
use std::mem;
use xt_io::Files;
use xt_model::{Design, NoMemory};

// The linked text of a design.
fn text_of_design(alloc: Global, design: &Design) -> Result<Vec<u8>, Stop>
    ensures ok { IfOk result (λ text. text.items ≡ text_of (linked design.now)) }
    ensures stop { IfErr result (IsStop (λ _. ⊥) (λ _. ⊥)) }
{
    match write_linked(alloc, design) {
        Ok(text) => Ok(text),
        Err(NoMemory) => Err(Stop::NoMemory),
    }
}

/// The linked text of the design that the four files of the job's block make, by the job's Miller numbers where it
/// has any.
pub fn text_of_block<F: Files>(alloc: Global, files: &mut F, job: LinkJob) -> Result<Vec<u8>, Stop>
    ensures means { let Meant = LinkMeans job (F.content files.old) in
        Answers result (λ text. Meant (prints text.items)) Meant (F.faults files.old) (F.faults files.new) }
    ensures opened { OpensFirst (block_files job.files) (HasValue result) (F.opened files.old) (F.opened files.new) }
    ensures stopped { IfErr result (λ stop. FailsAfter (block_files job.files)
        (F.opened files.old) (F.opened files.new) (NoText stop)) }
    ensures content { (m : Text) → F.content files.new m ≡ F.content files.old m }
{
    let LinkJob {
        files: block,
        miller,
    } = job;
    let design = read_block(alloc, files, block)?;
    let design = counted_by(design, miller);
    let text = text_of_design(alloc, &design);
    mem::drop(design);
    text
}
