//! The files of a block, each read and then its text, in their order; and their linking.

ghost use Rattle.std.specs.Prelude.{◌≡◌, ◌+◌, ◌≤◌, [], ◌∷◌, length, None, Ok, IfOk, IfErr};
ghost use Rattle.xt_model.specs.Limits.{most_instances};
ghost use Rattle.xt_model.specs.Sound.{IsSound};
ghost use Rattle.sdc_read.specs.Meaning.{IsScale};
ghost use Rattle.link_rules.specs.Bare.{Inputs};
ghost use Rattle.link_rules.specs.Link.{IsLinked};
ghost use Rattle.sdc_read.specs.Sound.{AreSoundConstraints};
ghost use Rattle.spef_read.specs.Sound.{AreSoundParasitics};
ghost use Rattle.liberty_cells.specs.Sound.{IsSoundLibrary};
ghost use Rattle.verilog_net.specs.Sound.{IsSoundNetlist};
ghost use Rattle.command_line.specs.Words.{Text};
ghost use Rattle.call_meaning.specs.Call.{Answers, IsStop};
ghost use Rattle.call_meaning.specs.FailureWords.{most_bytes};
ghost use Rattle.call_meaning.specs.Opened.{FailsAfter, HasValue, OpensFirst, block_files};
ghost use Rattle.call_meaning.specs.Linking;
ghost use Rattle.call_meaning.specs.Linking.{BlockMeans, LinkingMeans, MakeDesign};
ghost use Rattle.call_meaning.specs.Linking.{FinishDesign, LastFilesMean, TextMeans};
ghost use Rattle.call_meaning.specs.Linking.{ConstraintsIn, LibraryIn, NetlistIn, ParasiticsIn};
ghost use Rattle.call_files.specs.Texts;
ghost use Rattle.call_files.specs.Texts.{ReadsText};
ghost use Rattle.call_meaning.specs.declared.refusal.Failure.TheVariants.{NoText};
ghost use Rattle.call_meaning.specs.declared.refusal.Stop.TheVariants.{Refused};
ghost use Rattle.call_meaning.specs.declared.refusal.Refusal.TheVariants.{File};
ghost use Rattle.call_meaning.specs.declared.refusal.FileRefusal.TheVariants.{Content};
ghost use Rattle.call_meaning.specs.declared.refusal.TextRefusal.TheVariants.{Beyond};

use crate::input::read_file;
use call_meaning::{FileRefusal, PassedLimit, Refusal, Stop, TextRefusal, Unlinked};
use command_line::{BlockFiles, FileName};
use design_link::link;
use hier_flatten::{FlatFault, flatten, lone_module};
use liberty_cells::{Library, read_library};
use link_rules::LinkFault;
use sdc_read::{Constraints, read_sdc};
use spef_read::{Parasitics, read_spef};
use std::alloc::Global;
use std::mem;
use verilog_net::{Netlist, read_modules};
use xt_io::Files;
use xt_lex::{TextFault, last_line};
use xt_model::limits::MOST_INSTANCES;
use xt_model::{Design, LimitKind};

// Why a file whose text is at fault gives nothing.
fn stop_at(file: FileName, fault: TextFault) -> Stop
    ensures { result ≡ Linking.stop_at file fault }
{
    match fault {
        TextFault::Refused { line, code } => Stop::Refused(Refusal::File {
            file,
            why: FileRefusal::Content(TextRefusal::At { line, code }),
        }),
        TextFault::NoMemory => Stop::NoMemory,
    }
}

// What the reading of a text comes to, where a file of this name holds it.
fn in_file<V>(file: FileName, value: Result<V, TextFault>) -> Result<V, Stop>
    ensures { result ≡ Texts.in_file file value }
{
    match value {
        Ok(value) => Ok(value),
        Err(fault) => Err(stop_at(file, fault)),
    }
}

// A limit that the flat netlist of a file's modules passes. Its number is one more than may be, also where there are
// more.
fn beyond(file: FileName, what: LimitKind) -> Stop
    ensures { result ≡ Refused (File file (Content (Beyond (record {
      what = what;
      name = None;
      value = most_instances + 1;
    })))) }
{
    Stop::Refused(Refusal::File {
        file,
        why: FileRefusal::Content(TextRefusal::Beyond(PassedLimit {
            what,
            name: None,
            value: MOST_INSTANCES as u128 + 1,
        })),
    })
}

// The Liberty library whose text the file holds.
fn library<F: Files>(alloc: Global, files: &mut F, file: FileName) -> Result<Library, Stop>
    ensures read { ReadsText F.content F.faults F.opened file LibraryIn files.old files.new result }
    ensures sound { IfOk result IsSoundLibrary }
    ensures scales { IfOk result (λ v. IsScale v.time_scale × IsScale v.cap_scale) }
{
    let (file, bytes) = read_file(alloc, files, file)?;
    in_file(file, read_library(alloc, &bytes))
}

// The flat netlist of the modules of a structural Verilog text, which a file of this name holds.
fn flat_netlist(alloc: Global, file: FileName, bytes: &[u8]) -> Result<Netlist, Stop>
    requires { length bytes.now ≤ most_bytes }
    ensures ok { IfOk result (λ netlist. NetlistIn bytes.now (Ok netlist)) }
    ensures sound { IfOk result IsSoundNetlist }
    ensures stop { IfErr result (IsStop (TextMeans file bytes.now NetlistIn (λ _. ⊥)) (λ _. ⊥)) }
{
    let modules = match read_modules(alloc, bytes) {
        Ok(modules) => modules,
        Err(fault) => return Err(stop_at(file, fault)),
    };
    let modules = match lone_module(modules) {
        Ok(netlist) => return Ok(netlist),
        Err(modules) => modules,
    };
    match flatten(alloc, &modules, last_line(bytes)) {
        Ok(netlist) => Ok(netlist),
        Err(FlatFault::Refused { line, code }) => {
            Err(stop_at(file, TextFault::Refused { line, code }))
        }
        Err(FlatFault::Limit { what }) => Err(beyond(file, what)),
        Err(FlatFault::NoMemory) => Err(Stop::NoMemory),
    }
}

// The structural Verilog netlist whose text the file holds.
fn netlist<F: Files>(alloc: Global, files: &mut F, file: FileName) -> Result<Netlist, Stop>
    ensures read { ReadsText F.content F.faults F.opened file NetlistIn files.old files.new result }
    ensures sound { IfOk result IsSoundNetlist }
{
    let (file, bytes) = read_file(alloc, files, file)?;
    flat_netlist(alloc, file, &bytes)
}

// The SPEF parasitics whose text the file holds.
fn parasitics<F: Files>(alloc: Global, files: &mut F, file: FileName) -> Result<Parasitics, Stop>
    ensures read { ReadsText F.content F.faults F.opened file ParasiticsIn files.old files.new result }
    ensures sound { IfOk result AreSoundParasitics }
{
    let (file, bytes) = read_file(alloc, files, file)?;
    in_file(file, read_spef(alloc, &bytes))
}

// The constraints for the netlist whose SDC text the file holds, in the units of the library until it gives its own.
fn constraints<F: Files>(
    alloc: Global,
    files: &mut F,
    file: FileName,
    library: &Library,
    netlist: &Netlist,
) -> Result<Constraints, Stop>
    requires time { IsScale library.now.time_scale }
    requires cap { IsScale library.now.cap_scale }
    ensures read { let meant = ConstraintsIn library.now netlist.now in
        ReadsText F.content F.faults F.opened file meant files.old files.new result }
    ensures sound { IfOk result AreSoundConstraints }
{
    let (file, bytes) = read_file(alloc, files, file)?;
    let time = library.time_scale;
    let cap = library.cap_scale;
    in_file(file, read_sdc(alloc, &bytes, netlist, time, cap))
}

// The design that the values of the four files make.
fn linked(
    alloc: Global,
    library: &Library,
    netlist: &Netlist,
    parasitics: &Parasitics,
    constraints: &Constraints,
) -> Result<Design, Stop>
    requires library { IsSoundLibrary library.now }
    requires netlist { IsSoundNetlist netlist.now }
    requires parasitics { AreSoundParasitics parasitics.now }
    requires constraints { AreSoundConstraints constraints.now }
    ensures ok { IfOk result (λ d. let x : Inputs = record {
      library = library.now;
      netlist = netlist.now;
      parasitics = parasitics.now;
      constraints = constraints.now;
    } in IsLinked x d × IsSound d) }
    ensures stop { let x : Inputs = record {
      library = library.now;
      netlist = netlist.now;
      parasitics = parasitics.now;
      constraints = constraints.now;
    } in IfErr result (IsStop (LinkingMeans x (λ _. ⊥)) (λ _. ⊥)) }
{
    match link(alloc, library, netlist, parasitics, constraints) {
        Ok(design) => {
            prove!(design.order().len() == design.nets().len());
            Ok(design)
        }
        Err(LinkFault::Refused(why)) => Err(Stop::Refused(Refusal::Linking(Unlinked::Refused(
            why,
        )))),
        Err(LinkFault::Limit { what, name, value }) => Err(Stop::Refused(Refusal::Linking(
            Unlinked::Beyond(PassedLimit { what, name, value }),
        ))),
        Err(LinkFault::NoMemory) => Err(Stop::NoMemory),
    }
}

// The design that the last two files of a block make, for the library and the netlist of the first two.
fn finish_block<F: Files>(
    alloc: Global,
    files: &mut F,
    spef: FileName,
    sdc: FileName,
    library: &Library,
    netlist: &Netlist,
) -> Result<Design, Stop>
    requires library { IsSoundLibrary library.now }
    requires time { IsScale library.now.time_scale }
    requires cap { IsScale library.now.cap_scale }
    requires netlist { IsSoundNetlist netlist.now }
    ensures means { Answers
        result
        (FinishDesign spef sdc (F.content files.old) library.now netlist.now)
        (λ o. LastFilesMean spef sdc (F.content files.old) library.now netlist.now (λ x. LinkingMeans x (λ _. ⊥) o) o)
        (F.faults files.old)
        (F.faults files.new) }
    ensures opened { OpensFirst (spef ∷ sdc ∷ []) (HasValue result) (F.opened files.old) (F.opened files.new) }
    ensures stopped { IfErr result (λ stop. FailsAfter (spef ∷ sdc ∷ [])
        (F.opened files.old) (F.opened files.new) (NoText stop)) }
    ensures content { (m : Text) → F.content files.new m ≡ F.content files.old m }
{
    let parasitics = parasitics(alloc, files, spef)?;
    let constraints = constraints(alloc, files, sdc, library, netlist)?;
    let design = linked(alloc, library, netlist, &parasitics, &constraints);
    mem::drop(constraints);
    mem::drop(parasitics);
    design
}

/// The design that the four files of a block make, or the first reason why they make none, in the order of the files.
pub fn read_block<F: Files>(alloc: Global, files: &mut F, block: BlockFiles) -> Result<Design, Stop>
    ensures means { let Meant = BlockMeans block (F.content files.old) (λ _. ⊥) in
        let IsValue = MakeDesign block (F.content files.old) in
        Answers result IsValue Meant (F.faults files.old) (F.faults files.new) }
    ensures opened { OpensFirst (block_files block) (HasValue result) (F.opened files.old) (F.opened files.new) }
    ensures stopped { IfErr result (λ stop. FailsAfter (block_files block)
        (F.opened files.old) (F.opened files.new) (NoText stop)) }
    ensures content { (m : Text) → F.content files.new m ≡ F.content files.old m }
{
    let BlockFiles {
        lib,
        netlist: netlist_file,
        spef,
        sdc,
    } = block;
    let library = library(alloc, files, lib)?;
    let netlist = netlist(alloc, files, netlist_file)?;
    let design = finish_block(alloc, files, spef, sdc, &library, &netlist);
    mem::drop(netlist);
    mem::drop(library);
    design
}
