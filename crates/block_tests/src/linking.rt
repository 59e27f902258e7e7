//! Linking by itself: what a refusal keeps beyond its line.

use crate::block::{LIB, SPEF};
use crate::call::{calm, outcome};
use design_link::link;
use liberty_cells::read_library;
use link_rules::{LinkFault, LinkRefusal};
use sdc_read::read_sdc;
use spef_read::read_spef;
use std::alloc::{AllocError, Global};
use std::test::Fail;
use std::thread::Threads;
use verilog_net::read_netlist;
use xt_lex::MOST_BYTES;
use xt_model::Name;

/// Two inverters, each of which drives the other.
const LOOP: &str = "\
module m (a); input a; wire b, c; INV u1 (.A(b), .Y(c)); INV u2 (.A(c), .Y(b)); endmodule
";

/// The lines of the block's parasitics before the first name.
fn head_of_spef(alloc: Global) -> Result<String, AllocError> {
    let mut text = String::new(alloc);
    for line in SPEF.lines().take(14) {
        text.push_str(line)?;
        text.push('\n')?;
    }
    Ok(text)
}

/// Names, each with a space after it.
fn in_words(alloc: Global, names: &[Name]) -> Result<String, Fail> {
    let mut words = String::new(alloc);
    for name in names {
        words.push_str(str::from_utf8(name.bytes()).unwrap_or("?"))?;
        words.push(' ')?;
    }
    Ok(words)
}

/// The names of the nets of the loop that linking these texts finds, without constraints.
fn nets_of_loop(alloc: Global, lib: &str, netlist: &str, spef: &str) -> Result<String, Fail> {
    if MOST_BYTES < lib.len() || MOST_BYTES < netlist.len() || MOST_BYTES < spef.len() {
        return Err(Fail::from("too long"));
    }
    let library = read_library(alloc, lib.as_bytes())?;
    let netlist = read_netlist(alloc, netlist.as_bytes())?;
    let parasitics = read_spef(alloc, spef.as_bytes())?;
    let constraints = read_sdc(alloc, b"", &netlist, library.time_scale, library.cap_scale)?;
    match link(alloc, &library, &netlist, &parasitics, &constraints) {
        Err(LinkFault::Refused(LinkRefusal::K4 { nets })) => in_words(alloc, nets.as_slice()),
        _ => Err(Fail::from("no loop")),
    }
}

/// The same of the block's library, the two inverters and the head of the block's parasitics.
fn nets_of_the_loop(alloc: Global) -> Result<String, Fail> {
    let spef = head_of_spef(alloc)?;
    nets_of_loop(alloc, LIB, LOOP, spef.as_str())
}

#[test]
fn a_refused_loop_keeps_its_nets_in_order(rt: HostRuntime) -> Result<(), Fail> {
    let names = nets_of_the_loop(rt.alloc())?;
    assert_eq!(rt; names.as_str(), "b c ");
    Ok(())
}

/// What the command `report` says of them.
fn line_of_the_loop<R: Threads + Sync>(rt: &R, alloc: Global) -> Result<String, Fail> {
    let spef = head_of_spef(alloc)?;
    let texts = [
        ("r.lib", LIB.as_bytes()),
        ("r.v", LOOP.as_bytes()),
        ("r.spef", spef.as_bytes()),
        ("r.sdc", b"".as_slice()),
    ];
    outcome(
        rt,
        alloc,
        "report r.lib r.v r.spef r.sdc",
        texts.as_slice(),
        calm(alloc),
    )
}

#[test]
fn a_refused_loop_is_named_by_its_first_net(rt: HostRuntime) -> Result<(), Fail> {
    let line = line_of_the_loop(&rt, rt.alloc())?;
    assert_eq!(rt; line.as_str(), "4 link: K4 b\n");
    Ok(())
}
