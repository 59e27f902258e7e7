//! What is found in the windows of a design: worst paths, couplings that matter, and slacks.

ghost use Rattle.xt_model.specs.declared.direction.Direction.TheVariants.{Narrow};
ghost use Rattle.xt_meaning.specs.Barrier.{IsFittingStart, IsWithinEnvelope};
ghost use Rattle.xt_meaning.specs.Fixpoint.{IsFixpoint};

use crate::starts::{low, read, settled, top};
use crate::texts::{field, text_of};
use aggressor_report::{Path, guilty, worst_path};
use slack_report::slacks;
use std::alloc::{AllocError, Global};
use std::test::Fail;
use xt_model::{Design, Direction, Edge, NetId, Windows};

/// An edge of a net, and whether its latest or its earliest time is asked for.
#[derive(Clone, Copy)]
struct Bound {
    net: u32,
    edge: Edge,
    late: bool,
}

/// The worst path to a bound, where the net is there and the edge can switch.
fn path_in(alloc: Global, design: &Design, windows: &Windows, bound: Bound) -> Result<Path, Fail>
    requires fixpoint { IsFixpoint design.now windows.now }
    requires within { IsWithinEnvelope design.now windows.now }
{
    let Bound { net, edge, late } = bound;
    if net as usize >= design.nets().len() {
        return Err(Fail::from("there is no such net"));
    }
    let window = windows.pair(net as usize).at(edge);
    if !window.live() {
        return Err(Fail::from("the edge never switches"));
    }
    let path = worst_path(alloc, design, windows, NetId(net), edge, late)?;
    Ok(path)
}

/// The source's net, edge and time; and of each step the net, the edge, the number of the arc, the wire and the delay.
fn path_in_words(alloc: Global, path: &Path) -> Result<String, AllocError> {
    let (net, edge, time) = (path.net.0, path.edge, path.time);
    let mut words = format!(in alloc; "{net} {edge:?} {time}")?;
    for step in path.steps.as_slice() {
        let (net, edge, arc) = (step.net.0, step.edge, step.arc);
        let (wire, delay) = (step.wire, step.delay);
        let more = format!(in alloc; "; {net} {edge:?} {arc} {wire} {delay}")?;
        words.push_str(more.as_str())?;
    }
    Ok(words)
}

/// The path to a bound in the greatest windows, which lie within these.
fn path_within(alloc: Global, design: &Design, top: &Windows, bound: Bound) -> Result<String, Fail>
    requires { IsFittingStart Narrow design.now top.now }
{
    let high = settled(alloc, design, Direction::Narrow, top)?;
    let path = path_in(alloc, design, &high, bound)?;
    Ok(path_in_words(alloc, &path)?)
}

/// The path to a bound in the greatest windows.
fn path_in_greatest(alloc: Global, design: &Design, bound: Bound) -> Result<String, Fail> {
    let top = top(alloc, design)?;
    path_within(alloc, design, &top, bound)
}

/// The path to a bound in the greatest windows of a text's design.
fn path_of(alloc: Global, text: &[u8], bound: Bound) -> Result<String, Fail> {
    let design = read(alloc, text)?;
    path_in_greatest(alloc, &design, bound)
}

/// The bound that words ask for.
fn bound_of(words: &str) -> Bound {
    Bound {
        net: field(words, ' ', 0).parse::<u32>().unwrap_or(u32::MAX),
        edge: if field(words, ' ', 1) == "rise" {
            Edge::Rise
        } else {
            Edge::Fall
        },
        late: field(words, ' ', 2) == "late",
    }
}

/// Designs and bounds of their greatest windows, and the paths to these.
///
/// Of the ten gates s rises at 0 to 10 and falls at 100 to 130, with slews of 0 to 100, which are 4 to 104 after the
/// wire of 2 to m: its delays are 7 to 11. By the rise of s m falls at 9 to 23, by its fall at 109 to 143. z rises by m
/// at 12 to 146, and by s at 116 to 146: two of its arcs give 146, and the first of them is taken. After it come eight
/// times 6. The earliest time has the least delays.
///
/// Of the crossed nets the wire to c takes 200 fs with d at rest while s rises, and 0 where d rises with it: c rises at
/// 1500 to 1700.
const PATHS: &str = "\
ten gates | 10 rise late | 0 Fall 130; 1 Fall 1 2 11; 2 Rise 1 0 3; 3 Fall 0 1 5; 4 Rise 0 1 5; 5 Fall 0 1 5; \
    6 Rise 0 1 5; 7 Fall 0 1 5; 8 Rise 0 1 5; 9 Fall 0 1 5; 10 Rise 0 1 5
ten gates | 10 rise early | 0 Rise 0; 1 Fall 0 2 7; 2 Rise 1 0 3; 3 Fall 0 1 5; 4 Rise 0 1 5; 5 Fall 0 1 5; \
    6 Rise 0 1 5; 7 Fall 0 1 5; 8 Rise 0 1 5; 9 Fall 0 1 5; 10 Rise 0 1 5
cross | 2 rise late | 0 Rise 1000; 2 Rise 0 200 500
cross | 2 rise early | 0 Rise 1000; 2 Rise 0 0 500
one | 0 rise late | 0 Rise 1000
";

#[test]
fn paths_go_back_by_the_first_arc_that_gives_the_bound(rt: HostRuntime) -> Result<(), Fail> {
    for row in PATHS.lines() {
        let (text, bound) = (text_of(field(row, '|', 0)), bound_of(field(row, '|', 1)));
        let path = path_of(rt.alloc(), text, bound)?;
        assert!(rt; path.as_str() == field(row, '|', 2), "{path} at {row}");
    }
    Ok(())
}

/// The net, the edge and the number of the coupling of each one that matters, and its marks.
fn guilty_in_words(
    alloc: Global,
    design: &Design,
    low: &Windows,
    high: &Windows,
) -> Result<String, Fail>
    requires low { IsFixpoint design.now low.now }
    requires high { IsFixpoint design.now high.now }
{
    let mut words = String::new(alloc);
    for entry in &guilty(alloc, design, low, high)? {
        let (net, edge, coupling) = (entry.victim.0, entry.edge, entry.coupling);
        let (fast, slow) = (entry.fast, entry.slow);
        let more = format!(in alloc; "{net} {edge:?} {coupling} {fast:?} {slow:?};")?;
        words.push_str(more.as_str())?;
    }
    Ok(words)
}

/// The number of the check and the edge of each slack, the greatest windows' and the least windows', or that it is
/// idle.
fn slacks_in_words(
    alloc: Global,
    design: &Design,
    low: &Windows,
    high: &Windows,
) -> Result<String, Fail>
    requires low { IsFixpoint design.now low.now }
    requires low_within { IsWithinEnvelope design.now low.now }
    requires high { IsFixpoint design.now high.now }
    requires high_within { IsWithinEnvelope design.now high.now }
{
    let mut words = String::new(alloc);
    for slack in &slacks(alloc, design, low, high)? {
        let (point, edge, idle) = (slack.point, slack.edge, slack.idle);
        let (greatest, least) = (slack.greatest, slack.least);
        let more = format!(in alloc; "{point} {edge:?} {idle} {greatest} {least};")?;
        words.push_str(more.as_str())?;
    }
    Ok(words)
}

/// Couplings that matter and slacks, with a bar between them, in the least and the greatest windows.
fn found_between(
    alloc: Global,
    design: &Design,
    least: &Windows,
    greatest: &Windows,
) -> Result<String, Fail>
    requires low { IsFixpoint design.now least.now }
    requires low_within { IsWithinEnvelope design.now least.now }
    requires high { IsFixpoint design.now greatest.now }
    requires high_within { IsWithinEnvelope design.now greatest.now }
{
    let guilty = guilty_in_words(alloc, design, least, greatest)?;
    let slacks = slacks_in_words(alloc, design, least, greatest)?;
    let (guilty, slacks) = (guilty.as_str(), slacks.as_str());
    Ok(format!(in alloc; "{guilty} | {slacks}")?)
}

/// The same, where these are the widest windows and the greatest ones.
fn found_below(
    alloc: Global,
    design: &Design,
    top: &Windows,
    greatest: &Windows,
) -> Result<String, Fail>
    requires top { IsFittingStart Narrow design.now top.now }
    requires high { IsFixpoint design.now greatest.now }
    requires high_within { IsWithinEnvelope design.now greatest.now }
{
    let low = low(alloc, design, top)?;
    let least = settled(alloc, design, Direction::Widen, &low)?;
    found_between(alloc, design, &least, greatest)
}

/// The same of a design.
fn found_in(alloc: Global, design: &Design) -> Result<String, Fail> {
    let top = top(alloc, design)?;
    let greatest = settled(alloc, design, Direction::Narrow, &top)?;
    found_below(alloc, design, &top, &greatest)
}

/// The same of a text's design.
fn found_of(alloc: Global, text: &[u8]) -> Result<String, Fail> {
    let design = read(alloc, text)?;
    found_in(alloc, &design)
}

/// Designs, the couplings that matter in them, and after another bar the slacks of their checks.
///
/// Of the coupled gates a rises at 1000 and b falls at 1100 where neither slows the other down, which is when they do
/// not meet; else at up to 1200 and 1300. Of the crossed nets d may rise while s rises, and c while t does.
///
/// Of the ports 10000 - 500 - (1200 + 2), and (1000 + 2) + 100. Of the flip-flop 100 + 3 - 90 - 20, where slews of 10
/// and 10 lie inside. Data that falls has slews from 12 on: 90 - 85 * 2 / 10 is 73, and 100 + 3 - 73 - 20 is 10.
const FOUND: &str = "\
one | |
load pair | 2 Rise 0 No Possible;3 Fall 0 No Possible; |
cross | 0 Rise 0 Possible No;1 Rise 0 Possible No; |
ports | | 0 Rise false 8298 8298;1 Rise false 1102 1102;1 Fall true 0 0;
inside | | 0 Rise false -7 -7;0 Fall false 10 10;
";

#[test]
fn couplings_and_slacks_are_found(rt: HostRuntime) -> Result<(), Fail> {
    for row in FOUND.lines() {
        let (name, want) = row.split_once(" | ").unwrap_or((row, ""));
        let found = found_of(rt.alloc(), text_of(name))?;
        assert!(rt; found.as_str().trim() == want, "{found} at {row}");
    }
    Ok(())
}
