//! The lines of nets, as they are written.

ghost use Rattle.std.specs.Prelude.{◌≡◌, ◌++◌, OnOk};
ghost use Rattle.std.specs.Fmt.{decimal};
ghost use Rattle.text_lines.specs.Fields.{field};
ghost use Rattle.text_lines.specs.Lines.{line_text, text_of};
ghost use Rattle.linked_text.specs.Linked.{net_line, given_line, given_lines, coupling_line, sink_line, arc_line};
ghost use Rattle.linked_text.specs.Linked.{kind_field, net_lines};
ghost use Rattle.linked_text.specs.Writing.{spaced};

use crate::writer::{Writer, write_each};
use std::alloc::AllocError;
use text_lines::{edge_word, push_bare_number, push_number, push_word};
use xt_model::{Coupling, Edge, Net, NetId, Quad, SinkPin, TimingArc};

/// The word for a kind of net.
fn kind_word(input: bool) -> &'static [u8]
    ensures { result.now ≡ kind_field input }
{
    if input { b"i" } else { b"w" }
}

/// Writes the heads of nets.
pub struct HeadWriter;

impl Writer for HeadWriter {
    type Value = Net;

    ghost text = { λ _ n. line_text (net_line n) };

    fn write(&self, out: &mut Vec<u8>, net: &Net) -> Result<(), AllocError> {
        push_word(out, b"net", b' ')?;
        push_word(out, net.name.bytes(), b' ')?;
        push_word(out, kind_word(net.input), b' ')?;
        push_number(out, net.load, b' ')?;
        push_number(out, net.couplings.len(), b' ')?;
        push_number(out, net.sinks.len(), b' ')?;
        push_number(out, net.arcs.len(), b'\n')
    }
}

/// Appends the line of what is given for an edge.
fn push_given(out: &mut Vec<u8>, edge: Edge, quad: &Quad) -> Result<(), AllocError>
    ensures { OnOk result (out.new.items ≡ out.old.items ++ line_text (given_line edge quad.now)) }
{
    push_word(out, edge_word(edge), b' ')?;
    if !quad.live() {
        return push_word(out, b"quiet", b'\n');
    }
    push_number(out, quad.tlo, b' ')?;
    push_number(out, quad.thi, b' ')?;
    push_number(out, quad.slo, b' ')?;
    push_number(out, quad.shi, b'\n')
}

/// Appends the lines of what is given for a net, of which one with arcs has none.
fn push_pair(out: &mut Vec<u8>, net: &Net) -> Result<(), AllocError>
    ensures { OnOk result (out.new.items ≡ out.old.items ++ text_of (given_lines net.now net.now.arcs)) }
{
    if !net.arcs.as_slice().is_empty() {
        return Ok(());
    }
    let given = net.given.pair();
    push_given(out, Edge::Rise, &given.rise)?;
    push_given(out, Edge::Fall, &given.fall)
}

/// Writes couplings.
struct CouplingWriter;

impl Writer for CouplingWriter {
    type Value = Coupling;

    ghost text = { λ _ k. line_text (coupling_line k) };

    fn write(&self, out: &mut Vec<u8>, coupling: &Coupling) -> Result<(), AllocError> {
        push_word(out, b"couple", b' ')?;
        push_number(out, coupling.to.0, b' ')?;
        push_number(out, coupling.cap, b'\n')
    }
}

/// Writes coefficients, each after a space.
struct CoefficientWriter;

impl Writer for CoefficientWriter {
    type Value = i128;

    ghost text = { λ _ x. spaced x };

    fn write(&self, out: &mut Vec<u8>, value: &i128) -> Result<(), AllocError> {
        out.push(b' ')?;
        push_bare_number(out, *value)
    }
}

/// Writes sinks.
struct SinkWriter;

impl Writer for SinkWriter {
    type Value = SinkPin;

    ghost text = { λ _ s. line_text (sink_line s) };

    fn write(&self, out: &mut Vec<u8>, sink: &SinkPin) -> Result<(), AllocError> {
        push_word(out, b"sink", b' ')?;
        push_word(out, sink.name.bytes(), b' ')?;
        push_bare_number(out, sink.base)?;
        write_each(out, &CoefficientWriter, sink.coefs.as_slice())?;
        out.push(b'\n')?;
        Ok(())
    }
}

/// Appends a net and one of its sinks.
pub fn push_sink(out: &mut Vec<u8>, net: NetId, sink: u32) -> Result<(), AllocError>
    ensures { OnOk result (out.new.items
        ≡ out.old.items ++ (field (decimal net.0) 32 ++ field (decimal sink) 32)) }
{
    push_number(out, net.0, b' ')?;
    push_number(out, sink, b' ')
}

/// Writes arcs.
struct ArcWriter;

impl Writer for ArcWriter {
    type Value = TimingArc;

    ghost text = { λ _ a. line_text (arc_line a) };

    fn write(&self, out: &mut Vec<u8>, arc: &TimingArc) -> Result<(), AllocError> {
        push_word(out, b"arc", b' ')?;
        push_sink(out, arc.from, arc.sink)?;
        push_word(out, edge_word(arc.input), b' ')?;
        push_word(out, edge_word(arc.output), b' ')?;
        push_number(out, arc.delay, b' ')?;
        push_number(out, arc.slew, b'\n')
    }
}

/// Writes what is in the bodies of nets.
pub struct BodyWriter;

impl Writer for BodyWriter {
    type Value = Net;

    ghost text = { λ _ n. text_of (net_lines n) };

    fn write(&self, out: &mut Vec<u8>, net: &Net) -> Result<(), AllocError> {
        push_pair(out, net)?;
        write_each(out, &CouplingWriter, net.couplings.as_slice())?;
        write_each(out, &SinkWriter, net.sinks.as_slice())?;
        write_each(out, &ArcWriter, net.arcs.as_slice())
    }
}
