//! The lines on input ports for which nothing is given.

ghost use Rattle.std.specs.Prelude.{◌≡◌, ◌++◌, OnOk};
ghost use Rattle.text_lines.specs.Lines.{text_of};
ghost use Rattle.report_text.specs.Report.{is_unconstrained, unconstrained_lines};
ghost use Rattle.report_text.specs.Pieces.{unconstrained_text};

use std::alloc::AllocError;
use text_lines::push_word;
use xt_model::Net;

/// Whether the net is an input port's, and nothing is given for it.
fn is_unconstrained(net: &Net) -> bool
    ensures { result ≡ is_unconstrained net.now }
{
    let given = net.given.pair();
    net.input && !given.rise.live() && !given.fall.live()
}

/// Appends the line of a net that is unconstrained, and nothing for another.
#[tactic(auto, unfolding(text_lines::specs::Fields::field))]
fn push_net(out: &mut Vec<u8>, net: &Net) -> Result<(), AllocError>
    ensures { OnOk result (out.new.items ≡ out.old.items ++ unconstrained_text net.now) }
{
    if !is_unconstrained(net) {
        return Ok(());
    }
    push_word(out, b"unconstrained", b' ')?;
    push_word(out, net.name.bytes(), b'\n')
}

/// Appends a line for each net that is unconstrained.
pub fn push_unconstrained(out: &mut Vec<u8>, nets: &[Net]) -> Result<(), AllocError>
    ensures { OnOk result (out.new.items ≡ out.old.items ++ text_of (unconstrained_lines nets.now)) }
{
    for net in nets {
        push_net(out, net)?;
    }
    Ok(())
}
