//! The nets of a generated design, from what was drawn.

ghost use Rattle.std.specs.Prelude.{◌≡◌, ◌<◌, map, pos, ◌*ℤ◌, slice_get, unwrap_or, IfOk};
ghost use Rattle.std.specs.List.{All};
ghost use Rattle.xt_model.specs.Quads.{bottom};
ghost use Rattle.design_gen.specs.Laws.{IsCount};
ghost use Rattle.design_gen.specs.Taps.{pins};
ghost use Rattle.design_gen.specs.Generated.{net_name, pin_name, sink_of, both_edges};

use crate::couplings::DrawnCoupling;
use crate::drivers::sources;
use itoa::Buffer;
use smallvec::SmallVec;
use std::alloc::{AllocError, Global};
use xt_model::{Coupling, Name, Pair, Quad, Row, SinkPin};

/// The bytes of the name of a net: `n` and its number.
fn name_bytes(alloc: Global, net: u32) -> Result<SmallVec<u8, 16>, AllocError>
    ensures { IfOk result (λ bytes. bytes.items ≡ net_name net) }
{
    let mut buffer = Buffer::new();
    let mut bytes = SmallVec::from_slice(alloc, b"n")?;
    bytes.extend_from_slice(buffer.format(net).as_bytes())?;
    Ok(bytes)
}

/// The name of a net.
pub(crate) fn net_name(alloc: Global, net: u32) -> Result<Name, AllocError>
    requires { net < 1000000 }
    ensures { IfOk result (λ name. name ≡ net_name net) }
{
    let bytes = name_bytes(alloc, net)?;
    Name::from_slice(alloc, bytes.as_slice())
}

/// The name of an input pin: that of its net, and its letter.
fn pin_name(alloc: Global, nets: u32, pin: u32) -> Result<Name, AllocError>
    requires count { IsCount nets }
    requires pin { pin < pins nets }
    ensures { IfOk result (λ name. name ≡ pin_name nets pin) }
{
    let mut bytes = name_bytes(alloc, sources(nets) + pin / 2)?;
    bytes.extend_from_slice(&[b'/', b'A' + (pin % 2) as u8])?;
    Name::from_slice(alloc, bytes.as_slice())
}

/// The couplings of a net, as they were drawn.
pub(crate) fn couplings_of(
    alloc: Global,
    drawn: &[DrawnCoupling],
) -> Result<Vec<Coupling>, AllocError>
    ensures { IfOk result (λ couplings. couplings.items ≡ drawn.now) }
{
    let mut couplings = Vec::with_capacity(alloc, drawn.len())?;
    for coupling in drawn {
        couplings.push(coupling.coupling())?;
    }
    Ok(couplings)
}

/// The wire coefficients of a sink.
fn coefficients(alloc: Global, couplings: &[Coupling]) -> Result<Row<i128>, AllocError>
    ensures { IfOk result (λ row. row ≡ map (λ k. pos 100000 *ℤ k.cap) couplings.now) }
{
    let mut coefs = Vec::with_capacity(alloc, couplings.len())?;
    for coupling in couplings {
        coefs.push(100_000 * i128::from(coupling.cap))?;
    }
    Ok(Row::from_vec(coefs))
}

/// The sinks of a net of this load, in aF.
pub(crate) fn sinks(
    alloc: Global,
    nets: u32,
    load: u32,
    couplings: &[Coupling],
    numbers: &[u32],
) -> Result<Row<SinkPin>, AllocError>
    requires count { IsCount nets }
    requires pins { All (λ p. p < pins nets) numbers.now }
    ensures { IfOk result (λ row. row ≡ map (sink_of nets load couplings.now) numbers.now) }
{
    let mut sinks = Vec::with_capacity(alloc, numbers.len())?;
    for pin in numbers {
        sinks.push(SinkPin {
            name: pin_name(alloc, nets, *pin)?,
            base: 100_000 * i128::from(load),
            coefs: coefficients(alloc, couplings)?,
        })?;
    }
    Ok(Row::from_vec(sinks))
}

/// The window, or none, for both edges.
pub(crate) fn given(windows: &[Quad], net: u32) -> Pair
    ensures { result ≡ both_edges (unwrap_or (slice_get windows.now net) bottom) }
{
    match windows.get(net as usize) {
        Some(window) => Pair {
            rise: *window,
            fall: *window,
        },
        None => Pair {
            rise: Quad::bottom(),
            fall: Quad::bottom(),
        },
    }
}
