//! A design once more.

ghost use Rattle.std.specs.Prelude.{◌≡◌, IfOk};

use std::alloc::{AllocError, Global};
use xt_model::{
    CheckPoint, Design, DesignParts, GivenPair, Name, Net, NoMemory, Row, SinkPin, Table,
};

fn row<T: Copy>(alloc: Global, items: &[T]) -> Result<Row<T>, AllocError>
    ensures { IfOk result (λ r. r ≡ items.now) }
{
    Ok(Row::from_vec(Vec::from_slice(alloc, items)?))
}

fn table(alloc: Global, table: &Table) -> Result<Table, AllocError>
    ensures { IfOk result (λ t. t ≡ table.now) }
{
    let slews = row(alloc, table.slews())?;
    let loads = row(alloc, table.loads())?;
    let values = row(alloc, table.values())?;
    Ok(Table::new(slews, loads, values))
}

fn tables(alloc: Global, of: &[Table]) -> Result<Vec<Table>, AllocError>
    ensures { IfOk result (λ ts. ts.items ≡ of.now) }
{
    let mut once_more = Vec::new(alloc);
    for each in of {
        once_more.push(table(alloc, each)?)?;
    }
    Ok(once_more)
}

fn sink(alloc: Global, sink: &SinkPin) -> Result<SinkPin, AllocError>
    ensures { IfOk result (λ s. s ≡ sink.now) }
{
    let name = Name::from_slice(alloc, sink.name.bytes())?;
    let coefs = row(alloc, sink.coefs.as_slice())?;
    Ok(SinkPin {
        name,
        base: sink.base,
        coefs,
    })
}

fn sinks(alloc: Global, of: &[SinkPin]) -> Result<Vec<SinkPin>, AllocError>
    ensures { IfOk result (λ ss. ss.items ≡ of.now) }
{
    let mut once_more = Vec::new(alloc);
    for each in of {
        once_more.push(sink(alloc, each)?)?;
    }
    Ok(once_more)
}

fn net(alloc: Global, net: &Net) -> Result<Net, AllocError>
    ensures { IfOk result (λ n. n ≡ net.now) }
{
    let name = Name::from_slice(alloc, net.name.bytes())?;
    let given = GivenPair::new(alloc, net.given.pair())?;
    let couplings = row(alloc, net.couplings.as_slice())?;
    let arcs = row(alloc, net.arcs.as_slice())?;
    let sinks = sinks(alloc, net.sinks.as_slice())?;
    Ok(Net {
        name,
        input: net.input,
        load: net.load,
        given,
        couplings,
        sinks: Row::from_vec(sinks),
        arcs,
    })
}

fn nets(alloc: Global, of: &[Net]) -> Result<Vec<Net>, AllocError>
    ensures { IfOk result (λ ns. ns.items ≡ of.now) }
{
    let mut once_more = Vec::new(alloc);
    for each in of {
        once_more.push(net(alloc, each)?)?;
    }
    Ok(once_more)
}

fn check(alloc: Global, check: &CheckPoint) -> Result<CheckPoint, AllocError>
    ensures { IfOk result (λ c. c ≡ check.now) }
{
    match check {
        CheckPoint::Flop {
            name,
            hold,
            datum,
            datum_sink,
            clock,
            clock_sink,
            rise,
            fall,
        } => Ok(CheckPoint::Flop {
            name: Name::from_slice(alloc, name.bytes())?,
            hold: *hold,
            datum: *datum,
            datum_sink: *datum_sink,
            clock: *clock,
            clock_sink: *clock_sink,
            rise: *rise,
            fall: *fall,
        }),
        CheckPoint::Port {
            name,
            hold,
            net,
            sink,
            rise,
            fall,
        } => Ok(CheckPoint::Port {
            name: Name::from_slice(alloc, name.bytes())?,
            hold: *hold,
            net: *net,
            sink: *sink,
            rise: *rise,
            fall: *fall,
        }),
    }
}

fn checks(alloc: Global, of: &[CheckPoint]) -> Result<Vec<CheckPoint>, AllocError>
    ensures { IfOk result (λ cs. cs.items ≡ of.now) }
{
    let mut once_more = Vec::new(alloc);
    for each in of {
        once_more.push(check(alloc, each)?)?;
    }
    Ok(once_more)
}

fn parts(alloc: Global, design: &Design) -> Result<DesignParts, AllocError>
    ensures { IfOk result (λ d. d ≡ design.now) }
{
    let tables = tables(alloc, design.tables())?;
    let checks = checks(alloc, design.checks())?;
    let nets = nets(alloc, design.nets())?;
    Ok(DesignParts {
        period: design.period(),
        tables: Row::from_vec(tables),
        nets: Row::from_vec(nets),
        checks: Row::from_vec(checks),
        miller: design.miller(),
    })
}

/// The same design once more. Fails only for want of memory, since the arcs of a design make no loop.
pub(crate) fn copied(alloc: Global, design: &Design) -> Result<Design, NoMemory>
    ensures { IfOk result (λ d. d ≡ design.now) }
{
    let parts = parts(alloc, design)?;
    prove!(parts.nets.len() == design.nets().len());
    match Design::from_parts(alloc, parts) {
        Ok(design) => Ok(design),
        Err(_) => Err(NoMemory),
    }
}
