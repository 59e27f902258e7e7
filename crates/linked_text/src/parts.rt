//! All of a linked text.

ghost use Rattle.std.specs.Prelude.{◌≡◌, ◌<◌, ◌^◌, is_some};
ghost use Rattle.std.specs.List.{sum_by};
ghost use Rattle.xt_model.specs.Sound.{reads_of};
ghost use Rattle.linked_text.specs.Gives.{Gives};
ghost use Rattle.linked_text.specs.Meaning.{counts_at, end_at, miller_at, parts_at};

use crate::bodies::nets;
use crate::checks::CheckReader;
use crate::fault::Stop;
use crate::head::Counts;
use crate::head_lines::{CountsReader, LastReader, MillerReader, PeriodReader, VersionReader};
use crate::heads::{heads, keeps, sink_counts};
use crate::read_line::{read_line, read_many};
use crate::tables::TableReader;
use sound_parts::reads_in_all;
use std::alloc::Global;
use std::mem::drop;
use xt_model::limits::{MOST_CHECKS, MOST_NETS, MOST_READS, MOST_TABLES};
use xt_model::{DesignParts, LimitKind, Miller, Row};

/// How many tables, nets and checks there are.
#[tactic(auto, unfolding(crate::specs::Meaning::counts_at))]
fn counts(alloc: Global, bytes: &[u8]) -> Result<(Counts, &[u8]), Stop>
    ensures { Gives (λ x. (x.0, x.1.now)) result (counts_at bytes.now) }
{
    let (counts, rest) = read_line(alloc, &CountsReader, bytes)?;
    keeps(
        LimitKind::Tables,
        counts.tables as u128,
        MOST_TABLES as u128,
    )?;
    keeps(LimitKind::Nets, counts.nets as u128, MOST_NETS as u128)?;
    keeps(
        LimitKind::Checks,
        counts.checks as u128,
        MOST_CHECKS as u128,
    )?;
    Ok((counts, rest))
}

/// The Miller numbers of a text in the version of the classical ones, or in the other version.
#[tactic(auto, unfolding(crate::specs::Meaning::miller_at))]
fn miller(alloc: Global, classical: bool, bytes: &[u8]) -> Result<(Miller, &[u8]), Stop>
    ensures { Gives (λ x. (x.0, x.1.now)) result (miller_at classical bytes.now) }
{
    if classical {
        return Ok((Miller::classical(), bytes));
    }
    read_line(alloc, &MillerReader, bytes)
}

/// The parts of a text up to its last line, and the bytes from that line on.
#[tactic(auto, unfolding(crate::specs::Meaning::parts_at))]
pub fn parts(alloc: Global, bytes: Vec<u8>) -> Result<(DesignParts, Vec<u8>), Stop>
    ensures { Gives (λ x. (x.0, x.1.items)) result (parts_at bytes.items) }
{
    let (version, rest) = read_line(alloc, &VersionReader, bytes.as_slice())?;
    let (counts, rest) = counts(alloc, rest)?;
    let (period, rest) = read_line(alloc, &PeriodReader, rest)?;
    let (miller, rest) = miller(alloc, version, rest)?;
    let (tables, rest) = read_many(alloc, &TableReader, counts.tables, rest)?;
    let (heads, rest) = heads(alloc, counts.nets, rest)?;
    let sinks = sink_counts(alloc, heads.as_slice())?;
    let bodies = Vec::from_slice(alloc, rest)?;
    drop(bytes);
    let (nets, rest) = nets(alloc, sinks.as_slice(), counts.tables, heads, bodies)?;
    let reader = CheckReader {
        period: period.is_some(),
        sinks: sinks.as_slice(),
        tables: counts.tables,
    };
    let (checks, rest) = read_many(alloc, &reader, counts.checks, rest.as_slice())?;
    let last = Vec::from_slice(alloc, rest)?;
    let parts = DesignParts {
        period,
        tables: Row::from_vec(tables),
        nets: Row::from_vec(nets),
        checks: Row::from_vec(checks),
        miller,
    };
    Ok((parts, last))
}

/// The last line, at which the reads of all nets are tested, and the bytes after it.
#[tactic(auto, unfolding(crate::specs::Meaning::end_at))]
pub fn end<'a>(alloc: Global, parts: &DesignParts, bytes: &'a [u8]) -> Result<((), &'a [u8]), Stop>
    requires { sum_by (reads_of parts.now) parts.now.nets < 2 ^ 64 }
    ensures { Gives (λ x. (x.0, x.1.now)) result (end_at parts.now bytes.entry.now) }
{
    let (last, rest) = read_line(alloc, &LastReader, bytes)?;
    keeps(
        LimitKind::Reads,
        reads_in_all(parts) as u128,
        MOST_READS as u128,
    )?;
    Ok((last, rest))
}
