//! The readers of all nets, from the read lists.

ghost use Rattle.std.specs.Prelude.{◌≡◌, ◌++◌, ◌<◌, ℕ, length, map, OnOk, IfOk};
ghost use Rattle.xt_model.specs.Parts.{Parts};
ghost use Rattle.net_eval.specs.ReadLists.{ids, AreReadLists};
ghost use Rattle.chaos_core.specs.Views.{Rises};
ghost use Rattle.dirty_words.specs.Readers.{AreReaders, HasReader};

use crate::reader_lists::Readers;
use net_eval::ReadLists;
use std::alloc::{AllocError, Global};
use xt_model::{NetId, NoMemory};

/// Appends a net to the rows of all nets that it reads.
fn push_reader(rows: &mut [Vec<NetId>], reader: NetId, reads: &[NetId]) -> Result<(), AllocError>
    ensures count { length rows.new ≡ length rows.old }
    ensures rows { Rises (ids reads.now) → OnOk result (HasReader
        (map (λ row. row.items) rows.old) (map (λ row. row.items) rows.new) reader.0 (ids reads.now)) }
{
    for net in reads {
        let number = net.0 as usize;
        if number < rows.len() {
            rows[number].push(reader)?;
        }
    }
    Ok(())
}

/// The net of a list. There are no more lists than numbers of nets.
fn net_at(list: usize) -> Result<NetId, NoMemory>
    ensures { IfOk result (λ net. net.0 ≡ list) }
{
    let Ok(number) = u32::try_from(list) else {
        return Err(NoMemory);
    };
    Ok(NetId(number))
}

/// Counts a reader more for each of several nets.
fn count_more(counts: &mut [u32], reads: &[NetId])
    ensures { length counts.new ≡ length counts.old }
{
    for net in reads {
        let number = net.0 as usize;
        if number < counts.len() {
            counts[number] = counts[number].saturating_add(1);
        }
    }
}

/// How many readers each net has, as far as the count goes.
fn reader_counts(alloc: Global, lists: &ReadLists) -> Result<Vec<u32>, NoMemory>
    ensures { IfOk result (λ counts. length counts.items ≡ length lists.now) }
{
    let mut counts = vec![in alloc; 0_u32; lists.count()]?;
    for number in 0..lists.count() {
        let reader = net_at(number)?;
        count_more(counts.as_mut_slice(), lists.of(reader));
    }
    Ok(counts)
}

/// The readers of each net, in two passes over the read lists: one counts them, so that each row is made at its size.
pub fn readers(alloc: Global, lists: &ReadLists) -> Result<Readers, NoMemory>
    ensures { IfOk result (λ readers. (d : Parts) → AreReadLists d lists.now → AreReaders lists.now readers) }
{
    let counts = reader_counts(alloc, lists)?;
    let mut rows = Vec::with_capacity(alloc, counts.len())?;
    for net in 0..counts.len() {
        rows.push(Vec::with_capacity(alloc, counts[net] as usize)?)?;
    }
    for number in 0..lists.count() {
        let reader = net_at(number)?;
        push_reader(rows.as_mut_slice(), reader, lists.of(reader))?;
    }
    Ok(Readers { rows })
}
