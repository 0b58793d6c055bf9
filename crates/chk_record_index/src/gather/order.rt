//! The order in which heads are gone through.

ghost use Rattle.std.specs.Prelude.{◌≡◌, ◌<◌, ◌^◌, List, length, map, slice_index_or, IsTrue, IfOk, OnOk, OnErr};
ghost use Rattle.chk_chunk.specs.Keys.{has_words};
ghost use Rattle.chk_chunk.specs.Lent.{lent_key};
ghost use Rattle.std.specs.Ordering.{is_lt};
ghost use Rattle.chk_record_index.specs.Order.{in_head_order, rank_in, row_rank, row_place, row_first, without_turn, TakeTurns, origin_before, no_head, lent_head, of_one_stream, AreInOrder};
ghost use Rattle.chk_record_index.specs.HeadRows.{row_begin};
ghost use Rattle.chk_record_index.specs.declared.origins.Origin.{Origin};

use super::{Heads, Row};
use crate::origins::Origin;
use chk_bytes::NoMemory;
use chk_chunk::KeyRef;
use std::alloc::Global;
use std::cmp::Ordering;

/// A head that borrows its texts: the key of the chunk, its first offset, the number of its file, and the place of its
/// record there.
#[derive(Clone, Copy, Debug)]
pub struct HeadRef<'a> {
    pub key: KeyRef<'a>,
    pub begin: u64,
    pub file: u32,
    pub at: u64,
}

impl Heads {
    /// Puts the heads in order: by stream, in byte order of source, type and name, then by first offset and by sequence id.
    /// Those that are alike in these keep the order that they had. It takes memory for a number and a reference for each
    /// stream, and none for the heads; a comparison of heads reads no text. Without memory the heads are as before; so are
    /// more than 4,294,967,295 of them, which count as want of memory.
    pub fn sort(&mut self, alloc: Global) -> Result<(), NoMemory>
        ensures ok { OnOk result (self.new ≡ in_head_order self.old) }
        ensures err { OnErr result (self.new ≡ self.old) }
    {
        let ranks = ranks_of(alloc, &self.origins)?;
        take_turns(&mut self.rows)?;
        self.rows.sort_unstable_by(|a, b| compare(&ranks, a, b));
        Ok(())
    }

    /// The head at this place, without a copy.
    pub fn get(&self, index: usize) -> HeadRef<'_>
        requires { index < length self.now }
        ensures head { lent_head result ≡ slice_index_or self.now index no_head }
        ensures words { IsTrue (has_words (lent_key result.key)) }
    {
        let row = &self.rows[index];
        let origin = &self.origins[row.origin as usize];
        HeadRef {
            key: KeyRef {
                source: origin.source.as_str(),
                kind: origin.kind.as_str(),
                name: origin.name.as_str(),
                start: origin.start,
                cluster: origin.cluster.as_str(),
                seq: row.end,
            },
            begin: row.begin(),
            file: row.file,
            at: row.at,
        }
    }

    /// Whether the heads at two places are of one stream.
    pub fn are_of_one(&self, i: usize, j: usize) -> bool
        requires first { i < length self.now }
        requires second { j < length self.now }
        ensures { result ≡ of_one_stream (slice_index_or self.now i no_head) (slice_index_or self.now j no_head) }
    {
        if self.rows[i].origin == self.rows[j].origin {
            return true;
        }
        let a = self.get(i).key;
        let b = self.get(j).key;
        a.source == b.source && a.kind == b.kind && a.name == b.name
    }
}

/// The origins in the order of their streams.
fn in_order<'a>(alloc: Global, origins: &'a [Origin]) -> Result<Vec<&'a Origin>, NoMemory>
    ensures { IfOk result (λ sorted. AreInOrder origins.now sorted.items) }
{
    let mut sorted: Vec<&Origin> = origins.iter().collect(alloc)?;
    sorted.sort_by(|a, b| compare_streams(a, b))?;
    Ok(sorted)
}

/// How the streams of two origins stand to each other.
fn compare_streams(a: &Origin, b: &Origin) -> Ordering
    ensures { is_lt result ≡ origin_before a.now b.now }
{
    if a.is_before(b) {
        Ordering::Less
    } else if b.is_before(a) {
        Ordering::Greater
    } else {
        Ordering::Equal
    }
}

/// How many of the origins, which are given in order, come before one.
fn rank_of(sorted: &[&Origin], of: &Origin) -> usize
    ensures { (origins : List Origin) → AreInOrder origins sorted.now → result ≡ rank_in origins of.now }
{
    sorted.partition_point(|origin| origin.is_before(of))
}

/// A number for each origin, which are in the order of their streams: how many come before it. It costs a sort of the origins,
/// and holds a reference to each meanwhile.
fn ranks_of(alloc: Global, origins: &[Origin]) -> Result<Vec<usize>, NoMemory>
    ensures { IfOk result (λ ranks. ranks.items ≡ map (rank_in origins.now) origins.now) }
{
    let sorted = in_order(alloc, origins)?;
    let mut ranks = Vec::new(alloc);
    for origin in origins {
        ranks.push(rank_of(&sorted, origin))?;
    }
    Ok(ranks)
}

/// The number of a row's origin.
fn rank(ranks: &[usize], row: &Row) -> usize
    ensures { result ≡ row_rank ranks.now row.now }
{
    ranks.get(row.origin as usize).copied().unwrap_or(0)
}

/// Where a row stands by its stream and its first offset.
fn place(ranks: &[usize], row: &Row) -> u128
    ensures is { result ≡ row_place ranks.now row.now }
    ensures low { row_begin row.now < 2 ^ 64 }
{
    rank(ranks, row) as u128 * (1 << 64) + u128::from(row.begin())
}

/// Which row comes first. Places that differ are compared without a branch, since a sort can't foretell which one is less.
fn compare(ranks: &[usize], a: &Row, b: &Row) -> Ordering
    ensures { is_lt result ≡ row_first ranks.now a.now b.now }
{
    let (first, second) = (place(ranks, a), place(ranks, b));
    if first == second {
        return (a.end, a.turn).cmp(&(b.end, b.turn));
    }
    first.cmp(&second)
}

/// Numbers the rows as they stand, so that no two of them are alike: a sort that doesn't keep the order of those that are
/// alike has one result then.
fn take_turns(rows: &mut [Row]) -> Result<(), NoMemory>
    ensures same { map without_turn rows.new ≡ map without_turn rows.old }
    ensures turns { OnOk result (TakeTurns rows.new) }
{
    if rows.len() > u32::MAX as usize {
        return Err(NoMemory);
    }
    let mut next = 0;
    for row in rows.iter_mut() {
        row.turn = next;
        next += 1;
    }
    Ok(())
}
