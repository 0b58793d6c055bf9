//! The chunks that wait, stream by stream.

ghost use Rattle.std.specs.Prelude.{◌≡◌, ◌+◌, ◌<◌, ◌^◌, length, map, slice_index_or, All, IfOk};
ghost use Rattle.chk_record_index.specs.Order.{no_head};
ghost use Rattle.chk_ctl_held.specs.Groups.{group_of, groups, with_head};
ghost use Rattle.chk_ctl_held.specs.Views.{group_view, IsGroup};

use chk_bytes::NoMemory;
use chk_record_index::Heads;
use std::alloc::Global;

/// Chunks of one stream that wait.
#[derive(Clone, Copy)]
pub(crate) struct Group {
    /// The place of the head of the first one.
    pub first: usize,
    pub count: u64,
    /// The offset past the last byte of all of them.
    pub end: u64,
}

/// A group for each stream of the heads, which are in order. It takes 24 bytes for each.
pub(crate) fn groups_of(alloc: Global, heads: &Heads) -> Result<Vec<Group>, NoMemory>
    ensures is { IfOk result (λ gs. map (group_view heads.now) gs.items ≡ groups heads.now) }
    ensures well { IfOk result (λ gs. All (λ g. g.first < length heads.now) gs.items) }
{
    let mut done = Vec::new(alloc);
    if heads.len() == 0 {
        return Ok(done);
    }
    let mut group = group_at(heads, 0);
    for index in 1..heads.len() {
        if heads.are_of_one(group.first, index) {
            group = with_head(heads, group, index);
        } else {
            done.push(group)?;
            group = group_at(heads, index);
        }
    }
    done.push(group)?;
    Ok(done)
}

/// The group of this head alone.
fn group_at(heads: &Heads, index: usize) -> Group
    requires index { index < length heads.now }
    ensures is { group_view heads.now result ≡ group_of (slice_index_or heads.now index no_head) }
    ensures well { IsGroup heads.now (index + 1) result }
{
    Group {
        first: index,
        count: 1,
        end: heads.get(index).key.seq,
    }
}

/// The group with this head of its stream, which stands behind the others.
fn with_head(heads: &Heads, group: Group, index: usize) -> Group
    requires index { index < length heads.now }
    requires few { length heads.now < 2 ^ 64 }
    requires well { IsGroup heads.now index group }
    ensures is { group_view heads.now result
        ≡ with_head (group_view heads.now group) (slice_index_or heads.now index no_head) }
    ensures well { IsGroup heads.now (index + 1) result }
{
    Group {
        first: group.first,
        count: group.count + 1,
        end: group.end.max(heads.get(index).key.seq),
    }
}
