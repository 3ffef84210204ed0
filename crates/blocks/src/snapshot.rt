// A snapshot: the bytes of three regions, as they were lent.
ghost use Rattle.std.specs.Prelude.{◌≡◌, length};
ghost use Rattle.blocks.specs.Snapshot.{or_empty};
ghost use Rattle.blocks.specs.Means.{region_of, snapshot_of, region_bytes, content_in};

use crate::block::{Region, block_content};

#[derive(Clone, Copy)]
pub struct Snapshot<'a> {
    pub worktree: &'a [u8],
    pub common: Option<&'a [u8]>,
    pub packed: &'a [u8],
}

// The sizes of a snapshot's regions.
#[derive(Clone, Copy, Debug, PartialEq, Eq)]
pub struct Sizes {
    pub worktree: usize,
    pub common: usize,
    pub packed: usize,
}

impl<'a> Snapshot<'a> {
    // An absent common region lists as empty.
    pub fn common_or_empty(self) -> &'a [u8]
        ensures { result.now ≡ or_empty (snapshot_of self.entry).common }
    {
        self.common.unwrap_or(&[])
    }

    // The bytes of a region.
    pub fn region(self, region: Region) -> &'a [u8]
        ensures { result.now ≡ region_bytes (snapshot_of self.entry) (region_of region) }
    {
        match region {
            Region::Worktree => self.worktree,
            Region::Common => self.common_or_empty(),
            Region::Packed => self.packed,
        }
    }

    // The content of block k of a region, and nothing past its last block.
    pub fn content_at(self, region: Region, k: usize) -> &'a [u8]
        ensures { result.now ≡ content_in (region_bytes (snapshot_of self.entry) (region_of region)) k }
    {
        block_content(self.region(region), k)
    }

    // An absent common region has the size 0.
    pub fn sizes(self) -> Sizes
        ensures worktree { result.worktree ≡ length (snapshot_of self.entry).worktree }
        ensures common { result.common ≡ length (or_empty (snapshot_of self.entry).common) }
        ensures packed { result.packed ≡ length (snapshot_of self.entry).packed }
    {
        Sizes {
            worktree: self.worktree.len(),
            common: self.common_or_empty().len(),
            packed: self.packed.len(),
        }
    }
}
