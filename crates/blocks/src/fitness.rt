// Sizes and fitness for search of a snapshot's regions.
ghost use Rattle.std.specs.Prelude.{◌≡◌, option_copied};
ghost use Rattle.blocks.specs.Entry.{entries};
ghost use Rattle.blocks.specs.Fitness.{whole, not_too_many, above, flaw, first_flaw};
ghost use Rattle.blocks.specs.Snapshot.{sizes_within, size_check, store, store_flaw};
ghost use Rattle.blocks.specs.Means.{id_width, region_of, entry_as, snapshot_of, size_number, sizes_check, reason_number, reason_check, flaw_of};

use crate::block::{BLOCK_SIZE, Block, Entry, MOST_BLOCKS, Region, blocks};
use crate::snapshot::{Sizes, Snapshot};
use names::bytes::compare;

// Why sizes are refused: 1 and 2.
#[derive(Clone, Copy, Debug, PartialEq, Eq)]
pub enum SizeError {
    NotWhole = 1,
    TooMany = 2,
}

// The number in document 01's table.
impl From<SizeError> for u32 {
    ghost from_gives = { λ e n. n ≡ size_number e };

    fn from(e: SizeError) -> u32 {
        e as u32
    }
}

fn is_whole(size: usize) -> bool
    ensures { result ≡ whole size }
{
    size % BLOCK_SIZE == 0
}

fn is_not_too_many(most: u32, size: usize) -> bool
    ensures { result ≡ not_too_many most size }
{
    size <= most as usize * BLOCK_SIZE
}

impl Sizes {
    // Rows 1 and 2, where a region may have so many blocks: the earlier row first, whatever the region.
    #[tactic(auto, unfolding(crate::specs::Snapshot::sizes_within))]
    pub fn check(self, most: u32) -> Result<(), SizeError>
        ensures { sizes_check result ≡ sizes_within most self.worktree self.common self.packed }
    {
        let sizes = [self.worktree, self.common, self.packed];
        if !sizes.iter().all(|&n| is_whole(n)) {
            return Err(SizeError::NotWhole);
        }
        if !sizes.iter().all(|&n| is_not_too_many(most, n)) {
            return Err(SizeError::TooMany);
        }
        Ok(())
    }
}

// Rows 1 and 2 of a snapshot.
#[tactic(auto, unfolding(crate::specs::Snapshot::size_check))]
pub fn size_check(s: Snapshot<'_>) -> Result<(), SizeError>
    ensures { sizes_check result ≡ size_check (snapshot_of s.entry) }
{
    s.sizes().check(MOST_BLOCKS)
}

// Why a block is unfit: 6, 7 and 8.
#[derive(Clone, Copy, Debug, PartialEq, Eq)]
pub enum Reason {
    Damaged = 6,
    ErrorKind = 7,
    NotAbove = 8,
}

// The number in document 01's table.
impl From<Reason> for u32 {
    ghost from_gives = { λ why n. n ≡ reason_number why };

    fn from(why: Reason) -> u32 {
        why as u32
    }
}

// The first block that is unfit for search.
#[derive(Clone, Copy, Debug, PartialEq, Eq)]
pub struct Unfit {
    pub reason: Reason,
    pub region: Region,
    pub block: usize,
}

// Whether a name is above the one before, if there is one.
fn order_fitness(before: Option<&[u8]>, name: &[u8]) -> Result<(), Reason>
    ensures { reason_check result ≡ above (option_copied before.entry) name.now }
{
    match before {
        Some(before) if compare(before, name).is_ge() => Err(Reason::NotAbove),
        _ => Ok(()),
    }
}

// What is wrong with an entry behind the name before, if anything is.
fn entry_fitness(before: Option<&[u8]>, entry: Entry<'_>) -> Result<(), Reason>
    ensures { reason_check result ≡ flaw (option_copied before.entry) (entry_as entry.entry) }
{
    match entry {
        Entry::Damaged => Err(Reason::Damaged),
        Entry::Failed => Err(Reason::ErrorKind),
        Entry::Loose { name, .. } | Entry::Unread { name } | Entry::Record { name, .. } => {
            order_fitness(before, name)
        }
    }
}

// Whether a region is fit for search, or its first block that is not.
pub fn region_fitness(s: &[u8], region: Region) -> Result<(), Unfit>
    ensures { flaw_of result ≡ first_flaw (region_of region) (entries id_width (region_of region) s.now) }
{
    let mut before = None;
    for (k, bytes) in blocks(s).iter().enumerate() {
        let entry = Block { bytes }.entry(region);
        if let Err(reason) = entry_fitness(before, entry) {
            return Err(Unfit {
                reason,
                region,
                block: k,
            });
        }
        before = entry.name();
    }
    Ok(())
}

// Rows 6 to 8: the first block counts, regions in the order worktree, common, packed.
pub fn fitness(s: Snapshot<'_>) -> Result<(), Unfit>
    ensures { flaw_of result ≡ store_flaw (store id_width (snapshot_of s.entry)) }
{
    region_fitness(s.worktree, Region::Worktree)?;
    region_fitness(s.common_or_empty(), Region::Common)?;
    region_fitness(s.packed, Region::Packed)
}
