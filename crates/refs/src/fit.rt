// A snapshot that is fit for search, and its regions.
ghost use Rattle.std.specs.Prelude.{◌≡◌, true, None, Some, IfOk, IfErr};
ghost use Rattle.std.specs.Option.{option_map};
ghost use Rattle.names.specs.Means.{base_of, path};
ghost use Rattle.blocks.specs.Entry.{entries};
ghost use Rattle.blocks.specs.Fitness.{first_flaw};
ghost use Rattle.blocks.specs.Snapshot.{region_at, is_there, store, store_flaw};
ghost use Rattle.blocks.specs.Means.{id_width, region_of, block_count, region_bytes, snapshot_of, flaw_in, entry_as};
ghost use Rattle.refs.specs.Answer.{block_of};
ghost use Rattle.refs.specs.Search.{clashes};
ghost use Rattle.refs.specs.Whole.{InRange, entry_within, indexed, region_read};

use blocks::block::{BLOCK_SIZE, Entry, Region, block_name, sound_entry_at};
use blocks::fitness::{Unfit, fitness};
use blocks::snapshot::Snapshot;
use names::bytes::Joined;
use names::find::Base;

// The entry of a block. Its name and content are no longer than a block's, and its ids are whole.
#[derive(Clone, Copy)]
pub(crate) struct BlockEntry<'a> {
    pub(crate) entry: Entry<'a>,
    ghost within: { entry_within (entry_as entry) ≡ true },
}

// A region none of whose blocks is damaged or an error, and whose names rise.
#[derive(Clone, Copy)]
pub(crate) struct FitRegion<'a> {
    pub(crate) region: Region,
    pub(crate) blocks: &'a [u8],
    ghost flawless: { first_flaw (region_of region) (entries id_width (region_of region) blocks.now) ≡ None },
}

impl<'a> FitRegion<'a> {
    // The number of the block that bears the name: by halves, since names rise.
    fn position(self, name: Joined) -> Option<usize>
        ensures block { indexed result (entries id_width (region_of self.entry.region) self.entry.blocks.now) ≡ block_of (path name.entry) (entries id_width (region_of self.entry.region) self.entry.blocks.now) }
        ensures inside { InRange result (block_count self.entry.blocks.now) }
    {
        let (blocks, _) = self.blocks.as_chunks::<BLOCK_SIZE>();
        // b is a region of one block.
        let found = blocks.binary_search_by(|b| name.compare(block_name(b, 0)));
        found.ok()
    }

    // The entry that bears the name.
    pub(crate) fn entry_of(self, name: Joined) -> Option<BlockEntry<'a>>
        ensures { option_map (λ b. entry_as b.entry) result ≡ block_of (path name.entry) (entries id_width (region_of self.entry.region) self.entry.blocks.now) }
    {
        let k = self.position(name)?;
        let entry = sound_entry_at(self.blocks, k)?;
        Some(BlockEntry { entry })
    }

    // Whether a file of the region is a proper directory of the name.
    pub(crate) fn has_clash(self, name: Joined) -> bool
        ensures { result ≡ clashes (path name.entry) (entries id_width (region_of self.entry.region) self.entry.blocks.now) }
    {
        let (blocks, _) = self.blocks.as_chunks::<BLOCK_SIZE>();
        blocks.iter().any(|b| name.directory(block_name(b, 0)))
    }
}

// A snapshot whose regions are such.
#[derive(Clone, Copy)]
pub(crate) struct FitSnapshot<'a> {
    pub(crate) snapshot: Snapshot<'a>,
    ghost flawless: { store_flaw (store id_width (snapshot_of snapshot)) ≡ None },
}

impl<'a> FitSnapshot<'a> {
    // Rows 6 to 8.
    pub(crate) fn new(snapshot: Snapshot<'a>) -> Result<FitSnapshot<'a>, Unfit>
        ensures fit { IfOk result (λ f. f.snapshot ≡ snapshot.entry) }
        ensures unfit { IfErr result (λ u. store_flaw (store id_width (snapshot_of snapshot.entry)) ≡ Some (flaw_in u)) }
    {
        fitness(snapshot)?;
        Ok(FitSnapshot { snapshot })
    }

    // The loose region of a base. Without a common region the worktree's plays its part.
    pub(crate) fn loose(self, base: Base) -> FitRegion<'a>
        ensures entries { entries id_width (region_of result.region) result.blocks.now ≡ region_at (base_of base) (store id_width (snapshot_of self.entry.snapshot)) }
        ensures read { region_of result.region ≡ region_read (base_of base) (is_there (snapshot_of self.entry.snapshot).common) }
    {
        match (base, self.snapshot.common) {
            (Base::Shared, Some(_)) => self.region(Region::Common),
            _ => self.region(Region::Worktree),
        }
    }

    #[tactic(auto, using(crate::proofs::FitRegions::region_fit))]
    pub(crate) fn region(self, region: Region) -> FitRegion<'a>
        ensures { (result.region ≡ region) × (result.blocks.now ≡ region_bytes (snapshot_of self.entry.snapshot) (region_of region)) }
    {
        FitRegion {
            region,
            blocks: self.snapshot.region(region),
        }
    }
}
