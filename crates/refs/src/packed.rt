// A reader of the packed region (packed::Iter): what its blocks hold, from a position on.
ghost use Rattle.std.specs.Prelude.{◌≡◌};
ghost use Rattle.std.specs.Option.{option_map};
ghost use Rattle.std.specs.Iterator.{YieldsFirstBy, item_count};
ghost use Rattle.blocks.specs.Means.{entry_as};
ghost use Rattle.refs.specs.Means.{record_in, records_of};

use blocks::block::{Entry, Region, entry_at};

// Kept: a position of its own, which may lie past the end, as the definition's reader has one: std's iterators have none.
#[derive(Clone, Copy)]
pub struct PackedReader<'a> {
    pub region: &'a [u8],
    pub at: usize,
}

impl<'a> PackedReader<'a> {
    pub fn new(region: &'a [u8], at: usize) -> PackedReader<'a>
        ensures { (result.region ≡ region.entry) × (result.at ≡ at) }
    {
        PackedReader { region, at }
    }

    // What stands at the reader's position: nothing, past the last block.
    pub fn peek(self) -> Option<Entry<'a>>
        ensures { option_map entry_as result ≡ record_in self.entry.region.now self.entry.at }
    {
        entry_at(self.region, Region::Packed, self.at)
    }

    // The reader at another position.
    pub fn moved(self, at: usize) -> PackedReader<'a>
        ensures { (result.region ≡ self.entry.region) × (result.at ≡ at) }
    {
        PackedReader { at, ..self }
    }
}

impl<'a> Iterator for PackedReader<'a> {
    type Item = Entry<'a>;

    ghost next_gives = { YieldsFirstBy entry_as records_of };

    ghost remaining = { item_count records_of };

    fn next(&mut self) -> Option<Entry<'a>> {
        let found = self.peek()?;
        self.at += 1;
        Some(found)
    }
}
