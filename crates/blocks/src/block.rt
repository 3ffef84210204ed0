// A block of 512 bytes: its fields, when it is damaged, and what it holds.
ghost use Rattle.std.specs.Prelude.{◌≡◌, ◌+◌, ◌<◌, ◌≤◌, [], true, ◌||◌, eqb, leb, length, take, drop, option_copied, if◌then◌else◌, MatchOption};
ghost use Rattle.std.specs.Option.{option_map};
ghost use Rattle.std.specs.Result.{result_ok};
ghost use Rattle.names.specs.Bytes.{every};
ghost use Rattle.names.specs.Name.{longest};
ghost use Rattle.blocks.specs.Layout.{block_size, content_at, longest_content, sum_at};
ghost use Rattle.blocks.specs.Block.{is_zero, block_kind, block_name, block_content, content_length, name_length, lengths_right, weighted, sum_right, unused_zero, kind_suits, record_right, shape_right, sound};
ghost use Rattle.blocks.specs.Entry.{name_of, entry, entry_of, blocks};
ghost use Rattle.blocks.specs.Means.{id_width, kind_number, a_kind, entry_as, stored_sum, region_of, block_at, block_count, name_within, content_within, Within, NeverSound, taken_entry, name_in, content_in, entry_in, taken_in};

use crate::parse::{ID_WIDTH, all_hex};
use names::name::LONGEST;
use names::validate::well_formed;

// The layout. Every other number of it follows from these.
pub const BLOCK_SIZE: usize = 512;

pub const MOST_BLOCKS: u32 = 4096;

pub const KIND_AT: usize = 0;

pub const NAME_LENGTH_AT: usize = 1;

pub const CONTENT_LENGTH_AT: usize = 2;

pub const ZERO_AT: usize = 4;

pub const NAME_AT: usize = 8;

pub const CONTENT_AT: usize = 258;

pub const LONGEST_CONTENT: usize = 250;

pub const SUM_AT: usize = 508;

// A region is worktree, common or packed.
#[derive(Clone, Copy, Debug, PartialEq, Eq)]
pub enum Region {
    Worktree,
    Common,
    Packed,
}

// The bytes of the kinds.
pub const LOOSE: u8 = 1;

pub const UNREAD: u8 = 2;

pub const WALK_ERROR: u8 = 3;

pub const RECORD: u8 = 4;

pub const PACKED_ERROR: u8 = 5;

// What the byte in front says that a block holds.
#[derive(Clone, Copy, Debug, PartialEq, Eq)]
pub enum Kind {
    Loose,
    // a loose file that could not be read
    Unread,
    WalkError,
    Record,
    PackedError,
}

// A byte that stands for no kind.
#[derive(Clone, Copy, Debug, PartialEq, Eq)]
pub struct UnknownKind(pub u8);

impl TryFrom<u8> for Kind {
    type Error = UnknownKind;

    ghost try_from_gives = { λ b r. option_map kind_number (result_ok r) ≡ a_kind b };

    fn try_from(b: u8) -> Result<Kind, UnknownKind> {
        match b {
            LOOSE => Ok(Kind::Loose),
            UNREAD => Ok(Kind::Unread),
            WALK_ERROR => Ok(Kind::WalkError),
            RECORD => Ok(Kind::Record),
            PACKED_ERROR => Ok(Kind::PackedError),
            _ => Err(UnknownKind(b)),
        }
    }
}

// Whether a kind suits the region.
#[tactic(auto, unfolding(crate::specs::Block::kind_suits))]
fn kind_suits(region: Region, kind: Kind) -> bool
    ensures { result ≡ kind_suits (region_of region) (kind_number kind) }
{
    match region {
        Region::Worktree | Region::Common => {
            matches!(kind, Kind::Loose | Kind::Unread | Kind::WalkError)
        }
        Region::Packed => matches!(kind, Kind::Record | Kind::PackedError),
    }
}

// What a block holds. The texts are parts of the block, and the ids stand as they do there.
#[derive(Clone, Copy, Debug, PartialEq, Eq)]
pub enum Entry<'a> {
    Damaged,
    // a walk error or a packed error
    Failed,
    Loose {
        name: &'a [u8],
        content: &'a [u8],
    },
    Unread {
        name: &'a [u8],
    },
    Record {
        name: &'a [u8],
        target: &'a [u8],
        peeled: Option<&'a [u8]>,
    },
}

impl<'a> Entry<'a> {
    // What a block of that kind holds, with this name and content.
    #[tactic(auto, unfolding(crate::specs::Entry::entry_of))]
    fn new(kind: Kind, name: &'a [u8], content: &'a [u8]) -> Entry<'a>
        ensures { entry_as result ≡ entry_of id_width (kind_number kind) name.now content.now }
    {
        match kind {
            Kind::Loose => Entry::Loose { name, content },
            Kind::Unread => Entry::Unread { name },
            Kind::Record => Entry::record(name, content),
            Kind::WalkError | Kind::PackedError => Entry::Failed,
        }
    }

    // A record: one id, or two.
    #[tactic(auto, using(crate::proofs::Parts::one_id, crate::proofs::Parts::two_ids))]
    fn record(name: &'a [u8], content: &'a [u8]) -> Entry<'a>
        ensures { entry_as result ≡ entry_of id_width 4 name.now content.now }
    {
        if content.len() <= ID_WIDTH {
            return Entry::Record {
                name,
                target: content,
                peeled: None,
            };
        }
        let (target, peeled) = content.split_at(ID_WIDTH);
        Entry::Record {
            name,
            target,
            peeled: Some(peeled),
        }
    }

    // The name of a loose file or a record.
    pub fn name(self) -> Option<&'a [u8]>
        ensures { option_copied result ≡ name_of (entry_as self.entry) }
    {
        match self {
            Entry::Damaged | Entry::Failed => None,
            Entry::Loose { name, .. } | Entry::Unread { name } | Entry::Record { name, .. } => {
                Some(name)
            }
        }
    }
}

// The weighted sum of a part of a block whose first byte has the position k. A weight is below 512, so the remainder changes nothing:
// it tells the compiler that the weight is small, and products of small factors are made several at a time.
fn part_sum(s: &[u8], k: u16) -> u32
    requires { (length s.now ≤ longest) × (k ≤ content_at) }
    ensures { (result ≡ weighted k s.now) × (result ≤ 33000000) }
{
    let mut sum: u32 = 0;
    for (i, &x) in s.iter().enumerate() {
        let w = (k + i as u16 + 1) % BLOCK_SIZE as u16;
        sum += u32::from(w) * u32::from(x);
    }
    sum
}

// Whether every byte is 0. All are looked at, so that the loop has one way out and many are compared at once.
// Kept: `all_hex` is this loop with another test: one function for both would take the test as a closure and promise by its clause, no shorter.
fn all_zero(s: &[u8]) -> bool
    ensures { result ≡ every is_zero s.now }
{
    let mut zero = true;
    for &b in s {
        zero &= b == 0;
    }
    zero
}

// One id, or two.
fn is_id_length(n: usize) -> bool
    ensures { result ≡ (eqb n id_width || eqb n (id_width + id_width)) }
{
    n == ID_WIDTH || n == 2 * ID_WIDTH
}

// The blocks of a region.
#[tactic(auto, using(crate::proofs::Chunks::blocks_are))]
pub(crate) fn blocks(s: &[u8]) -> &[[u8; BLOCK_SIZE]]
    ensures value { result.now ≡ blocks s.now }
    ensures count { length result.now ≡ block_count s.now }
{
    s.as_chunks().0
}

// The bytes of a block.
#[derive(Clone, Copy)]
pub(crate) struct Block<'a> {
    pub(crate) bytes: &'a [u8; BLOCK_SIZE],
}

impl<'a> Block<'a> {
    // Block k of a region, and none past the last.
    fn get(s: &'a [u8], k: usize) -> Option<Block<'a>>
        ensures { MatchOption result (block_count s.now ≤ k) (λ b. (k < block_count s.now) × (b.bytes.now ≡ block_at s.now k)) }
    {
        let bytes = blocks(s).get(k)?;
        Some(Block { bytes })
    }

    #[tactic(auto, unfolding(crate::specs::Block::name_length))]
    fn name_len(self) -> usize
        ensures { (result ≡ name_length self.entry.bytes.now) × (result ≤ 255) }
    {
        usize::from(self.bytes[NAME_LENGTH_AT])
    }

    #[tactic(auto, unfolding(crate::specs::Block::content_length))]
    fn content_len(self) -> usize
        ensures { (result ≡ content_length self.entry.bytes.now) × (result ≤ 65535) }
    {
        usize::from(u16::from_le_bytes([
            self.bytes[CONTENT_LENGTH_AT],
            self.bytes[CONTENT_LENGTH_AT + 1],
        ]))
    }

    #[tactic(auto, unfolding(crate::specs::Block::lengths_right))]
    fn lengths_right(self) -> bool
        ensures { result ≡ lengths_right self.entry.bytes.now }
    {
        self.name_len() <= LONGEST && self.content_len() <= LONGEST_CONTENT
    }

    // The sum that a block holds, low byte first.
    fn stored_sum(self) -> u32
        ensures { result ≡ stored_sum self.entry.bytes.now }
    {
        u32::from_le_bytes([
            self.bytes[SUM_AT],
            self.bytes[SUM_AT + 1],
            self.bytes[SUM_AT + 2],
            self.bytes[SUM_AT + 3],
        ])
    }

    // n bytes from a position on, and none where that is more than the most.
    fn part(self, at: usize, n: usize, most: usize) -> &'a [u8]
        requires { at + most ≤ block_size }
        ensures value { result.now ≡ (if leb n most then take n (drop at self.entry.bytes.now) else []) }
        ensures long { n ≤ most → length result.now ≡ n }
    {
        if most < n {
            return &[];
        }
        let bytes = self.bytes;
        &bytes[at..at + n]
    }

    // The name, empty where its length is over the longest.
    #[tactic(auto, unfolding(crate::specs::Block::block_name))]
    fn name(self) -> &'a [u8]
        ensures value { result.now ≡ name_within self.entry.bytes.now }
        ensures long { name_length self.entry.bytes.now ≤ longest → length result.now ≡ name_length self.entry.bytes.now }
    {
        self.part(NAME_AT, self.name_len(), LONGEST)
    }

    // The content, in the same way.
    #[tactic(auto, unfolding(crate::specs::Block::block_content))]
    fn content(self) -> &'a [u8]
        ensures value { result.now ≡ content_within self.entry.bytes.now }
        ensures long { content_length self.entry.bytes.now ≤ longest_content → length result.now ≡ content_length self.entry.bytes.now }
    {
        self.part(CONTENT_AT, self.content_len(), LONGEST_CONTENT)
    }

    // The parts of a block, where its byte in front is a kind and its lengths are right: it is damaged where not.
    fn parts(self) -> Option<Parts<'a>>
        ensures { MatchOption result (NeverSound self.entry.bytes.now) (λ p. p.block.bytes.now ≡ self.entry.bytes.now) }
    {
        let kind = Kind::try_from(self.bytes[KIND_AT]).ok()?;
        if !self.lengths_right() {
            return None;
        }
        Some(Parts {
            block: self,
            kind,
            name: self.name(),
            content: self.content(),
        })
    }

    // What a block of a region holds.
    pub(crate) fn entry(self, region: Region) -> Entry<'a>
        ensures { entry_as result ≡ entry id_width (region_of region) self.entry.bytes.now }
    {
        match self.parts() {
            Some(p) if p.is_sound(region) => Entry::new(p.kind, p.name, p.content),
            _ => Entry::Damaged,
        }
    }

    // What a block of this content holds, taken for sound.
    #[tactic(auto, using(crate::proofs::Clauses::kind_at, crate::proofs::Clauses::taken_no_kind), unfolding(crate::specs::Block::block_kind))]
    fn taken_entry(self, content: &'a [u8]) -> Entry<'a>
        requires { content.now ≡ content_within self.bytes.now }
        ensures { entry_as result ≡ taken_entry id_width self.entry.bytes.now }
    {
        match Kind::try_from(self.bytes[KIND_AT]) {
            Ok(kind) => Entry::new(kind, self.name(), content),
            Err(_) => Entry::Failed,
        }
    }
}

// A block whose byte in front is a kind and whose lengths are right, with its name and content.
#[derive(Clone, Copy)]
struct Parts<'a> {
    block: Block<'a>,
    kind: Kind,
    name: &'a [u8],
    content: &'a [u8],
    ghost within: { Within block.bytes.now },
    ghost kind_is: { kind_number kind ≡ block_kind block.bytes.now },
    ghost name_is: { name.now ≡ block_name block.bytes.now },
    ghost content_is: { content.now ≡ block_content block.bytes.now },
    ghost name_long: { length name.now ≡ name_length block.bytes.now },
    ghost content_long: { length content.now ≡ content_length block.bytes.now },
}

impl<'a> Parts<'a> {
    // Whether the bytes that neither the header nor name, content or sum takes are 0.
    #[tactic(auto, unfolding(crate::specs::Block::unused_zero))]
    fn unused_zero(&self) -> bool
        ensures { result ≡ unused_zero self.now.block.bytes.now }
    {
        let b = self.block.bytes;
        all_zero(&b[ZERO_AT..NAME_AT])
            && all_zero(&b[NAME_AT + self.name.len()..CONTENT_AT])
            && all_zero(&b[CONTENT_AT + self.content.len()..SUM_AT])
    }

    // The weighted sum. Bytes that are 0 add nothing to it, so only the header's first four, the name and the content are read.
    #[tactic(auto, using(crate::proofs::Sums::used_sum))]
    fn sum(&self) -> u32
        requires { unused_zero self.now.block.bytes.now ≡ true }
        ensures { result ≡ weighted 0 (take sum_at self.now.block.bytes.now) }
    {
        let b = self.block.bytes;
        part_sum(&b[..ZERO_AT], 0)
            + part_sum(self.name, NAME_AT as u16)
            + part_sum(self.content, CONTENT_AT as u16)
    }

    #[tactic(auto, using(crate::proofs::Clauses::record_parts))]
    fn record_right(&self) -> bool
        ensures { result ≡ record_right id_width self.now.block.bytes.now }
    {
        is_id_length(self.content.len()) && all_hex(self.content) && well_formed(self.name)
    }

    // What each kind asks of name and content.
    #[tactic(auto, unfolding(crate::specs::Block::shape_right))]
    fn shape_right(&self) -> bool
        ensures { result ≡ shape_right id_width self.now.block.bytes.now }
    {
        match self.kind {
            Kind::Loose => true,
            Kind::Unread => self.content.is_empty(),
            Kind::WalkError | Kind::PackedError => self.name.is_empty() && self.content.is_empty(),
            Kind::Record => self.record_right(),
        }
    }

    // Whether the block is sound in a region. The tests that cost little come first.
    #[tactic(auto, using(crate::proofs::Clauses::sound_parts), unfolding(crate::specs::Block::sum_right))]
    fn is_sound(&self, region: Region) -> bool
        ensures { result ≡ sound id_width (region_of region) self.now.block.bytes.now }
    {
        kind_suits(region, self.kind)
            && self.shape_right()
            && self.unused_zero()
            && self.block.stored_sum() == self.sum()
    }
}

// The name of block k of a region, as a part of the region, and nothing past the last block.
// Kept: a region's bytes and a place: a struct of both would be made for each call, and refs has one for a region that is fit.
pub fn block_name(s: &[u8], k: usize) -> &[u8]
    ensures { result.now ≡ name_in s.now k }
{
    Block::get(s, k).map_or(&[], |b| b.name())
}

// The content of block k of a region, in the same way.
pub fn block_content(s: &[u8], k: usize) -> &[u8]
    ensures { result.now ≡ content_in s.now k }
{
    Block::get(s, k).map_or(&[], |b| b.content())
}

// What block k of a region holds, taken for sound: a region fit for search has no other blocks. None past the last block.
pub fn sound_entry_at(s: &[u8], k: usize) -> Option<Entry<'_>>
    ensures { option_map entry_as result ≡ taken_in id_width s.now k }
{
    Some(Block::get(s, k)?.taken_entry(block_content(s, k)))
}

// What block k of a region holds, and none past the last block.
#[tactic(auto, using(crate::proofs::Entries::entry_there, crate::proofs::Entries::entry_past))]
pub fn entry_at(s: &[u8], region: Region, k: usize) -> Option<Entry<'_>>
    ensures { option_map entry_as result ≡ entry_in id_width (region_of region) s.now k }
{
    Some(Block::get(s, k)?.entry(region))
}
