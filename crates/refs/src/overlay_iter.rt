// The listing (overlay_iter.rs): loose and packed entries as one run, ordered by name.
ghost use Rattle.std.specs.Prelude.{◌≡◌, suc, ◌<◌, ◌≤◌, length, false, None, option_copied};
ghost use Rattle.std.specs.Option.{option_or};
ghost use Rattle.names.specs.Bytes.{Bytes, starts_with};
ghost use Rattle.names.specs.Name.{longest};
ghost use Rattle.blocks.specs.Entry.{entry};
ghost use Rattle.blocks.specs.Snapshot.{store};
ghost use Rattle.blocks.specs.Means.{id_width, region_of, block_count, block_at, snapshot_of, entry_as};
ghost use Rattle.refs.specs.View.{scope, view};
ghost use Rattle.refs.specs.Listing.{none_left, first_seen, peek, least, past, move};
ghost use Rattle.refs.specs.Run.{open_listing, moved, step};
ghost use Rattle.refs.specs.Means.{positions_of, state_at, state_of, open_number, opened, step_number, advanced, step_of};
ghost use Rattle.refs.specs.ListPromises.{shows_in, seen_in, own_name, waiting_of, error_of, offer_of, taken, StandsIn, position_in, moved_in, waits_in};

use crate::fit::BlockEntry;
use crate::raw::{Parts, Reason, Reference};
use blocks::block::{BLOCK_SIZE, Region, entry_at};
use blocks::fitness::{SizeError, size_check};
use blocks::snapshot::Snapshot;
use names::bytes::{compare, equal, starts_with};
use names::fullname::is_private;
use names::name::{Name, Refusal};
use names::namespace::expansion_of;
use names::validate::well_formed;
use std::cmp::Ordering;

// Does a listing under the expansion e show the name n of a region? A loose name that is not well formed is skipped; a private
// name of the common region is another worktree's affair.
fn shows(region: Region, n: &[u8], e: &[u8]) -> bool
    ensures { result ≡ shows_in (region_of region) (scope e.now) n.now }
{
    match region {
        Region::Worktree => loose_begins(n, e) && well_formed(n),
        Region::Common => loose_begins(n, e) && well_formed(n) && !is_private(n),
        Region::Packed => starts_with(n, e),
    }
}

// Does a loose name begin as the names of the listing do?
fn loose_begins(n: &[u8], e: &[u8]) -> bool
    ensures { result ≡ starts_with (scope e.now).loose_under n.now }
{
    starts_with(n, if e.is_empty() { b"refs/" } else { e })
}

// What waits in a region: an entry, which is an error or bears a name, and the position just past it.
#[derive(Clone, Copy)]
struct Waiting<'a> {
    region: Region,
    found: BlockEntry<'a>,
    next: usize,
}

impl<'a> Waiting<'a> {
    // Its name, empty for an error.
    fn name(&self) -> &'a [u8]
        ensures is { result.now ≡ own_name (entry_as self.now.found.entry) }
        ensures short { length result.now ≤ longest }
    {
        self.found.entry.name().unwrap_or(&[])
    }
}

// What waits at block k: nothing, where it is passed over.
fn look<'a>(s: &'a [u8], region: Region, e: &[u8], k: usize) -> Option<Waiting<'a>>
    requires { k < block_count s.now }
    ensures waits { waiting_of e.now result ≡ first_seen (seen_in (region_of region) e.now (entry id_width (region_of region) (block_at s.now k))) (suc k) none_left }
    ensures stands { StandsIn region result }
{
    let entry = entry_at(s, region, k)?;
    let found = BlockEntry { entry };
    let next = k + 1;
    match entry.name() {
        Some(n) if !shows(region, n, e) => None,
        _ => Some(Waiting {
            region,
            found,
            next,
        }),
    }
}

// The error that waits, if one does.
fn error<'w, 'a>(w: Option<&'w Waiting<'a>>) -> Option<&'w Waiting<'a>>
    ensures { option_copied result ≡ error_of (option_copied w.entry) }
{
    w.filter(|x| x.found.entry.name().is_none())
}

// The lesser of two names that wait, the first where they are equal.
fn least<'w, 'a>(
    first: Option<&'w Waiting<'a>>,
    second: Option<&'w Waiting<'a>>,
) -> Option<&'w Waiting<'a>>
    requires { error_of (option_copied first) ≡ None }
    ensures { (e : Bytes) → offer_of e (option_copied result) ≡ least (waiting_of e (option_copied first.entry)) (offer_of e (option_copied second.entry)) }
{
    let Some(a) = first else { return second };
    let Some(b) = second else { return first };
    match compare(a.name(), b.name()) {
        Ordering::Greater => second,
        Ordering::Less | Ordering::Equal => first,
    }
}

// The position of a region after the name n was handed out: past what waits there, if that bears it.
fn past(n: &[u8], w: Option<&Waiting<'_>>, at: usize) -> usize
    requires { error_of (option_copied w) ≡ None }
    ensures { (e : Bytes) → result ≡ past n.now (waiting_of e (option_copied w.entry)) at }
{
    match w {
        Some(x) if equal(n, x.name()) => x.next,
        _ => at,
    }
}

// Where the next block of each region is looked for.
// Kept: the shape of Sizes, but no size is a position: one generic type of three would say neither, and share one match of three arms.
#[derive(Clone, Copy, Debug, PartialEq, Eq)]
pub struct Positions {
    pub worktree: usize,
    pub common: usize,
    pub packed: usize,
}

impl Positions {
    // The position of a region.
    fn at(self, region: Region) -> usize
        ensures { result ≡ position_in (region_of region) (positions_of self) }
    {
        match region {
            Region::Worktree => self.worktree,
            Region::Common => self.common,
            Region::Packed => self.packed,
        }
    }

    // The positions, where that of a region is k.
    fn with(self, region: Region, k: usize) -> Positions
        ensures { positions_of result ≡ moved_in (region_of region) k (positions_of self) }
    {
        match region {
            Region::Worktree => Positions {
                worktree: k,
                ..self
            },
            Region::Common => Positions { common: k, ..self },
            Region::Packed => Positions { packed: k, ..self },
        }
    }

    // What waits in a region from its position on, which may lie past its end.
    // Kept: e beside the snapshot, here and below: advance alone would make a struct of what C lends, and go_on, take and peek would take it apart.
    #[inline(always)] // so that each region's own rules are compiled for it
    fn peek<'a>(self, s: Snapshot<'a>, region: Region, e: &[u8]) -> Option<Waiting<'a>>
        ensures waits { waiting_of e.now result ≡ waits_in (region_of region) e.now (snapshot_of s.entry) (positions_of self) }
        ensures stands { StandsIn region result }
    {
        let blocks = s.region(region);
        let from = self.at(region);
        (from..blocks.len() / BLOCK_SIZE).find_map(
            |k|
                requires { k < block_count blocks.now }
            { look(blocks, region, e, k) },
        )
    }

    // Hands out what comes next, and moves past it: an error alone; else the least name, in every region where it waits.
    fn take<'a>(&mut self, s: Snapshot<'a>, e: &[u8]) -> Option<Waiting<'a>>
        ensures { taken e.now result self.new ≡ move (view id_width (scope e.now)) (store id_width (snapshot_of s.entry)) (positions_of self.old) }
    {
        let worktree = self.peek(s, Region::Worktree, e);
        let common = self.peek(s, Region::Common, e);
        let packed = self.peek(s, Region::Packed, e);
        let (w, c, p) = (worktree.as_ref(), common.as_ref(), packed.as_ref());
        if let Some(x) = first_error(w, c, p) {
            *self = self.with(x.region, x.next);
            return Some(*x);
        }
        let x = least(w, least(c, p))?;
        let n = x.name();
        *self = Positions {
            worktree: past(n, w, self.worktree),
            common: past(n, c, self.common),
            packed: past(n, p, self.packed),
        };
        Some(*x)
    }
}

// The error that comes before the others and before names: packed, then common, then worktree.
fn first_error<'w, 'a>(
    w: Option<&'w Waiting<'a>>,
    c: Option<&'w Waiting<'a>>,
    p: Option<&'w Waiting<'a>>,
) -> Option<&'w Waiting<'a>>
    ensures { option_copied result ≡ option_or (option_or (error_of (option_copied p.entry)) (error_of (option_copied c.entry))) (error_of (option_copied w.entry)) }
{
    error(p).or(error(c)).or(error(w))
}

// Why a listing is not opened: 1 and 2 for the regions, 3 to 5 for the namespace.
// Kept: one generic enum with StepError can't have From of its second error, which overlaps From<SizeError>, and its variants would lose their names.
#[derive(Clone, Copy, Debug, PartialEq, Eq)]
pub enum OpenError {
    Sizes(SizeError),
    Namespace(Refusal),
}

impl From<SizeError> for OpenError {
    ghost use Rattle.refs.specs.declared.overlay_iter.OpenError.TheVariants.{Sizes};

    ghost from_gives = { λ e r. r ≡ Sizes e };

    fn from(why: SizeError) -> OpenError {
        OpenError::Sizes(why)
    }
}

impl From<Refusal> for OpenError {
    ghost use Rattle.refs.specs.declared.overlay_iter.OpenError.TheVariants.{Namespace};

    ghost from_gives = { λ e r. r ≡ Namespace e };

    fn from(why: Refusal) -> OpenError {
        OpenError::Namespace(why)
    }
}

// The number in document 01's table.
impl From<OpenError> for u32 {
    ghost from_gives = { λ e n. n ≡ open_number e };

    fn from(e: OpenError) -> u32 {
        match e {
            OpenError::Sizes(e) => e.into(),
            OpenError::Namespace(e) => e.into(),
        }
    }
}

// Why a step gives no reference: 1 and 2 for the regions, 6 to 12 for an entry.
#[derive(Clone, Copy, Debug, PartialEq, Eq)]
pub enum StepError {
    Sizes(SizeError),
    Entry(Reason),
}

impl From<SizeError> for StepError {
    ghost use Rattle.refs.specs.declared.overlay_iter.StepError.TheVariants.{Sizes};

    ghost from_gives = { λ e r. r ≡ Sizes e };

    fn from(why: SizeError) -> StepError {
        StepError::Sizes(why)
    }
}

impl From<Reason> for StepError {
    ghost use Rattle.refs.specs.declared.overlay_iter.StepError.TheVariants.{Entry};

    ghost from_gives = { λ e r. r ≡ Entry e };

    fn from(why: Reason) -> StepError {
        StepError::Entry(why)
    }
}

// The number in document 01's table.
impl From<StepError> for u32 {
    ghost from_gives = { λ e n. n ≡ step_number e };

    fn from(e: StepError) -> u32 {
        match e {
            StepError::Sizes(e) => e.into(),
            StepError::Entry(e) => e.into(),
        }
    }
}

// Where a listing stands: its positions, and whether it is ended.
// Kept: a flag, since an ended listing keeps its positions, as the definition's state and C's do: an enum would hold them twice.
#[derive(Clone, Copy, Debug, PartialEq, Eq)]
pub struct Cursor {
    pub at: Positions,
    pub ended: bool,
}

impl Cursor {
    // One step (LooseThenPacked::next) of a listing whose namespace has the expansion e, which still stands in front of names: the
    // next reference, or nothing where the listing is ended. It looks no further in a region than what waits there.
    #[tactic(auto, using(crate::proofs::ListSteps::turned_away, crate::proofs::ListSteps::ended_before, crate::proofs::ListSteps::goes_on))]
    pub fn advance<'a>(&mut self, s: Snapshot<'a>, e: &[u8]) -> Result<Option<Parts<'a>>, StepError>
        ensures { advanced e.now result self.new ≡ step id_width (snapshot_of s.entry) (state_at e.now self.old) }
    {
        size_check(s)?;
        if self.ended {
            return Ok(None);
        }
        self.go_on(s, e)
    }

    // The same in regions of right sizes, where the listing is not ended. An error is handed out as an entry is.
    fn go_on<'a>(&mut self, s: Snapshot<'a>, e: &[u8]) -> Result<Option<Parts<'a>>, StepError>
        requires { self.old.ended ≡ false }
        ensures { advanced e.now result self.new ≡ moved (state_at e.now self.old) (move (view id_width (scope e.now)) (store id_width (snapshot_of s.entry)) (positions_of self.old.at)) }
    {
        let Some(x) = self.at.take(s, e) else {
            self.ended = true;
            return Ok(None);
        };
        let parts = x.found.says(x.name())?;
        Ok(Some(parts))
    }
}

// The listing's state: where it stands, and the namespace's expansion, empty where there is none.
#[derive(Clone, Copy)]
pub struct Listing {
    pub cursor: Cursor,
    pub expansion: Name,
}

impl Listing {
    // A listing in a namespace or in none, at each region's first block. The regions are checked before the namespace.
    #[tactic(auto, using(crate::proofs::ListOpens::sizes_refused, crate::proofs::ListOpens::namespace_right, crate::proofs::ListOpens::namespace_refused))]
    pub fn open(snapshot: Snapshot<'_>, namespace: Option<&[u8]>) -> Result<Listing, OpenError>
        ensures { opened result ≡ open_listing (snapshot_of snapshot.entry) (option_copied namespace.entry) }
    {
        size_check(snapshot)?;
        let expansion = expansion_of(namespace)?;
        let at = Positions {
            worktree: 0,
            common: 0,
            packed: 0,
        };
        let cursor = Cursor { at, ended: false };
        Ok(Listing { cursor, expansion })
    }

    // One step: the next reference, or nothing where the listing is ended.
    pub fn step(&mut self, s: Snapshot<'_>) -> Result<Option<Reference>, StepError>
        ensures { step_of result self.new ≡ step id_width (snapshot_of s.entry) (state_of self.old) }
    {
        let e = self.expansion.as_bytes();
        let found = self.cursor.advance(s, e)?;
        Ok(found.map(|r| r.without(e)))
    }
}
