// Search (find.rs).
ghost use Rattle.std.specs.Prelude.{◌≡◌, true, Some, option_copied};
ghost use Rattle.std.specs.Option.{option_map};
ghost use Rattle.names.specs.Candidates.{full_name};
ghost use Rattle.names.specs.Means.{content};
ghost use Rattle.blocks.specs.Snapshot.{store};
ghost use Rattle.blocks.specs.Means.{id_width, snapshot_of, entry_as};
ghost use Rattle.refs.specs.Answer.{Answer};
ghost use Rattle.refs.specs.Search.{entry_for, find, search};
ghost use Rattle.refs.specs.Means.{answer_only, found_of};
ghost use Rattle.refs.specs.Promises.{candidate, looked_up, first_of, full_names, or_answer, last_answer, hit_answer, refused_or};
ghost use Rattle.refs.specs.declared.find.FindError.TheVariants as why;

use crate::check::{CallError, CheckedCall, check_call};
use crate::fit::BlockEntry;
use crate::raw::{Reason, Reference};
use blocks::block::Region;
use blocks::snapshot::Snapshot;
use names::bytes::{Joined, equal};
use names::find::{to_base_dir_and_relative_name, transform_full_name_for_lookup};
use names::name::{Name, is_pseudo_ref};
use names::partial::{put_full_name_ref, put_remote_head};

// What stands between `refs/` and a partial name, in the order in which candidates are tried.
const DIRECTORIES: [&[u8]; 4] = [b"", b"tags/", b"heads/", b"remotes/"];

// Why a search or following gives no answer: the call is turned away, or the entry that decides is refused, 9 to 12.
#[derive(Debug, Clone, Copy, PartialEq, Eq)]
pub enum FindError {
    Call(CallError),
    Entry(Reason),
}

impl From<CallError> for FindError {
    ghost from_gives = { λ e r. r ≡ why.Call e };

    fn from(e: CallError) -> FindError {
        FindError::Call(e)
    }
}

impl From<Reason> for FindError {
    ghost from_gives = { λ e r. r ≡ why.Entry e };

    fn from(e: Reason) -> FindError {
        FindError::Entry(e)
    }
}

// A candidate and the entry that decides it.
#[derive(Clone, Copy)]
pub struct Hit<'a> {
    pub name: Name,
    pub(crate) entry: BlockEntry<'a>,
}

impl<'a> CheckedCall<'a> {
    // The entry that decides a candidate: none, where a loose file is a proper directory of its path; else the exact loose
    // file; else the packed record, where it is sought packed.
    // Kept: the definition's candidate has the flag too, and two functions would both hold the clash and the loose file.
    // Kept: tried `or_else`: no contract is inferred for its closure here, and written out it is longer than the lines saved.
    fn entry_for(&self, name: &[u8], sought_packed: bool) -> Option<BlockEntry<'a>>
        ensures { option_map (λ b. entry_as b.entry) result ≡ entry_for (content self.now.expansion) (store id_width (snapshot_of self.now.snapshot.snapshot)) (candidate name.now sought_packed) }
    {
        let e = self.expansion.as_bytes();
        let (base, path) = to_base_dir_and_relative_name(name);
        let loose = self.snapshot.loose(base);
        let path = Joined {
            first: e,
            rest: path,
        };
        if loose.has_clash(path) {
            return None;
        }
        let file = loose.entry_of(path);
        if file.is_some() {
            return file;
        }
        if !sought_packed {
            return None;
        }
        let packed = transform_full_name_for_lookup(name)?;
        self.snapshot.region(Region::Packed).entry_of(Joined {
            first: e,
            rest: packed,
        })
    }

    // What the candidate for x with a directory in between finds.
    // Kept: `pseudo` is only handed on, here and in one_pass, to looks_like_full_name of names, which says why it is a bool.
    fn try_directory(&self, x: &[u8], between: &[u8], pseudo: bool) -> Option<Hit<'a>>
        ensures { hit_answer (content self.now.expansion) result ≡ looked_up (content self.now.expansion) (snapshot_of self.now.snapshot.snapshot) (full_name pseudo between.now x.now) true }
    {
        let mut name = Name::empty();
        put_full_name_ref(&mut name, x, between, pseudo).ok()?;
        let entry = self.entry_for(name.as_bytes(), true)?;
        Some(Hit { name, entry })
    }

    // One pass over some directories.
    fn one_pass(&self, x: &[u8], directories: &[&[u8]], pseudo: bool) -> Option<Hit<'a>>
        ensures { (rest : Answer) → first_of (content self.now.expansion) (snapshot_of self.now.snapshot.snapshot) (full_names pseudo x.now directories.now) rest ≡ or_answer (hit_answer (content self.now.expansion) result) rest }
    {
        for between in directories {
            let hit = self.try_directory(x, between, pseudo);
            if hit.is_some() {
                return hit;
            }
        }
        None
    }

    // What the last candidate finds, x/HEAD below remotes: there is none for HEAD, and it is never sought packed.
    // Kept: its last two lines are try_directory's: a function of them would take the name's 250 bytes by value.
    fn try_remote_head(&self, x: &[u8]) -> Option<Hit<'a>>
        ensures { hit_answer (content self.now.expansion) result ≡ last_answer (content self.now.expansion) (snapshot_of self.now.snapshot.snapshot) x.now }
    {
        if equal(x, b"HEAD") {
            return None;
        }
        let mut name = Name::empty();
        put_remote_head(&mut name, x).ok()?;
        let entry = self.entry_for(name.as_bytes(), false)?;
        Some(Hit { name, entry })
    }

    // Search for the partial name x, unchecked. Of a pseudo name the first pass tries only itself; a second pass no longer
    // considers pseudo names.
    // Kept: as in `entry_for`, each `or_else` would want the clause of its closure written out.
    pub(crate) fn find_one_with_verified_input(&self, x: &[u8]) -> Option<Hit<'a>>
        ensures { hit_answer (content self.now.expansion) result ≡ (search id_width (content self.now.expansion) (store id_width (snapshot_of self.now.snapshot.snapshot)) x.now).answer }
    {
        if is_pseudo_ref(x) {
            let itself = self.one_pass(x, &DIRECTORIES[..1], true);
            if itself.is_some() {
                return itself;
            }
            let hit = self.one_pass(x, &DIRECTORIES, false);
            if hit.is_some() {
                return hit;
            }
            return self.try_remote_head(x);
        }
        let hit = self.one_pass(x, &DIRECTORIES, true);
        if hit.is_some() {
            return hit;
        }
        self.try_remote_head(x)
    }

    // The reference that a hit's entry says, without the namespace's expansion.
    pub(crate) fn reference(&self, hit: &Hit) -> Result<Reference, Reason>
        ensures { refused_or result ≡ hit_answer (content self.now.expansion) (Some hit.now) }
    {
        let parts = hit.entry.says(hit.name.as_bytes())?;
        Ok(parts.without(self.expansion.as_bytes()))
    }
}

// Search for a partial name, in a namespace or in none: refused 1 to 8, not there, refused 9 to 12, or the reference.
// Kept: three parameters, as callers hold them apart: a struct would be made for one call and taken apart in check_call.
pub fn find(
    snapshot: Snapshot,
    name: &[u8],
    namespace: Option<&[u8]>,
) -> Result<Option<Reference>, FindError>
    ensures { found_of result ≡ answer_only (find id_width (snapshot_of snapshot.entry) name.now (option_copied namespace.entry)) }
{
    let call = check_call(snapshot, name, namespace)?;
    let Some(hit) = call.find_one_with_verified_input(name) else {
        return Ok(None);
    };
    Ok(Some(call.reference(&hit)?))
}
