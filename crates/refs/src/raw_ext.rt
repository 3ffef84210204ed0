// Following (raw_ext.rs).
ghost use Rattle.std.specs.Prelude.{◌≡◌, [], option_copied};
ghost use Rattle.names.specs.Means.{content};
ghost use Rattle.blocks.specs.Snapshot.{store};
ghost use Rattle.blocks.specs.Means.{id_width, snapshot_of};
ghost use Rattle.refs.specs.Follow.{follow, follow_from, max_ref_depth};
ghost use Rattle.refs.specs.Reasons.{stop_number};
ghost use Rattle.refs.specs.Means.{reference_of, followed_of};
ghost use Rattle.refs.specs.Promises.{ended};

use crate::check::{CheckedCall, check_call};
use crate::find::FindError;
use crate::raw::{Reason, Reference};
use blocks::decode::Target;
use blocks::parse::Id;
use blocks::snapshot::Snapshot;
use names::name::Name;

// How many names may be seen.
pub const MAX_REF_DEPTH: usize = 5;

// Why following stops before an object: 13, 14 and 15.
#[derive(Debug, Clone, Copy, PartialEq, Eq)]
pub enum Stop {
    NotFound = 13,
    Cycle = 14,
    TooDeep = 15,
}

// The number of a stop in document 01's table.
impl From<Stop> for u32 {
    ghost from_gives = { λ why n. n ≡ stop_number why };

    fn from(why: Stop) -> u32 {
        why as u32
    }
}

// The last reference that following reached, and the id of its object or why following stops there.
#[derive(Clone, Copy)]
pub struct Trail {
    pub last: Reference,
    pub end: Result<Id, Stop>,
}

impl CheckedCall<'_> {
    // Following from a reference, which does not count as seen; each target is searched as a partial name again, unchecked.
    // Kept: `seen` with its length n: an `ArrayVec` would ask `Default` of `Name` and bring one crate more into the C archive.
    fn follow_from(&self, first: Reference) -> Result<Trail, Reason>
        ensures { ended result ≡ follow_from id_width (content self.now.expansion) (store id_width (snapshot_of self.now.snapshot.snapshot)) max_ref_depth [] (reference_of first) }
    {
        let mut seen = [Name::empty(); MAX_REF_DEPTH];
        let mut last = first;
        for n in 0..MAX_REF_DEPTH {
            let target = match &last.target {
                Target::Object(id) => {
                    return Ok(Trail { last, end: Ok(*id) });
                }
                Target::Symbolic(name) => name.as_bytes(),
            };
            let Some(hit) = self.find_one_with_verified_input(target) else {
                return Ok(Trail {
                    last,
                    end: Err(Stop::NotFound),
                });
            };
            let next = self.reference(&hit)?;
            if seen[..n].contains(&next.name) {
                return Ok(Trail {
                    last,
                    end: Err(Stop::Cycle),
                });
            }
            seen[n] = next.name;
            last = next;
        }
        Ok(Trail {
            last,
            end: Err(Stop::TooDeep),
        })
    }
}

// Follow a partial name to its object, in a namespace or in none: refused 1 to 12, not there, or how far it leads.
pub fn follow(
    snapshot: Snapshot,
    name: &[u8],
    namespace: Option<&[u8]>,
) -> Result<Option<Trail>, FindError>
    ensures { followed_of result ≡ follow id_width (snapshot_of snapshot.entry) name.now (option_copied namespace.entry) }
{
    let call = check_call(snapshot, name, namespace)?;
    let Some(hit) = call.find_one_with_verified_input(name) else {
        return Ok(None);
    };
    let first = call.reference(&hit)?;
    Ok(Some(call.follow_from(first)?))
}
