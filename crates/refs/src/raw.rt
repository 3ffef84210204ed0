// References and what an entry answers (raw.rs).
ghost use Rattle.std.specs.Prelude.{◌≡◌, ◌≤◌, length, true};
ghost use Rattle.names.specs.Name.{longest};
ghost use Rattle.blocks.specs.Means.{id_width, entry_as};
ghost use Rattle.refs.specs.Whole.{target_in, target_of, target_fits};
ghost use Rattle.refs.specs.Answer.{says, strip_target, strip_reference};
ghost use Rattle.refs.specs.Reasons.{reason_number};

use crate::fit::BlockEntry;
use blocks::block::Entry;
use blocks::decode::{Refusal, Target, TargetRef, read};
use blocks::parse::{Id, id_of};
use names::bytes::without;
use names::name::Name;

// Why an entry is refused: 6 and 7, 9 to 12.
// Kept: Damaged and ErrorKind are blocks' too: that enum's NotAbove is no answer of an entry, and Content holds a number of its own.
#[derive(Debug, Clone, Copy, PartialEq, Eq)]
pub enum Reason {
    Damaged,
    ErrorKind,
    Unread,
    Content(Refusal),
}

// The number of a reason in document 01's table.
impl From<Reason> for u32 {
    ghost from_gives = { λ why n. n ≡ reason_number why };

    fn from(why: Reason) -> u32 {
        match why {
            Reason::Damaged => 6,
            Reason::ErrorKind => 7,
            Reason::Unread => 9,
            Reason::Content(refusal) => refusal.into(),
        }
    }
}

impl From<Refusal> for Reason {
    ghost use Rattle.refs.specs.declared.raw.Reason.TheVariants.{Content};

    ghost from_gives = { λ why r. r ≡ Content why };

    fn from(why: Refusal) -> Reason {
        Reason::Content(why)
    }
}

// A reference: its name and its target, the id of an object or the name of another reference; and, from packed, the peeled id.
#[derive(Clone, Copy)]
pub struct Reference {
    pub name: Name,
    pub target: Target,
    pub peeled: Option<Id>,
}

// A reference as parts of its block, with its ids as they stand there. So it is small, and is handed on.
#[derive(Clone, Copy)]
pub struct Parts<'a> {
    pub name: &'a [u8],
    pub target: TargetRef<'a>,
    pub peeled: Option<&'a [u8]>,
    ghost name_fits: { length name.now ≤ longest },
    ghost target_fits: { target_fits (target_in target) ≡ true },
}

impl<'a> BlockEntry<'a> {
    ghost use Rattle.refs.specs.Means.{said};

    // What an entry says: a loose file under the name n, a record under its own.
    pub(crate) fn says(self, n: &'a [u8]) -> Result<Parts<'a>, Reason>
        requires { length n.now ≤ longest }
        ensures { said result ≡ says id_width n.entry.now (entry_as self.entry.entry) }
    {
        match self.entry {
            Entry::Damaged => Err(Reason::Damaged),
            Entry::Failed => Err(Reason::ErrorKind),
            Entry::Loose { name: _, content } => Ok(Parts {
                name: n,
                target: read(content)?,
                peeled: None,
            }),
            Entry::Unread { name: _ } => Err(Reason::Unread),
            Entry::Record {
                name,
                target,
                peeled,
            } => Ok(Parts {
                name,
                target: TargetRef::Object(target),
                peeled,
            }),
        }
    }
}

// A target of its own, without e in front of a name.
#[tactic(auto, using(crate::proofs::Says::cut_stripped))]
fn target_without(target: TargetRef, e: &[u8]) -> Target
    requires { target_fits (target_in target) ≡ true }
    ensures { target_of result ≡ strip_target e.now (target_in target.entry) }
{
    match target {
        TargetRef::Object(id) => Target::Object(id_of(id)),
        TargetRef::Symbolic(name) => Target::Symbolic(Name::cut(without(name, e))),
    }
}

impl<'a> Parts<'a> {
    ghost use Rattle.refs.specs.Means.{parts_of, reference_of};

    // The reference, without the namespace's expansion e in front of name and symbolic target. It is too large to be handed on,
    // so it is made of its parts once, at the end.
    pub fn without(self, e: &[u8]) -> Reference
        ensures { reference_of result ≡ strip_reference e.now (parts_of self.entry) }
    {
        Reference {
            name: Name::cut(without(self.name, e)),
            target: target_without(self.target, e),
            peeled: self.peeled.map(id_of),
        }
    }
}
