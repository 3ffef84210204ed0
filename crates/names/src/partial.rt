// Partial names, and the full names that they may stand for (name.rs).
ghost use Rattle.std.specs.Prelude.{◌≡◌, ◌++◌, None, Some, true};
ghost use Rattle.names.specs.Bytes.{bytes};
ghost use Rattle.names.specs.Check.{checked};
ghost use Rattle.names.specs.Name.{looks_full};
ghost use Rattle.names.specs.Candidates.{full_name};
ghost use Rattle.names.specs.Namespace.{names_check};
ghost use Rattle.names.specs.Means.{partial_content, made_name, pushed, if_fits, check_of, checked_of};

use crate::bytes::starts_with;
use crate::name::{LONGEST, Name, Refusal, TooLong, is_pseudo_ref};
use crate::validate::well_formed;

// A name that may be the last part of a full one.
#[derive(Clone, Copy)]
pub struct PartialName(pub Name);

// Does a partial name look full? Pseudo names do while they are considered.
// Kept: a bool, as the definition and gix take one: an enum of two names would only be turned back into this bool here.
pub fn looks_like_full_name(s: &[u8], pseudo: bool) -> bool
    ensures { result ≡ looks_full pseudo s.now }
{
    starts_with(s, b"refs/")
        || starts_with(s, b"main-worktree/")
        || starts_with(s, b"worktrees/")
        || (pseudo && is_pseudo_ref(s))
}

// The candidate for x with a directory in between, which ends with its slash or is empty, in place of what the name held.
pub fn put_full_name_ref(
    out: &mut Name,
    x: &[u8],
    inbetween: &[u8],
    pseudo: bool,
) -> Result<(), TooLong>
    ensures { pushed out.new result ≡ if_fits (full_name pseudo inbetween.now x.now) }
{
    let front: &[u8] = if looks_like_full_name(x, pseudo) {
        b""
    } else {
        b"refs/"
    };
    out.clear();
    out.push_parts(front, inbetween, x)
}

// The same, as a name of its own.
pub fn construct_full_name_ref(x: &[u8], inbetween: &[u8], pseudo: bool) -> Option<Name>
    ensures { made_name result ≡ if_fits (full_name pseudo inbetween.now x.now) }
{
    let mut name = Name::empty();
    put_full_name_ref(&mut name, x, inbetween, pseudo).ok()?;
    Some(name)
}

// The last candidate for x, in place of what the name held: x/HEAD below remotes, itself a partial name that may look full.
#[tactic(auto, using(crate::proofs::Held::head_not))]
pub fn put_remote_head(out: &mut Name, x: &[u8]) -> Result<(), TooLong>
    ensures { pushed out.new result ≡ if_fits (full_name true (bytes "remotes/") (x.now ++ bytes "/HEAD")) }
{
    let mut head = Name::empty();
    head.push_parts(b"", x, b"/HEAD")?;
    put_full_name_ref(out, head.as_bytes(), b"remotes/", true)
}

// The same, as a name of its own.
pub fn remote_head_candidate(x: &[u8]) -> Option<Name>
    ensures { made_name result ≡ if_fits (full_name true (bytes "remotes/") (x.now ++ bytes "/HEAD")) }
{
    let mut name = Name::empty();
    put_remote_head(&mut name, x).ok()?;
    Some(name)
}

// Whether s is a partial name: refused 3 over 250 bytes, then 4 if malformed.
// Kept: no plainer as one with `check_full`: two tests each, and a call with the rule and its clause are as long.
pub fn check_partial(s: &[u8]) -> Result<(), Refusal>
    ensures { check_of result ≡ names_check (Some s.now) None }
{
    if s.len() > LONGEST {
        return Err(Refusal::TooLong);
    }
    if !well_formed(s) {
        return Err(Refusal::Malformed);
    }
    Ok(())
}

// The partial name s, checked.
impl TryFrom<&[u8]> for PartialName {
    type Error = Refusal;

    ghost try_from_gives = { λ s r. checked_of partial_content r ≡ checked (names_check (Some s.now) None) s.now };

    #[tactic(auto, using(crate::proofs::Rows::cut_partial))]
    fn try_from(s: &[u8]) -> Result<PartialName, Refusal> {
        check_partial(s)?;
        Ok(PartialName(Name::cut(s)))
    }
}
