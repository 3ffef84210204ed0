// Full names and their categories (fullname.rs, name.rs).
ghost use Rattle.std.specs.Prelude.{◌≡◌, ◌++◌, ℕ, drop, Some};
ghost use Rattle.std.specs.Option.{option_map};
ghost use Rattle.names.specs.Bytes.{Bytes, bytes};
ghost use Rattle.names.specs.Category.{named, first_slash, classify_below, classify_linked, category_and_short_name, private_category, is_private, short_name, behind, full_of, to_full_name};
ghost use Rattle.names.specs.Means.{category_of, class_of, full_content, made_name, if_fits, check_of, checked_of, full_check, full_checked};

use crate::bytes::{starts_with, without};
use crate::name::{LONGEST, Name, Refusal, is_pseudo_ref};
use crate::validate::complete;

// The linked ones hold their worktree's name, which stands behind worktrees/.
#[derive(Debug, Clone, Copy, PartialEq, Eq)]
pub enum Category<'a> {
    Tag,
    LocalBranch,
    RemoteBranch,
    Note,
    PseudoRef,
    MainPseudoRef,
    MainRef,
    LinkedPseudoRef { name: &'a [u8] },
    LinkedRef { name: &'a [u8] },
    Bisect,
    Rewritten,
    WorktreePrivate,
}

// A complete name.
#[derive(Clone, Copy)]
pub struct FullName(pub Name);

// The first slash.
pub(crate) fn find_slash(s: &[u8]) -> Option<usize>
    ensures { result ≡ first_slash s.now }
{
    s.iter().position(|&b| b == b'/')
}

// What stands behind main-worktree/ or a worktree's name.
#[tactic(auto, unfolding(crate::specs::Category::classify_below))]
fn classify_below<'a>(
    rest: &'a [u8],
    full: Category<'a>,
    pseudo: Category<'a>,
) -> Option<(Category<'a>, &'a [u8])>
    ensures { (s : Bytes) → (off : ℕ) → drop off s ≡ rest.now → class_of result ≡ option_map (named s) (classify_below (category_of full.entry) (category_of pseudo.entry) off rest.now) }
{
    if starts_with(rest, b"refs/") {
        return Some((full, rest));
    }
    if is_pseudo_ref(rest) {
        return Some((pseudo, rest));
    }
    None
}

// What stands behind worktrees/: the worktree's name up to the first slash, and what stands behind that.
fn classify_linked(rest: &[u8]) -> Option<(Category<'_>, &[u8])>
    ensures { (s : Bytes) → drop 10 s ≡ rest.now → class_of result ≡ option_map (named s) (classify_linked rest.now (first_slash rest.now)) }
{
    let i = find_slash(rest)?;
    let name = &rest[..i];
    let full = Category::LinkedRef { name };
    let pseudo = Category::LinkedPseudoRef { name };
    classify_below(&rest[i + 1..], full, pseudo)
}

// What stands behind refs/.
// Kept: no plainer as a table: it has three columns, as four words stay in the short name, and a loop over it.
fn classify_refs(rest: &[u8]) -> Option<(Category<'_>, &[u8])>
    ensures { class_of result ≡ category_and_short_name (bytes "refs/" ++ rest.now) }
{
    if let Some(short) = rest.strip_prefix(b"tags/") {
        return Some((Category::Tag, short));
    }
    if let Some(short) = rest.strip_prefix(b"heads/") {
        return Some((Category::LocalBranch, short));
    }
    if let Some(short) = rest.strip_prefix(b"remotes/") {
        return Some((Category::RemoteBranch, short));
    }
    if starts_with(rest, b"notes/") {
        return Some((Category::Note, rest));
    }
    if starts_with(rest, b"bisect/") {
        return Some((Category::Bisect, rest));
    }
    if starts_with(rest, b"worktree/") {
        return Some((Category::WorktreePrivate, rest));
    }
    if starts_with(rest, b"rewritten/") {
        return Some((Category::Rewritten, rest));
    }
    None
}

// The category of a name, malformed or not, and what is left when that category's part is taken off.
pub fn category_and_short_name(s: &[u8]) -> Option<(Category<'_>, &[u8])>
    ensures { class_of result ≡ category_and_short_name s.now }
{
    if let Some(rest) = s.strip_prefix(b"refs/") {
        return classify_refs(rest);
    }
    if is_pseudo_ref(s) {
        return Some((Category::PseudoRef, s));
    }
    if let Some(rest) = s.strip_prefix(b"main-worktree/") {
        return classify_below(rest, Category::MainRef, Category::MainPseudoRef);
    }
    if let Some(rest) = s.strip_prefix(b"worktrees/") {
        return classify_linked(rest);
    }
    None
}

// Is the name private to its worktree?
#[tactic(auto, using(crate::proofs::Placed::private_class, crate::proofs::Placed::private_none))]
pub fn is_private(s: &[u8]) -> bool
    ensures { result ≡ is_private s.now }
{
    category_and_short_name(s).is_some_and(|(category, _)| category.is_worktree_private())
}

// The name without what its category takes off.
#[tactic(auto, using(crate::proofs::Placed::short_class, crate::proofs::Placed::short_none))]
pub fn short_name(s: &[u8]) -> &[u8]
    ensures { result.now ≡ short_name s.now }
{
    category_and_short_name(s).map_or(s, |(_, short)| short)
}

// Whether s is a full name: refused 3 over 250 bytes, then 4 if it is not complete.
pub fn check_full(s: &[u8]) -> Result<(), Refusal>
    ensures { check_of result ≡ full_check s.now }
{
    if s.len() > LONGEST {
        return Err(Refusal::TooLong);
    }
    if !complete(s) {
        return Err(Refusal::Malformed);
    }
    Ok(())
}

// The full name s, checked.
impl TryFrom<&[u8]> for FullName {
    type Error = Refusal;

    ghost try_from_gives = { λ s r. checked_of full_content r ≡ full_checked s.now };

    #[tactic(auto, using(crate::proofs::Rows::cut_full), unfolding(crate::specs::Means::full_checked))]
    fn try_from(s: &[u8]) -> Result<FullName, Refusal> {
        check_full(s)?;
        Ok(FullName(Name::cut(s)))
    }
}

// A name of p behind the prefix, unless it begins with it already.
fn behind(prefix: &[u8], p: &[u8]) -> Option<Name>
    ensures { made_name result ≡ if_fits (behind prefix.now p.now) }
{
    let front: &[u8] = if starts_with(p, prefix) { b"" } else { prefix };
    Name::joined(b"", front, p)
}

// The same with the prefix of a linked worktree's names.
#[tactic(auto, using(crate::proofs::Held::behind_not))]
fn behind_worktree(worktree: &[u8], p: &[u8]) -> Option<Name>
    ensures { made_name result ≡ if_fits (behind (bytes "worktrees/" ++ worktree.now ++ bytes "/") p.now) }
{
    let prefix = Name::joined(b"worktrees/", worktree, b"/")?;
    behind(prefix.as_bytes(), p)
}

impl Category<'_> {
    // Is the category private to its worktree? The worktree's name plays no part.
    pub fn is_worktree_private(self) -> bool
        ensures { result ≡ private_category (Some (category_of self.entry)) }
    {
        match self {
            Category::PseudoRef | Category::MainPseudoRef => true,
            Category::LinkedPseudoRef { .. } => true,
            Category::Bisect | Category::Rewritten | Category::WorktreePrivate => true,
            Category::Tag | Category::LocalBranch | Category::RemoteBranch | Category::Note =>
                false,
            Category::MainRef | Category::LinkedRef { .. } => false,
        }
    }

    // A name of the short one's full name, where it fits. Some categories keep their word in the short name.
    fn full_of(self, short: &[u8]) -> Option<Name>
        ensures { made_name result ≡ if_fits (full_of (category_of self.entry) short.now) }
    {
        match self {
            Category::Tag => behind(b"refs/tags/", short),
            Category::LocalBranch => behind(b"refs/heads/", short),
            Category::RemoteBranch => behind(b"refs/remotes/", short),
            Category::Note => behind(b"refs/notes/", without(short, b"notes/")),
            Category::PseudoRef => behind(b"", short),
            Category::MainPseudoRef => behind(b"main-worktree/", short),
            Category::MainRef => behind(b"main-worktree/refs/", without(short, b"refs/")),
            Category::LinkedPseudoRef { name } => behind_worktree(name, short),
            Category::LinkedRef { name } => behind_worktree(name, short),
            Category::Bisect => behind(b"refs/bisect/", without(short, b"bisect/")),
            Category::Rewritten => behind(b"refs/rewritten/", without(short, b"rewritten/")),
            Category::WorktreePrivate => behind(b"refs/worktree/", without(short, b"worktree/")),
        }
    }

    // The full name of a short one: refused 3 where either is over 250 bytes, then 4 if it is not complete.
    pub fn to_full_name(self, short: &[u8]) -> Result<FullName, Refusal>
        ensures { checked_of full_content result ≡ to_full_name (category_of self.entry) short.now }
    {
        match self.full_of(short) {
            Some(name) if short.len() <= LONGEST => FullName::try_from(name.as_bytes()),
            _ => Err(Refusal::TooLong),
        }
    }
}
