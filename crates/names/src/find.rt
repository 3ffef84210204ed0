// Where a name is read: loose (find.rs), and packed (packed/find.rs). The path is always the end of the name.
ghost use Rattle.std.specs.Prelude.{◌≡◌};
ghost use Rattle.names.specs.Route.{route, packed_name};
ghost use Rattle.names.specs.Means.{place_of, packed_of};

use crate::fullname::{Category, category_and_short_name, is_private};

// The worktree's own region, or the one that worktrees share.
#[derive(Debug, Clone, Copy, PartialEq, Eq)]
pub enum Base {
    Own,
    Shared,
}

// The region in which a name is read, and its path there.
pub fn to_base_dir_and_relative_name(s: &[u8]) -> (Base, &[u8])
    ensures { place_of result ≡ route s.now }
{
    let Some((category, short)) = category_and_short_name(s) else {
        return (Base::Shared, s);
    };
    match category {
        Category::Tag | Category::LocalBranch => (Base::Shared, s),
        Category::RemoteBranch | Category::Note => (Base::Shared, s),
        Category::LinkedPseudoRef { .. } => (Base::Shared, s),
        Category::PseudoRef | Category::Bisect => (Base::Own, s),
        Category::Rewritten | Category::WorktreePrivate => (Base::Own, s),
        Category::MainPseudoRef | Category::MainRef => (Base::Shared, short),
        Category::LinkedRef { .. } => {
            if is_private(short) {
                (Base::Shared, s)
            } else {
                (Base::Shared, short)
            }
        }
    }
}

// The name under which it is sought packed, if it is.
pub fn transform_full_name_for_lookup(s: &[u8]) -> Option<&[u8]>
    ensures { packed_of result ≡ packed_name s.now }
{
    let Some((category, short)) = category_and_short_name(s) else {
        return Some(s);
    };
    match category {
        Category::Tag | Category::LocalBranch | Category::RemoteBranch => Some(s),
        Category::Note | Category::Bisect | Category::Rewritten => Some(s),
        Category::MainRef | Category::LinkedRef { .. } => Some(short),
        Category::PseudoRef | Category::MainPseudoRef => None,
        Category::LinkedPseudoRef { .. } | Category::WorktreePrivate => None,
    }
}
