// Byte strings: beginnings, endings, parts and the order of names; and the same for a path in two parts, which are never
// joined: together they may be longer than a name.
ghost use Rattle.std.specs.Prelude.{◌≡◌, ◌&&◌, leb};
ghost use Rattle.names.specs.Bytes.{order, same, starts_with, ends_with, contains, strip};
ghost use Rattle.names.specs.Name.{directory};
ghost use Rattle.names.specs.Means.{held, ordering, path};

use std::cmp::Ordering;

// Does s begin with p?
// Kept: this, compare, equal, ends_with and without are the library's methods with their answers in the definitions' words, so that callers need no law of slices.
#[tactic(auto, using(crate::proofs::Slices::starts_is))]
pub fn starts_with(s: &[u8], p: &[u8]) -> bool
    ensures { result ≡ starts_with p.now s.now }
{
    s.starts_with(p)
}

// Whether a byte is one of those from first to last, with no branch.
// Kept: for `is_plain`, which is slower with ranges (validate.rt).
pub fn in_range(b: u8, first: u8, last: u8) -> bool
    ensures { result ≡ (leb first b && leb b last) }
{
    (first <= b) & (b <= last)
}

// The order of names: by bytes, a proper beginning first.
#[tactic(auto, using(crate::proofs::Slices::order_is))]
pub fn compare(a: &[u8], b: &[u8]) -> Ordering
    ensures { ordering result ≡ order a.now b.now }
{
    a.cmp(b)
}

#[tactic(auto, using(crate::proofs::Slices::same_is))]
pub fn equal(a: &[u8], b: &[u8]) -> bool
    ensures { result ≡ same a.now b.now }
{
    a == b
}

// Does s end with p?
#[tactic(auto, using(crate::proofs::Slices::ends_is))]
pub fn ends_with(s: &[u8], p: &[u8]) -> bool
    ensures { result ≡ ends_with p.now s.now }
{
    s.ends_with(p)
}

// Does p stand somewhere in s?
#[tactic(auto, using(crate::proofs::Windows::contains_nothing, crate::proofs::Windows::positive, crate::proofs::Windows::any_is))]
pub fn contains(s: &[u8], p: &[u8]) -> bool
    ensures { result ≡ contains p.now s.now }
{
    p.is_empty() || s.windows(p.len()).any(|part| part == p)
}

// s without p, where that stands in front (strip_namespace).
#[tactic(auto, using(crate::proofs::Slices::stripped_or))]
pub fn without<'a>(s: &'a [u8], p: &[u8]) -> &'a [u8]
    ensures { result.now ≡ strip p.now s.now }
{
    s.strip_prefix(p).unwrap_or(s)
}

// The first len bytes of a buffer; all of them, where len is more.
// Kept: no heap: a file is read into a lent buffer, and C's state has its fields at fixed places, so both keep a length beside.
#[tactic(auto, using(crate::proofs::Held::held_cut))]
pub fn lend(b: &[u8], len: usize) -> &[u8]
    ensures { result.now ≡ held b.now len }
{
    &b[..len.min(b.len())]
}

// Does t begin with s and a slash?
#[tactic(auto, using(crate::proofs::Slices::starts_is, crate::proofs::Prefix::directory_is))]
pub fn directory_of(s: &[u8], t: &[u8]) -> bool
    ensures { result ≡ directory s.now t.now }
{
    s.len() < t.len() && t[s.len()] == b'/' && t.starts_with(s)
}

// A path in two parts, as an expansion of a namespace and a name.
#[derive(Clone, Copy)]
pub struct Joined<'a> {
    pub first: &'a [u8],
    pub rest: &'a [u8],
}

impl<'a> Joined<'a> {
    // Does the path begin with s?
    #[tactic(auto, using(crate::proofs::Slices::starts_is, crate::proofs::Slices::begins, crate::proofs::Joins::starts_across, crate::proofs::Joins::starts_within))]
    pub fn starts_with(self, s: &[u8]) -> bool
        ensures { result ≡ starts_with s.now (path self.entry) }
    {
        match s.split_at_checked(self.first.len()) {
            Some((front, back)) => front == self.first && self.rest.starts_with(back),
            None => self.first.starts_with(s),
        }
    }

    // Does the path begin with s and a slash?
    #[tactic(auto, using(crate::proofs::Slices::begins, crate::proofs::Joins::directory_across, crate::proofs::Joins::directory_within))]
    pub fn directory(self, s: &[u8]) -> bool
        ensures { result ≡ directory s.now (path self.entry) }
    {
        match s.split_at_checked(self.first.len()) {
            Some((front, back)) => directory_of(back, self.rest) && front == self.first,
            None => directory_of(s, self.first),
        }
    }

    // The order of s and the path.
    #[tactic(auto, using(crate::proofs::Slices::order_is, crate::proofs::Slices::then_is, crate::proofs::Joins::order_across, crate::proofs::Joins::order_within))]
    pub fn compare(self, s: &[u8]) -> Ordering
        ensures { ordering result ≡ order s.now (path self.entry) }
    {
        match s.split_at_checked(self.first.len()) {
            Some((front, back)) => front.cmp(self.first).then(back.cmp(self.rest)),
            None => s.cmp(self.first),
        }
    }

    // Is s the path?
    #[tactic(auto, using(crate::proofs::Slices::same_is, crate::proofs::Slices::stripped, crate::proofs::Joins::same_behind, crate::proofs::Joins::same_beside))]
    pub fn equal(self, s: &[u8]) -> bool
        ensures { result ≡ same s.now (path self.entry) }
    {
        s.strip_prefix(self.first) == Some(self.rest)
    }
}
