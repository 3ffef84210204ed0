// Names (name.rs): 250 bytes held in a struct, with a length.
ghost use Rattle.std.specs.Prelude.{◌≡◌, ◌≤◌, [], ◌++◌, length, take, OnErr, nat_eq};
ghost use Rattle.std.specs.Result.{result_ok};
ghost use Rattle.std.specs.Cmp.{on_per, partial_equiv_from_equiv};
ghost use Rattle.std.specs.Cmp.Lexicographic.{pointwise, nat_list_eq_equiv};
ghost use Rattle.std.specs.Ordering.{on};
ghost use Rattle.names.specs.Name.{longest, pseudo_byte, is_pseudo};
ghost use Rattle.names.specs.declared.name.Refusal.TheVariants as refusal;

use crate::bytes::lend;

// The longest name.
pub const LONGEST: usize = 250;

// A length of more than 250 stands for 250.
// Kept: bytes with a length beside them: a name is copied, and `ArrayVec` is not Copy.
#[derive(Clone, Copy)]
pub struct Name {
    pub bytes: [u8; LONGEST],
    pub len: usize,
}

// More bytes than a name holds.
#[derive(Debug, Clone, Copy, PartialEq, Eq)]
pub struct TooLong;

// Why a name is refused: 3, 4 and 5 of document 01's table.
#[derive(Debug, Clone, Copy, PartialEq, Eq)]
pub enum Refusal {
    TooLong = 3,
    Malformed = 4,
    ExpansionTooLong = 5,
}

// The number of a refusal in document 01's table.
impl From<Refusal> for u32 {
    ghost use Rattle.names.specs.Means.{number};

    ghost from_gives = { λ why n. n ≡ number why };

    fn from(why: Refusal) -> u32 {
        why as u32
    }
}

impl From<TooLong> for Refusal {
    ghost from_gives = { λ _ why. why ≡ refusal.TooLong };

    fn from(_why: TooLong) -> Refusal {
        Self::TooLong
    }
}

impl Name {
    ghost use Rattle.names.specs.Means.{content, made_name, pushed, if_fits};

    pub fn empty() -> Name
        ensures { content result ≡ [] }
    {
        Name {
            bytes: [0; LONGEST],
            len: 0,
        }
    }

    #[tactic(auto, using(crate::proofs::Parts::held_small))]
    pub fn as_bytes(&self) -> &[u8]
        ensures bytes { result.now ≡ content self.now }
        ensures within { length result.now ≤ longest }
    {
        lend(&self.bytes, self.len)
    }

    #[tactic(auto, unfolding(crate::specs::Means::held))]
    pub(crate) fn clear(&mut self)
        ensures { content self.new ≡ [] }
    {
        self.len = 0;
    }

    // Puts s behind what is there, where both fit; where not, the name stays as it was.
    #[tactic(auto, using(crate::proofs::Held::push_refused, crate::proofs::Held::push_put))]
    pub fn push(&mut self, s: &[u8]) -> Result<(), TooLong>
        ensures put { pushed self.new result ≡ if_fits (content self.old ++ s.now) }
        ensures kept { OnErr result (content self.new ≡ content self.old) }
    {
        let at = self.as_bytes().len();
        if LONGEST - at < s.len() {
            return Err(TooLong);
        }
        output::put(&mut self.bytes, at, s);
        self.len = at + s.len();
        Ok(())
    }

    // Makes it a name of the first bytes of s, as many as it holds.
    #[tactic(auto, using(crate::proofs::Held::fill_held), unfolding(crate::specs::Means::held))]
    pub fn fill(&mut self, s: &[u8])
        ensures { content self.new ≡ take longest s.now }
    {
        output::put(&mut self.bytes, 0, s);
        self.len = s.len().min(LONGEST);
    }

    // A name of the first bytes of s, as many as it holds.
    pub fn cut(s: &[u8]) -> Name
        ensures { content result ≡ take longest s.now }
    {
        let mut name = Name::empty();
        name.fill(s);
        name
    }

    // Puts three parts behind what is there, where all fit; where not, the name holds what did fit.
    pub(crate) fn push_parts(&mut self, a: &[u8], s: &[u8], t: &[u8]) -> Result<(), TooLong>
        ensures { pushed self.new result ≡ if_fits (content self.old ++ (a.now ++ (s.now ++ t.now))) }
    {
        self.push(a)?;
        self.push(s)?;
        self.push(t)
    }

    // A name of three parts, where they fit together.
    pub(crate) fn joined(a: &[u8], s: &[u8], t: &[u8]) -> Option<Name>
        ensures { made_name result ≡ if_fits (a.now ++ (s.now ++ t.now)) }
    {
        let mut name = Name::empty();
        name.push_parts(a, s, t).ok()?;
        Some(name)
    }
}

// A name of the bytes s, where they fit.
impl TryFrom<&[u8]> for Name {
    ghost use Rattle.names.specs.Means.{made_name, if_fits};

    type Error = TooLong;

    ghost try_from_gives = { λ s r. made_name (result_ok r) ≡ if_fits s.now };

    fn try_from(s: &[u8]) -> Result<Name, TooLong> {
        let mut name = Name::empty();
        name.push(s)?;
        Ok(name)
    }
}

// Do two names hold the same bytes?
// Kept: bytes past the length do not count, so no derive.
impl PartialEq for Name {
    ghost use Rattle.names.specs.Means.{content};

    ghost eq = { on content (pointwise nat_eq) };

    ghost laws = { on_per content (partial_equiv_from_equiv nat_list_eq_equiv) };

    fn eq(&self, other: &Name) -> bool {
        self.as_bytes() == other.as_bytes()
    }
}

fn pseudo_byte(b: u8) -> bool
    ensures { result ≡ pseudo_byte b }
{
    matches!(b, b'A'..=b'Z' | b'_')
}

// Are all bytes A to Z or underscore? Also true of the empty name.
pub fn is_pseudo_ref(s: &[u8]) -> bool
    ensures { result ≡ is_pseudo s.now }
{
    s.iter().all(|&b| pseudo_byte(b))
}
