// Well-formed and complete names: the rules of document 01 ("Names"), byte by byte. The Rust has them in gix-validate.
ghost use Rattle.std.specs.Prelude.{◌≡◌, ◌∷◌, ◌≤◌, length, drop, ◌+◌};
ghost use Rattle.names.specs.Bytes.{slash};
ghost use Rattle.names.specs.WellFormed.{allowed, well_formed, complete};
ghost use Rattle.names.specs.Promises.{rules_after, fits_after, lock_ends, before, plain, sure, all_sure};

use crate::bytes::{contains, equal, in_range, starts_with};
use crate::name::is_pseudo_ref;

// No byte below 32, no 127, space, ~ ^ : ? * [ or backslash.
#[tactic(auto, using(crate::proofs::ByteRules::allowed_is))]
fn allowed_byte(b: u8) -> bool
    ensures { result ≡ allowed b }
{
    32 <= b && !b"\x7f\\ ~^:?*[".contains(&b)
}

// Letters, digits and the like, of which most names are made: none breaks a rule, whatever stands before and behind it.
// Kept: `matches!` with ranges is not judged eight bytes at a time: well_formed then takes 3 times as long, and the natural way is ahead.
fn is_plain(b: u8) -> bool
    ensures { result ≡ plain b }
{
    in_range(b, b'_', b'z') | in_range(b, b'0', b'9') | in_range(b, b'@', b'Z') | (b == b'-')
}

// Behind a dot: is that a .lock that ends a component?
#[tactic(auto, using(crate::proofs::ByteRules::lock_is, crate::proofs::Prefix::starts_length))]
fn lock_ends(after: &[u8]) -> bool
    ensures { result ≡ lock_ends (46 ∷ after.now) }
{
    starts_with(after, b"lock") && (after.len() == 4 || after[4] == b'/')
}

// Does a dot fit between p and what follows? It begins no component, follows no dot, is not the last byte and begins no
// .lock that ends a component.
#[tactic(auto, using(crate::proofs::ByteRules::dot_is))]
fn dot_fits(p: u8, after: &[u8]) -> bool
    ensures { result ≡ fits_after p (46 ∷ after.now) }
{
    p != b'/' && p != b'.' && !after.is_empty() && !lock_ends(after)
}

// Does a slash fit between p and what follows? It follows no slash and is not the last byte.
#[tactic(auto, using(crate::proofs::ByteRules::slash_is))]
fn slash_fits(p: u8, after: &[u8]) -> bool
    ensures { result ≡ fits_after p (slash ∷ after.now) }
{
    p != b'/' && !after.is_empty()
}

// Does the first byte of t fit behind p? With no byte the rules say no. Most bytes are plain, so that is asked first.
#[tactic(auto, using(crate::proofs::ByteRules::none_fits, crate::proofs::ByteRules::plain_first, crate::proofs::ByteRules::brace_at, crate::proofs::ByteRules::other_at, crate::proofs::ByteRules::parting_at))]
fn fits_after(p: u8, t: &[u8]) -> bool
    ensures { result ≡ fits_after p t.now }
{
    let [b, after @ ..] = t else {
        return false;
    };
    if is_plain(*b) {
        return true;
    }
    match b {
        b'.' => dot_fits(p, after),
        b'/' => slash_fits(p, after),
        b'{' => p != b'@',
        _ => allowed_byte(*b),
    }
}

// Does b fit between p and n, judged by these three bytes alone and with no branch? A byte that is not sure may fit still.
fn is_sure(p: u8, b: u8, n: u8) -> bool
    ensures { result ≡ sure p b n }
{
    is_plain(b) | (in_range(b, b'.', b'/') & !in_range(p, b'.', b'/') & ((b == b'/') | (n != b'l')))
}

// Are the eight bytes behind place i sure to fit? One way out of the loop: they are then judged at once.
// Kept: a fold over `array_windows` is as quick here, but rustc then drops the checks of the twin's indices, so a listing is 1.3 times the twin: over 1.1.
fn eight_sure(s: &[u8], i: usize) -> bool
    requires { i + 10 ≤ length s.now }
    ensures { result ≡ all_sure s.now i 8 }
{
    let mut sure = true;
    for j in 0..8 {
        sure &= is_sure(s[i + j], s[i + j + 1], s[i + j + 2]);
    }
    sure
}

// How many bytes in front are skipped, eight at a time, as sure to fit: in most names, all but the last few.
// Kept: as `1 + 8 * s.windows(10).step_by(8).take_while(..).count()`, proved too, a check of a name took 1.02 to 1.15 times as long.
fn sure_front(s: &[u8]) -> usize
    ensures { (result ≤ length s.now) × (rules_after slash s.now ≡ rules_after (before s.now result) (drop result s.now)) }
{
    if s.len() < 10 || !is_plain(s[0]) {
        return 0;
    }
    let mut front = 1;
    for i in (0..s.len() - 9).step_by(8) {
        if !eight_sure(s, i) {
            return front;
        }
        front = i + 9;
    }
    front
}

// The byte before place i. The first stands where a component begins, as if a slash were before it.
fn byte_before(s: &[u8], i: usize) -> u8
    requires { i ≤ length s.now }
    ensures { result ≡ before s.now i }
{
    if i == 0 { b'/' } else { s[i - 1] }
}

// Does every byte fit behind the one before?
// Kept: each step judges a rest of s: with `split_first` in place of the index it takes 1.2 times as long (Rust, 10 to 60 bytes).
fn all_fit(s: &[u8]) -> bool
    ensures { result ≡ rules_after slash s.now }
{
    let start = sure_front(s);
    let mut p = byte_before(s, start);
    for i in start..s.len() {
        if !fits_after(p, &s[i..]) {
            return false;
        }
        p = s[i];
    }
    true
}

// The rules in one pass, since every record of a packed region is asked. What is handed on is a part, though it is the whole:
// a slice that is handed on as it came is not passed in registers.
#[tactic(auto, using(crate::proofs::ByteRules::formed_is, crate::proofs::Parts::whole_part))]
pub fn well_formed(s: &[u8]) -> bool
    ensures { result ≡ well_formed s.now }
{
    !s.is_empty() && all_fit(&s[0..]) && !equal(s, b"@")
}

// Well formed and, besides, holding a slash or made only of A to Z and underscore.
#[tactic(auto, unfolding(crate::specs::WellFormed::complete))]
pub fn complete(s: &[u8]) -> bool
    ensures { result ≡ complete s.now }
{
    well_formed(s) && (contains(s, b"/") || is_pseudo_ref(s))
}
