// What the content of a loose file says (loose/reference/decode.rs).
ghost use Rattle.std.specs.Prelude.{◌≡◌, drop};
ghost use Rattle.blocks.specs.Content.{ends_line, skip_spaces, line, target_name_in, begins_hex, read_target, read};
ghost use Rattle.blocks.specs.Means.{id_width, is_id, refusal_number, read_as, reading_of, name_reading, within_name};

use crate::parse::{ID_WIDTH, Id, hex_hash, id_of, is_hex_digit};
use names::bytes::{equal, starts_with};
use names::name::Name;
use names::validate::complete;

// What a symbolic content begins with.
const REF_LENGTH: usize = b"ref: ".len();

// Why a content is refused: 10, 11 and 12.
#[derive(Clone, Copy, Debug, PartialEq, Eq)]
pub enum Refusal {
    Unreadable = 10,
    Incomplete = 11,
    Unsupported = 12,
}

// The number in document 01's table.
impl From<Refusal> for u32 {
    ghost from_gives = { λ why n. n ≡ refusal_number why };

    fn from(why: Refusal) -> u32 {
        why as u32
    }
}

// What a content points to: the digits of an id as they stand in it, or the name of another reference. Both are parts of the content.
#[derive(Clone, Copy, Debug, PartialEq, Eq)]
pub enum TargetRef<'a> {
    Object(&'a [u8]),
    Symbolic(&'a [u8]),
}

// The same, held by itself.
// Kept: borrowed and owned, as in gix-ref: one generic type would be named with both its parts' types at each use.
#[derive(Clone, Copy)]
pub enum Target {
    Object(Id),
    Symbolic(Name),
}

// What stands behind the spaces in front.
// Kept: `first_line` looks alike, but hands on the front and this the rest: what both share is the one call of `position`.
fn after_spaces(s: &[u8]) -> &[u8]
    ensures { result.now ≡ skip_spaces s.now }
{
    let n = s.iter().position(|&b| b != b' ').unwrap_or(s.len());
    &s[n..]
}

fn is_line_end(b: u8) -> bool
    ensures { result ≡ ends_line b }
{
    matches!(b, 0 | b'\r' | b'\n')
}

// What stands before the first NUL, CR or LF.
fn first_line(s: &[u8]) -> &[u8]
    ensures { result.now ≡ line s.now }
{
    let n = s.iter().position(|&b| is_line_end(b)).unwrap_or(s.len());
    &s[..n]
}

// Whether a digit stands at i.
fn digit_at(s: &[u8], i: usize) -> bool
    ensures { result ≡ begins_hex (drop i s.now) }
{
    s.get(i).is_some_and(|&b| is_hex_digit(b))
}

// Whether s begins with an id and no further digit.
fn is_id(s: &[u8]) -> bool
    ensures { result ≡ is_id id_width s.now }
{
    hex_hash(s) && !digit_at(s, ID_WIDTH)
}

// What a symbolic content names.
pub fn target_name(s: &[u8]) -> &[u8]
    ensures { result.now ≡ target_name_in s.now }
{
    first_line(after_spaces(s.get(REF_LENGTH..).unwrap_or(&[])))
}

// What a symbolic content that names t points to.
#[tactic(auto, unfolding(crate::specs::Content::read_target))]
fn validated(t: &[u8]) -> Result<TargetRef<'_>, Refusal>
    ensures { read_as result ≡ read_target t.now }
{
    if complete(t) {
        return Ok(TargetRef::Symbolic(t));
    }
    if equal(t, b"refs/heads/.invalid") {
        return Err(Refusal::Unsupported);
    }
    Err(Refusal::Incomplete)
}

// What a loose file's content points to, or why it is refused.
#[tactic(auto, using(crate::proofs::Contents::read_path, crate::proofs::Contents::read_object, crate::proofs::Contents::read_neither))]
pub fn read(s: &[u8]) -> Result<TargetRef<'_>, Refusal>
    ensures { read_as result ≡ read id_width s.now }
{
    if starts_with(s, b"ref: ") {
        return validated(target_name(s));
    }
    if is_id(s) {
        return Ok(TargetRef::Object(&s[..ID_WIDTH]));
    }
    Err(Refusal::Unreadable)
}

// The name of another reference as a target, where a name holds it.
#[tactic(auto, using(crate::proofs::Contents::name_made, crate::proofs::Contents::no_name))]
fn held(t: &[u8]) -> Result<Target, Refusal>
    ensures { reading_of result ≡ name_reading t.now }
{
    let name = Name::try_from(t).map_err(|_| Refusal::Incomplete)?;
    Ok(Target::Symbolic(name))
}

// The target that a loose file's content gives, or why it is refused.
pub fn try_from_path(s: &[u8]) -> Result<Target, Refusal>
    ensures { reading_of result ≡ within_name (read id_width s.now) }
{
    match read(s)? {
        TargetRef::Object(digits) => Ok(Target::Object(id_of(digits))),
        TargetRef::Symbolic(t) => held(t),
    }
}
