// The fields of a line, and what a field says.
ghost use Rattle.std.specs.Prelude.{◌≡◌, ◌∷◌, [], ◌*◌, ◌/◌, ◌≤◌, ◌<◌, length};
ghost use Rattle.std.specs.Option.{option_copied};
ghost use Rattle.names.specs.Bytes.{every};
ghost use Rattle.replay.specs.Input.{is_digit, digit_value, pairs, is_pairs, byte_string, Reads, number_behind, number_in};

use arrayvec::ArrayVec;
use names::bytes::equal;

// The longest byte string: 40 blocks and one byte.
pub(crate) const MOST: usize = 20481;

pub(crate) type Bytes = ArrayVec<u8, MOST>;

// The fields of a line, which has at most four. An empty one needs no test: it is no word, no byte string and no number.
pub(crate) type Fields<'a> = ArrayVec<&'a [u8], 4>;

// None where there are more than four.
pub(crate) fn fields_of(line: &[u8]) -> Option<Fields<'_>> {
    let mut fields = Fields::new();
    fields.extend(line.split(|b| *b == b' ')).ok()?;
    Some(fields)
}

#[tactic(auto, using(std::proofs::lemmas::Bool::Decides::nat_tests), unfolding(crate::specs::Input::is_digit))]
fn is_digit(b: u8) -> bool
    ensures { result ≡ is_digit b }
{
    matches!(b, b'0'..=b'9' | b'a'..=b'f')
}

// What a digit stands for: 0 for any other byte.
// Kept: to_digit(16) asks for a char and answers an Option of a u32: two conversions, and an unwrap of what is_pairs has asked.
#[tactic(auto, using(std::proofs::lemmas::Bool::Decides::nat_tests), unfolding(crate::specs::Input::digit_value))]
fn digit_value(b: u8) -> u8
    ensures { (result ≡ digit_value b) × (result < 16) }
{
    match b {
        b'0'..=b'9' => b - b'0',
        b'a'..=b'f' => b - b'a' + 10,
        _ => 0,
    }
}

// The bytes that pairs of digits stand for.
fn decode_pairs(s: &[u8], to: &mut Bytes)
    requires { length s.now / 2 ≤ MOST }
    ensures { to.new.items ≡ pairs s.now }
{
    to.clear();
    let (pairs, _) = s.as_chunks::<2>();
    for [high, low] in pairs {
        to.push(digit_value(*high) * 16 + digit_value(*low));
    }
}

fn all_digits(s: &[u8]) -> bool
    ensures { result ≡ every is_digit s.now }
{
    s.iter().all(|b| is_digit(*b))
}

// Whether a field is one or more pairs of digits, and not too many.
#[tactic(auto, using(std::proofs::lemmas::Bool::Decides::nat_tests), unfolding(crate::specs::Input::is_pairs))]
fn is_pairs(s: &[u8]) -> bool
    ensures { result ≡ is_pairs s.now }
{
    !s.is_empty() && s.len() <= MOST * 2 && s.len() % 2 == 0 && all_digits(s)
}

// The byte string that a field gives. Where it gives none, `to` stays as it is.
// Kept: into a lent room, since a question lends its bytes from there (no heap).
pub(crate) fn read_bytes(s: &[u8], to: &mut Bytes) -> Option<()>
    ensures { Reads s.now to.old.items to.new.items result }
{
    if equal(s, b"-") {
        to.clear();
        return Some(());
    }
    if !is_pairs(s) {
        return None;
    }
    decode_pairs(s, to);
    Some(())
}

// The same, lent.
pub(crate) fn lend_bytes<'a>(s: &[u8], room: &'a mut Bytes) -> Option<&'a [u8]>
    ensures { option_copied result ≡ byte_string s.now }
{
    read_bytes(s, room)?;
    Some(room.as_slice())
}

// The same where the field may say that there is none.
pub(crate) fn lend_optional<'a>(s: &[u8], room: &'a mut Bytes) -> Option<Option<&'a [u8]>> {
    if equal(s, b"~") {
        return Some(None);
    }
    Some(Some(lend_bytes(s, room)?))
}

// The number with one more decimal digit behind it.
// Kept: parse takes a str, and a + in front too, which is no number here.
fn with_digit(value: usize, b: u8) -> Option<usize>
    ensures { result ≡ number_behind value (b ∷ []) }
{
    if !b.is_ascii_digit() {
        return None;
    }
    value.checked_mul(10)?.checked_add(usize::from(b - b'0'))
}

#[tactic(auto, unfolding(crate::specs::Input::number_in))]
pub(crate) fn read_number(s: &[u8]) -> Option<usize>
    ensures { result ≡ number_in s.now }
{
    if s.is_empty() {
        return None;
    }
    let mut value: usize = 0;
    for b in s {
        value = with_digit(value, *b)?;
    }
    Some(value)
}
