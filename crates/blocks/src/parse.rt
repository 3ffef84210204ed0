// Hexadecimal digits and ids (parse.rs).
ghost use Rattle.std.specs.Prelude.{◌≡◌, drop};
ghost use Rattle.names.specs.Bytes.{every};
ghost use Rattle.blocks.specs.Content.{is_hex};
ghost use Rattle.blocks.specs.Means.{id_width, padded, id_in, begins_with_id};

// The digits of an id.
pub const ID_WIDTH: usize = 40;

#[tactic(auto, unfolding(crate::specs::Content::is_hex))]
pub fn is_hex_digit(b: u8) -> bool
    ensures { result ≡ is_hex b }
{
    b.is_ascii_hexdigit()
}

// Whether every byte is a digit. All are looked at, so that the loop has one way out and many are looked at together.
// Kept: the loop of `all_zero` with another test, for the reason that stands there.
pub fn all_hex(s: &[u8]) -> bool
    ensures { result ≡ every is_hex s.now }
{
    let mut hex = true;
    for &b in s {
        hex &= is_hex_digit(b);
    }
    hex
}

// An id, its digits in lower case.
#[derive(Clone, Copy, Debug, PartialEq, Eq)]
pub struct Id {
    pub digits: [u8; ID_WIDTH],
}

// The first bytes of s. Where it is shorter, zeros follow.
fn padded(s: &[u8]) -> [u8; ID_WIDTH]
    ensures { result ≡ padded id_width s.now }
{
    let n = s.len().min(ID_WIDTH);
    let mut bytes = [0; ID_WIDTH];
    bytes[..n].copy_from_slice(&s[..n]);
    bytes
}

// The id that s begins with. Where s is shorter, zeros follow.
#[tactic(auto, using(crate::proofs::Ids::lowered))]
pub fn id_of(s: &[u8]) -> Id
    ensures { result.digits ≡ id_in id_width s.now }
{
    let mut digits = padded(s);
    digits.make_ascii_lowercase();
    Id { digits }
}

// Whether s begins with an id's digits.
pub fn hex_hash(s: &[u8]) -> bool
    ensures { result ≡ begins_with_id id_width s.now }
{
    s.get(..ID_WIDTH).is_some_and(|digits| all_hex(digits))
}

// The id that stands behind the first.
pub fn second_id_of(s: &[u8]) -> Id
    ensures { result.digits ≡ id_in id_width (drop id_width s.now) }
{
    id_of(s.get(ID_WIDTH..).unwrap_or(&[]))
}
