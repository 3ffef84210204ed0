// Namespaces (namespace.rs).
ghost use Rattle.std.specs.Prelude.{◌≡◌, ◌≤◌, length, None, Some, option_copied};
ghost use Rattle.names.specs.Name.{longest, fits};
ghost use Rattle.names.specs.Check.{checked};
ghost use Rattle.names.specs.Namespace.{expand, expansion, names_check, expanded};
ghost use Rattle.names.specs.Means.{content, expansion_content, made_name, if_fits, check_of, checked_of};
ghost use Rattle.names.specs.Promises.{width_in};

use crate::name::{LONGEST, Name, Refusal};
use crate::partial::check_partial;

// The expansion of a namespace: what goes before every name in it.
#[derive(Clone, Copy)]
pub struct Namespace(pub Name);

// refs/namespaces/a/refs/namespaces/b/ for a/b, where a name holds that: each component between refs/namespaces/ and a slash.
fn expansion(s: &[u8]) -> Option<Name>
    ensures { made_name result ≡ if_fits (expand s.now) }
{
    let mut name = Name::empty();
    for part in s.split(|&b| b == b'/') {
        name.push_parts(b"refs/namespaces/", part, b"/").ok()?;
    }
    Some(name)
}

// A component's refs/namespaces/ and the slash behind it.
const AROUND: usize = 17;

// A namespace of so many bytes has an expansion that a name holds: each byte becomes AROUND at most.
const SHORT: usize = (LONGEST - AROUND) / AROUND;

// How many bytes a byte becomes in the expansion: with a slash comes the refs/namespaces/ of the next component.
fn width_in(b: u8) -> usize
    ensures { result ≡ width_in b }
{
    if b == b'/' { AROUND } else { 1 }
}

// Whether a name holds the expansion, counted where that is not known from the length.
fn expansion_fits(s: &[u8]) -> bool
    requires { length s.now ≤ longest }
    ensures { result ≡ fits (expand s.now) }
{
    if s.len() <= SHORT {
        return true;
    }
    AROUND + s.iter().map(|&b| width_in(b)).sum::<usize>() <= LONGEST
}

// Whether s is a namespace: refused 3 over 250 bytes, then 4 if malformed, then 5 if its expansion is over 250 bytes.
// Kept: `expand` would make 250 bytes that a check throws away; a check alone is what C asks.
pub fn check_namespace(s: &[u8]) -> Result<(), Refusal>
    ensures { check_of result ≡ names_check None (Some s.now) }
{
    check_partial(s)?;
    if expansion_fits(s) {
        Ok(())
    } else {
        Err(Refusal::ExpansionTooLong)
    }
}

// The namespace s, checked.
// Kept: `expand` is its name in the Rust, and it makes another text than s, so no `TryFrom`.
pub fn expand(s: &[u8]) -> Result<Namespace, Refusal>
    ensures { checked_of expansion_content result ≡ expanded s.now }
{
    check_partial(s)?;
    Ok(Namespace(expansion(s).ok_or(Refusal::ExpansionTooLong)?))
}

// What goes before every name: the namespace's expansion, checked, or nothing where there is no namespace.
#[tactic(auto, unfolding(crate::specs::Namespace::names_check, crate::specs::Namespace::expanded))]
pub fn expansion_of(namespace: Option<&[u8]>) -> Result<Name, Refusal>
    ensures { checked_of content result ≡ checked (names_check None (option_copied namespace.entry)) (expansion (option_copied namespace.entry)) }
{
    match namespace {
        Some(s) => Ok(expand(s)?.0),
        None => Ok(Name::empty()),
    }
}
