// Checks of names: 0 where a name is accepted, else the number of its refusal.
ghost use Rattle.std.specs.Prelude.{◌≡◌, None, Some};
ghost use Rattle.names.specs.Namespace.{names_check, expanded};
ghost use Rattle.names.specs.Means.{check_of, full_checked};
ghost use Rattle.capi.specs.Report.{check_number, checked_number};

use crate::report::DONE;
use names::fullname::check_full;
use names::name::Refusal;
use names::namespace::check_namespace;
use names::partial::check_partial;

fn number(checked: Result<(), Refusal>) -> u32
    ensures { result ≡ check_number (check_of checked) }
{
    checked.err().map_or(DONE, u32::from)
}

// A partial name: 3 over 250 bytes, 4 if malformed.
pub fn cosvint_partial_name(name: &[u8]) -> u32
    ensures { result ≡ check_number (names_check (Some name.now) None) }
{
    number(check_partial(name))
}

// A full name: 3 over 250 bytes, 4 if it is not complete.
pub fn cosvint_full_name(name: &[u8]) -> u32
    ensures { result ≡ checked_number (full_checked name.now) }
{
    number(check_full(name))
}

// A namespace: 3 over 250 bytes, 4 if malformed, 5 if its expansion is over 250 bytes.
pub fn cosvint_namespace(namespace: &[u8]) -> u32
    ensures { result ≡ checked_number (expanded namespace.now) }
{
    number(check_namespace(namespace))
}
