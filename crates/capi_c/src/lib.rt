// The archive for C and Rust: each export calls the function of capi that has its name, under the same clause.
// Kept: the C interface needs each export's name and number, a flag beside what may be absent, and the regions one by one.
#![tactic(auto)]

ghost use Rattle.std.specs.Prelude.{◌≡◌, None, Some};
ghost use Rattle.names.specs.Namespace.{names_check, expanded};
ghost use Rattle.names.specs.Means.{full_checked};
ghost use Rattle.blocks.specs.Means.{id_width, if_there, snapshot_from, snapshot_of};
ghost use Rattle.refs.specs.Search.{find};
ghost use Rattle.refs.specs.Follow.{follow};
ghost use Rattle.refs.specs.Run.{open_listing, step};
ghost use Rattle.capi.specs.Report.{check_number, checked_number, result_report, searched_report, followed_report, fitness_report};
ghost use Rattle.capi.specs.Layout.{state_from};
ghost use Rattle.capi.specs.Output.{Given, OpenGiven, StepGiven};

use blocks::snapshot::Snapshot;
use capi::{listing, search, validate};

fn snapshot<'a>(
    worktree: &'a [u8],
    common: &'a [u8],
    has_common: bool,
    packed: &'a [u8],
) -> Snapshot<'a>
    ensures { snapshot_of result ≡ snapshot_from worktree.now (if_there has_common common.now) packed.now }
{
    Snapshot {
        worktree,
        common: has_common.then_some(common),
        packed,
    }
}

// A partial name: 3 over 250 bytes, 4 if malformed.
#[unsafe(no_mangle)]
pub extern "C" fn cosvint_partial_name(name: &[u8]) -> u32
    ensures { result ≡ check_number (names_check (Some name.now) None) }
{
    validate::cosvint_partial_name(name)
}

// A full name: 3 over 250 bytes, 4 if it is not complete.
#[unsafe(no_mangle)]
pub extern "C" fn cosvint_full_name(name: &[u8]) -> u32
    ensures { result ≡ checked_number (full_checked name.now) }
{
    validate::cosvint_full_name(name)
}

// A namespace: 3 over 250 bytes, 4 if malformed, 5 if its expansion is over 250 bytes.
#[unsafe(no_mangle)]
pub extern "C" fn cosvint_namespace(namespace: &[u8]) -> u32
    ensures { result ≡ checked_number (expanded namespace.now) }
{
    validate::cosvint_namespace(namespace)
}

// Fitness for search: 0, or 1, 2 and 6 to 8.
#[unsafe(no_mangle)]
pub extern "C" fn cosvint_fitness<'a>(
    worktree: &'a [u8],
    common: &'a [u8],
    has_common: bool,
    packed: &'a [u8],
    out: &mut [u8],
) -> u32
    ensures { Given (fitness_report (snapshot_from worktree.now (if_there has_common common.now) packed.now)) out.old out.new result }
{
    search::cosvint_fitness(snapshot(worktree, common, has_common, packed), out)
}

// Search: 0 where a reference is found, 100 where it is not there, else 1 to 12.
#[unsafe(no_mangle)]
pub extern "C" fn cosvint_find<'a>(
    worktree: &'a [u8],
    common: &'a [u8],
    has_common: bool,
    packed: &'a [u8],
    name: &[u8],
    namespace: &[u8],
    has_namespace: bool,
    out: &mut [u8],
) -> u32
    ensures { Given (result_report searched_report (find id_width (snapshot_from worktree.now (if_there has_common common.now) packed.now) name.now (if_there has_namespace namespace.now))) out.old out.new result }
{
    search::cosvint_find(
        snapshot(worktree, common, has_common, packed),
        name,
        has_namespace.then_some(namespace),
        out,
    )
}

// Following: 0 where an id is reached, 100 where the name is not there, else 1 to 15.
#[unsafe(no_mangle)]
pub extern "C" fn cosvint_follow<'a>(
    worktree: &'a [u8],
    common: &'a [u8],
    has_common: bool,
    packed: &'a [u8],
    name: &[u8],
    namespace: &[u8],
    has_namespace: bool,
    out: &mut [u8],
) -> u32
    ensures { Given (result_report followed_report (follow id_width (snapshot_from worktree.now (if_there has_common common.now) packed.now) name.now (if_there has_namespace namespace.now))) out.old out.new result }
{
    search::cosvint_follow(
        snapshot(worktree, common, has_common, packed),
        name,
        has_namespace.then_some(namespace),
        out,
    )
}

// A listing's opening: 0, or 1 to 5. Where it is refused the state is not written.
#[unsafe(no_mangle)]
pub extern "C" fn cosvint_list_open<'a>(
    worktree: &'a [u8],
    common: &'a [u8],
    has_common: bool,
    packed: &'a [u8],
    namespace: &[u8],
    has_namespace: bool,
    state: &mut [u8],
) -> u32
    ensures { OpenGiven (open_listing (snapshot_from worktree.now (if_there has_common common.now) packed.now) (if_there has_namespace namespace.now)) state.old state.new result }
{
    listing::cosvint_list_open(
        snapshot(worktree, common, has_common, packed),
        has_namespace.then_some(namespace),
        state,
    )
}

// One step from the state, which becomes the next: 0 with a reference, 100 where the listing is ended, else 1, 2, or 6 to 12.
#[unsafe(no_mangle)]
pub extern "C" fn cosvint_list_step<'a>(
    worktree: &'a [u8],
    common: &'a [u8],
    has_common: bool,
    packed: &'a [u8],
    state: &mut [u8],
    out: &mut [u8],
) -> u32
    ensures { StepGiven (step id_width (snapshot_from worktree.now (if_there has_common common.now) packed.now) (state_from state.old)) state.old out.old state.new out.new result }
{
    listing::cosvint_list_step(snapshot(worktree, common, has_common, packed), state, out)
}
