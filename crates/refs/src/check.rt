// What is checked before a search: rows 1 to 8.
ghost use Rattle.std.specs.Prelude.{◌≡◌, Some, IfOk, option_copied};
ghost use Rattle.names.specs.Check.{checked};
ghost use Rattle.names.specs.Namespace.{expansion, names_check};
ghost use Rattle.names.specs.Means.{content, checked_of};
ghost use Rattle.blocks.specs.Snapshot.{size_check, store, store_flaw};
ghost use Rattle.blocks.specs.Means.{id_width, snapshot_of};
ghost use Rattle.refs.specs.Search.{after_checks, call_check};
ghost use Rattle.refs.specs.Means.{call_gives, fit_gives};
ghost use Rattle.refs.specs.declared.check.CallError.TheVariants as why;

use crate::fit::FitSnapshot;
use blocks::fitness::{SizeError, Unfit, fitness, size_check};
use blocks::snapshot::Snapshot;
use names::name::{LONGEST, Name, Refusal};
use names::namespace::expansion_of;
use names::validate::well_formed;

// Why a call is turned away: 1 and 2, 3 to 5, or 6 to 8 with region and block.
#[derive(Debug, Clone, Copy, PartialEq, Eq)]
pub enum CallError {
    Sizes(SizeError),
    Names(Refusal),
    Unfit(Unfit),
}

impl From<SizeError> for CallError {
    ghost from_gives = { λ e r. r ≡ why.Sizes e };

    fn from(e: SizeError) -> CallError {
        CallError::Sizes(e)
    }
}

impl From<Refusal> for CallError {
    ghost from_gives = { λ e r. r ≡ why.Names e };

    fn from(e: Refusal) -> CallError {
        CallError::Names(e)
    }
}

impl From<Unfit> for CallError {
    ghost from_gives = { λ e r. r ≡ why.Unfit e };

    fn from(e: Unfit) -> CallError {
        CallError::Unfit(e)
    }
}

// A call that passed its checks: the snapshot, fit for search, and the namespace's expansion, empty where there is none.
#[derive(Clone, Copy)]
pub struct CheckedCall<'a> {
    pub(crate) snapshot: FitSnapshot<'a>,
    pub expansion: Name,
}

// Rows 3 to 5 of a name and a namespace: the earlier row first, whichever of the two it is.
#[tactic(auto, using(crate::proofs::Names::given, names::proofs::Rows::rows))]
fn check_names(x: &[u8], namespace: Option<&[u8]>) -> Result<Name, Refusal>
    ensures { checked_of content result ≡ checked (names_check (Some x.now) (option_copied namespace.entry)) (expansion (option_copied namespace.entry)) }
{
    if !(x.len() <= LONGEST && namespace.is_none_or(|n| n.len() <= LONGEST)) {
        return Err(Refusal::TooLong);
    }
    if !(well_formed(x) && namespace.is_none_or(well_formed)) {
        return Err(Refusal::Malformed);
    }
    expansion_of(namespace)
}

// Rows 1 to 8, in their order.
#[tactic(auto, using(crate::proofs::Calls::all_pass))]
pub(crate) fn check_call<'a>(
    snapshot: Snapshot<'a>,
    name: &[u8],
    namespace: Option<&[u8]>,
) -> Result<CheckedCall<'a>, CallError>
    ensures call { call_gives result ≡ after_checks (call_check (snapshot_of snapshot.entry) name.now (option_copied namespace.entry)) (store_flaw (store id_width (snapshot_of snapshot.entry))) (expansion (option_copied namespace.entry)) }
    ensures same { IfOk result (λ c. c.snapshot.snapshot ≡ snapshot.entry) }
{
    size_check(snapshot)?;
    let expansion = check_names(name, namespace)?;
    let snapshot = FitSnapshot::new(snapshot)?;
    Ok(CheckedCall {
        snapshot,
        expansion,
    })
}

// Whether a snapshot is fit for search: rows 1 and 2, then 6 to 8.
pub fn check_fit(s: Snapshot<'_>) -> Result<(), CallError>
    ensures { fit_gives result ≡ after_checks (size_check (snapshot_of s.entry)) (store_flaw (store id_width (snapshot_of s.entry))) tt }
{
    size_check(s)?;
    fitness(s)?;
    Ok(())
}
