// The listing: its state goes with the caller, as bytes.
ghost use Rattle.std.specs.Prelude.{◌≡◌, ◌≤◌, length, option_copied};
ghost use Rattle.blocks.specs.Means.{id_width, snapshot_of};
ghost use Rattle.refs.specs.Answer.{strip_answer};
ghost use Rattle.refs.specs.Run.{open_listing, step};
ghost use Rattle.refs.specs.Means.{parts_of, positions_of, state_at, step_number, listed, state_of as listing_state};
ghost use Rattle.capi.specs.Report.{answer_report};
ghost use Rattle.capi.specs.Layout.{state_size, number_bytes, state_bytes, state_from};
ghost use Rattle.capi.specs.Output.{OpenGiven, StepGiven};
ghost use Rattle.capi.specs.Promises.{Wrote, report_of, state_of};

use crate::layout::{WORD_SIZE, put_padded, put_word, word_at};
use crate::report::{DONE, NOTHING, REPORT_SIZE, Report, Shown, TOO_SHORT};
use blocks::snapshot::Snapshot;
use names::bytes::lend;
use names::name::LONGEST;
use output::clear;
use refs::overlay_iter::{Cursor, Listing, Positions, StepError};
use refs::raw::Parts;

// Where each field of a state begins.
// Kept: the C interface hands a state to the caller, as bytes at fixed places.
const WORKTREE_AT: usize = 0;

const COMMON_AT: usize = WORKTREE_AT + WORD_SIZE;

const PACKED_AT: usize = COMMON_AT + WORD_SIZE;

const ENDED_AT: usize = PACKED_AT + WORD_SIZE;

const LENGTH_AT: usize = ENDED_AT + WORD_SIZE;

const EXPANSION_AT: usize = LENGTH_AT + WORD_SIZE;

pub const STATE_SIZE: usize = EXPANSION_AT + LONGEST;

// A listing's state: where it stands, and the namespace's expansion, lent by the caller's bytes or from where it was made.
// Kept: Listing holds the expansion that this lends, so it would be copied out of those bytes and back at each step.
#[derive(Clone, Copy)]
struct State<'a> {
    cursor: Cursor,
    expansion: &'a [u8],
}

// The numbers in front of the expansion.
fn put_numbers(state: &mut [u8], cursor: Cursor, length: usize)
    ensures { Wrote state.old 0 (number_bytes (positions_of cursor.at) cursor.ended length) state.new }
{
    put_word(state, WORKTREE_AT, cursor.at.worktree as u64);
    put_word(state, COMMON_AT, cursor.at.common as u64);
    put_word(state, PACKED_AT, cursor.at.packed as u64);
    put_word(state, ENDED_AT, u64::from(cursor.ended));
    put_word(state, LENGTH_AT, length as u64);
}

impl<'a> From<&'a Listing> for State<'a> {
    ghost from_gives = { λ listing s. state_of s ≡ listing_state listing.now };

    fn from(listing: &'a Listing) -> State<'a> {
        State {
            cursor: listing.cursor,
            expansion: listing.expansion.as_bytes(),
        }
    }
}

impl<'a> State<'a> {
    // The state that any bytes stand for: a length over 250 counts as 250.
    fn read(bytes: &'a [u8]) -> State<'a>
        requires { state_size ≤ length bytes.now }
        ensures { state_of result ≡ state_from bytes.now }
    {
        let at = Positions {
            worktree: word_at(bytes, WORKTREE_AT) as usize,
            common: word_at(bytes, COMMON_AT) as usize,
            packed: word_at(bytes, PACKED_AT) as usize,
        };
        let ended = word_at(bytes, ENDED_AT) != 0;
        let length = word_at(bytes, LENGTH_AT) as usize;
        State {
            cursor: Cursor { at, ended },
            expansion: lend(&bytes[EXPANSION_AT..STATE_SIZE], length),
        }
    }

    fn put(self, out: &mut [u8])
        ensures { Wrote out.old 0 (state_bytes (state_of self.entry)) out.new }
    {
        put_numbers(out, self.cursor, self.expansion.len());
        put_padded(out, EXPANSION_AT, LONGEST, self.expansion);
    }
}

// A state with its expansion as before: what is there of it stays, and zeros follow.
fn put_next(state: &mut [u8], cursor: Cursor)
    requires { state_size ≤ length state.old }
    ensures { Wrote state.old 0 (state_bytes (state_at (state_from state.old).expansion cursor)) state.new }
{
    let length = State::read(state).expansion.len();
    put_numbers(state, cursor, length);
    clear(state, EXPANSION_AT + length, LONGEST - length);
}

// A listing's opening: 0, or 1 to 5. Where it is refused the state is not written.
pub fn cosvint_list_open(s: Snapshot<'_>, namespace: Option<&[u8]>, state: &mut [u8]) -> u32
    ensures { OpenGiven (open_listing (snapshot_of s.entry) (option_copied namespace.entry)) state.old state.new result }
{
    if state.len() < STATE_SIZE {
        return TOO_SHORT;
    }
    match Listing::open(s, namespace) {
        Ok(listing) => {
            State::from(&listing).put(state);
            DONE
        }
        Err(why) => why.into(),
    }
}

// What a step gives, without the namespace's expansion e in front of names.
fn listed<'a>(step: Result<Option<Parts<'a>>, StepError>, e: &[u8]) -> Report<'a>
    ensures { report_of result ≡ answer_report (strip_answer e.now (listed parts_of step_number step.entry)) }
{
    match step {
        Ok(Some(p)) => Report::Reference(DONE, Shown::without(p, e)),
        Ok(None) => Report::Number(NOTHING),
        Err(why) => Report::Number(why.into()),
    }
}

// One step from the state, which becomes the next: 0 with a reference, 100 where the listing is ended, else 1, 2, or 6 to 12.
pub fn cosvint_list_step(s: Snapshot<'_>, state: &mut [u8], out: &mut [u8]) -> u32
    ensures { StepGiven (step id_width (snapshot_of s.entry) (state_from state.old)) state.old out.old state.new out.new result }
{
    if state.len() < STATE_SIZE || out.len() < REPORT_SIZE {
        return TOO_SHORT;
    }
    let now = State::read(state);
    let mut cursor = now.cursor;
    let step = cursor.advance(s, now.expansion);
    let number = listed(step, now.expansion).put(out);
    put_next(state, cursor);
    number
}
