// The text of `reflist`: a heading, a line for each entry or error, and the end with their count.
ghost use Rattle.std.specs.Prelude.{◌≡◌, ◌+◌, ◌*◌, ◌++◌, ◌↔◌, length, IsSome, IsTrue};
ghost use Rattle.names.specs.Name.{longest};
ghost use Rattle.names.specs.Category.{short_name};
ghost use Rattle.names.specs.Means.{content};
ghost use Rattle.blocks.specs.Means.{id_width, snapshot_of, size_number};
ghost use Rattle.blocks.specs.Snapshot.{or_empty};
ghost use Rattle.refs.specs.Run.{run};
ghost use Rattle.refs.specs.Means.{reference_of, state_of};
ghost use Rattle.text.specs.Text.{newline, decimal};
ghost use Rattle.text.specs.Reflist.{heading, target_field, entry_line, error_line, answer_line, answer_lines, line_weight, line_count, block_total, listed_text, files_check, report, size_report};
ghost use Rattle.text.specs.Promises.{Adds, most_digits, longest_target, longest_line, longest_end, listed_answers, step_answer};

use crate::buffer::Text;
use blocks::block::BLOCK_SIZE;
use blocks::decode::Target;
use blocks::fitness::SizeError;
use blocks::snapshot::{Sizes, Snapshot};
use names::fullname::short_name;
use names::name::Name;
use refs::overlay_iter::{Listing, StepError};
use refs::raw::Reference;

// The most blocks that a file may have.
pub const MOST_LISTED: u32 = 40;

// Enough for a heading, 120 lines of 756 bytes and the end.
pub const REPORT_SIZE: usize = 98304;

pub type Report = Text<REPORT_SIZE>;

fn put_target(out: &mut Report, r: &Reference)
    ensures { Adds REPORT_SIZE longest_target out.old (target_field (reference_of r.now).target) out.new }
{
    match &r.target {
        Target::Object(id) => out.put_id(id),
        Target::Symbolic(name) => {
            out.put(b"-> ");
            out.put_name(name);
        }
    }
}

fn put_short(out: &mut Report, n: &Name)
    ensures { Adds REPORT_SIZE longest out.old (short_name (content n.now)) out.new }
{
    out.put(short_name(n.as_bytes()));
}

fn put_entry(out: &mut Report, r: &Reference)
    ensures { Adds REPORT_SIZE longest_line out.old (entry_line (reference_of r.now)) out.new }
{
    out.put_name(&r.name);
    out.put(b"\t");
    put_short(out, &r.name);
    out.put(b"\t"); // before the target
    put_target(out, r);
    out.put(b"\n");
}

// A word, a number and the line's end.
fn put_numbered(out: &mut Report, word: &[u8], n: u64)
    ensures { Adds REPORT_SIZE (length word.now + most_digits + 1) out.old (word.now ++ decimal n ++ newline) out.new }
{
    out.put(word);
    out.put_number(n);
    out.put(b"\n");
}

// Kept: a number, as in refshow's put_refused, for the reason that stands there.
fn put_error(out: &mut Report, number: u32)
    ensures { Adds REPORT_SIZE longest_line out.old (error_line number) out.new }
{
    put_numbered(out, b"!\t", u64::from(number));
}

// What is written of a step's answer.
#[tactic(auto, using(crate::proofs::Puts::nothing_put))]
fn put_answer(out: &mut Report, answer: &Result<Option<Reference>, StepError>)
    ensures { Adds REPORT_SIZE longest_line out.old (answer_line (step_answer answer.now)) out.new }
{
    match answer {
        Ok(Some(r)) => put_entry(out, r),
        Ok(None) => {}
        Err(why) => put_error(out, u32::from(*why)),
    }
}

// 1 where an answer has a line, else 0.
// Kept: a number and no bool, since what is promised of the count is a sum of these.
fn weight(a: &Result<Option<Reference>, StepError>) -> u64
    ensures { result ≡ line_weight (step_answer a.now) }
{
    match a {
        Ok(Some(_)) | Err(_) => 1,
        Ok(None) => 0,
    }
}

// Puts the lines of so many steps of a listing, and counts them.
fn put_lines(out: &mut Report, s: Snapshot<'_>, mut listing: Listing, steps: usize) -> u64
    ensures text { Adds REPORT_SIZE (steps * longest_line) out.old (answer_lines (run id_width (snapshot_of s.entry) steps (state_of listing)).answers) out.new }
    ensures counted { result ≡ line_count (run id_width (snapshot_of s.entry) steps (state_of listing)).answers }
{
    let mut count: u64 = 0;
    for _ in 0..steps {
        let answer = listing.step(s);
        put_answer(out, &answer);
        count += weight(&answer);
    }
    count
}

// The lines of a listing without a namespace, and the end.
fn put_listing(out: &mut Report, s: Snapshot<'_>)
    ensures { Adds REPORT_SIZE (block_total (snapshot_of s.entry) * longest_line + longest_end) out.old (listed_text (listed_answers (snapshot_of s.entry))) out.new }
{
    match Listing::open(s, None) {
        Ok(listing) => {
            let common = s.common_or_empty();
            let steps = s.worktree.len() / BLOCK_SIZE
                + common.len() / BLOCK_SIZE
                + s.packed.len() / BLOCK_SIZE;
            let count = put_lines(out, s, listing, steps);
            put_numbered(out, b"end\t", count);
        }
        Err(_) => put_numbered(out, b"end\t", 0),
    }
}

// The heading and why the sizes are refused, in place of what `refused` held.
fn put_refusal(refused: &mut Report, why: SizeError)
    ensures { refused.new ≡ heading ++ error_line (size_number why) }
{
    refused.clear();
    refused.put(b"full\tshort\ttarget\n");
    put_error(refused, u32::from(why));
}

// What is written of files whose sizes alone are refused, in place of what `out` held: nothing where they are right. Whether they are
// refused.
#[tactic(auto, unfolding(crate::specs::Reflist::files_check))]
pub fn put_size_report(out: &mut Report, sizes: Sizes) -> bool
    ensures text { out.new ≡ size_report (files_check sizes.worktree sizes.common sizes.packed) }
    ensures refused { IsTrue result ↔ IsSome (files_check sizes.worktree sizes.common sizes.packed) }
{
    match sizes.check(MOST_LISTED) {
        Ok(()) => {
            out.clear(); // nothing is told
            false
        }
        Err(why) => {
            put_refusal(out, why);
            true
        }
    }
}

// The same, by value. The sizes are looked at first, since a text that is begun writes its whole room, as None does.
#[tactic(auto, unfolding(crate::specs::Reflist::files_check))]
pub fn size_report(sizes: Sizes) -> Option<Report>
    ensures text { or_empty result ≡ size_report (files_check sizes.worktree sizes.common sizes.packed) }
    ensures refused { IsSome result ↔ IsSome (files_check sizes.worktree sizes.common sizes.packed) }
{
    sizes.check(MOST_LISTED).err()?;
    let mut out = Text::new();
    put_size_report(&mut out, sizes);
    Some(out)
}

// What is written of the files' bytes, in place of what `out` held.
pub fn put_report(out: &mut Report, s: Snapshot<'_>)
    ensures { out.new ≡ report id_width (snapshot_of s.entry) }
{
    match s.sizes().check(MOST_LISTED) {
        Ok(()) => {
            out.clear(); // before the heading
            out.put(b"full\tshort\ttarget\n");
            put_listing(out, s);
        }
        Err(why) => put_refusal(out, why),
    }
}

// The same, by value.
pub fn report(s: Snapshot<'_>) -> Report
    ensures { result ≡ report id_width (snapshot_of s.entry) }
{
    let mut out = Text::new();
    put_report(&mut out, s);
    out
}
