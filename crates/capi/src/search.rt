// Fitness, search and following.
ghost use Rattle.std.specs.Prelude.{◌≡◌, option_copied};
ghost use Rattle.blocks.specs.Means.{id_width, snapshot_of};
ghost use Rattle.refs.specs.Means.{followed_of};
ghost use Rattle.refs.specs.Search.{find};
ghost use Rattle.refs.specs.Follow.{follow};
ghost use Rattle.capi.specs.Report.{result_report, searched_report, followed_report, fitness_report};
ghost use Rattle.capi.specs.Output.{Given};
ghost use Rattle.capi.specs.Promises.{report_of};

use crate::report::{DONE, NOTHING, REPORT_SIZE, Report, Shown, TOO_SHORT};
use blocks::snapshot::Snapshot;
use refs::check::check_fit;
use refs::find::{FindError, find};
use refs::raw_ext::{Trail, follow};

// How far following led.
impl<'a> From<&'a Result<Option<Trail>, FindError>> for Report<'a> {
    ghost from_gives = { λ trail r. report_of r ≡ result_report followed_report (followed_of trail.now) };

    fn from(trail: &'a Result<Option<Trail>, FindError>) -> Report<'a> {
        match trail {
            Ok(Some(t)) => {
                let number = t.end.err().map_or(DONE, u32::from);
                Report::Reference(number, Shown::from(&t.last))
            }
            Ok(None) => Report::Number(NOTHING),
            Err(e) => (*e).into(),
        }
    }
}

// Fitness for search: 0, or 1, 2 and 6 to 8.
// Kept: the three calls differ in what they ask: a helper would take that as a closure and its clause, longer than this test of the length.
pub fn cosvint_fitness(s: Snapshot<'_>, out: &mut [u8]) -> u32
    ensures { Given (fitness_report (snapshot_of s.entry)) out.old out.new result }
{
    if out.len() < REPORT_SIZE {
        return TOO_SHORT;
    }
    Report::from(check_fit(s)).put(out)
}

// Search: 0 where a reference is found, 100 where it is not there, else 1 to 12.
pub fn cosvint_find(s: Snapshot<'_>, name: &[u8], namespace: Option<&[u8]>, out: &mut [u8]) -> u32
    ensures { Given (result_report searched_report (find id_width (snapshot_of s.entry) name.now (option_copied namespace.entry))) out.old out.new result }
{
    if out.len() < REPORT_SIZE {
        return TOO_SHORT;
    }
    Report::from(&find(s, name, namespace)).put(out)
}

// Following: 0 where an id is reached, 100 where the name is not there, else 1 to 15.
pub fn cosvint_follow(s: Snapshot<'_>, name: &[u8], namespace: Option<&[u8]>, out: &mut [u8]) -> u32
    ensures { Given (result_report followed_report (follow id_width (snapshot_of s.entry) name.now (option_copied namespace.entry))) out.old out.new result }
{
    if out.len() < REPORT_SIZE {
        return TOO_SHORT;
    }
    Report::from(&follow(s, name, namespace)).put(out)
}
