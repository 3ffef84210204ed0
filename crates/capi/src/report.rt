// Reports: the number, a block's place and a reference, at fixed places of an output.
ghost use Rattle.std.specs.Prelude.{◌≡◌, ◌++◌, replicate};
ghost use Rattle.blocks.specs.Means.{region_of};
ghost use Rattle.refs.specs.Answer.{strip_reference};
ghost use Rattle.refs.specs.Means.{fit_gives, found_of, parts_of, reference_of};
ghost use Rattle.capi.specs.Report.{region_number, answer_report, passed_report, result_report};
ghost use Rattle.capi.specs.Layout.{word, kind_number, object_id, target_name, peeled_id, reference_at, reference_size, reference_bytes};
ghost use Rattle.capi.specs.Promises.{Wrote, Reported, shown, report_of, turned_report, refused_report};

use crate::layout::{WORD_SIZE, put_padded, put_word};
use blocks::block::Region;
use blocks::decode::{Target, TargetRef};
use blocks::fitness::Unfit;
use blocks::parse::{ID_WIDTH, Id, id_of};
use names::bytes::without;
use names::name::LONGEST;
use output::clear;
use refs::check::CallError;
use refs::find::FindError;
use refs::raw::{Parts, Reference};

// What was asked is done: accepted, fit, found, reached or handed out.
// Kept: the C interface answers by numbers.
pub const DONE: u32 = 0;

// "Not there" and "ended", and an output that is too short: document 01 has no numbers for them.
pub const NOTHING: u32 = 100;

pub const TOO_SHORT: u32 = 101;

// Where each field of a report begins.
// Kept: the C interface hands a report to the caller, as bytes at fixed places.
const NUMBER_AT: usize = 0;

const REGION_AT: usize = NUMBER_AT + WORD_SIZE;

const BLOCK_AT: usize = REGION_AT + WORD_SIZE;

const KIND_AT: usize = BLOCK_AT + WORD_SIZE;

const HAS_PEELED_AT: usize = KIND_AT + WORD_SIZE;

const NAME_LENGTH_AT: usize = HAS_PEELED_AT + WORD_SIZE;

const TARGET_LENGTH_AT: usize = NAME_LENGTH_AT + WORD_SIZE;

const ID_AT: usize = TARGET_LENGTH_AT + WORD_SIZE;

const PEELED_AT: usize = ID_AT + ID_WIDTH;

const NAME_AT: usize = PEELED_AT + ID_WIDTH;

const TARGET_AT: usize = NAME_AT + LONGEST;

pub const REPORT_SIZE: usize = TARGET_AT + LONGEST;

const REFERENCE_SIZE: usize = REPORT_SIZE - KIND_AT;

// Kept: the C interface has regions by number.
fn region_number(region: Region) -> u64
    ensures { result ≡ region_number (region_of region) }
{
    match region {
        Region::Worktree => 1,
        Region::Common => 2,
        Region::Packed => 3,
    }
}

// The target of a reference that is reported: the id of an object, or another reference's name.
// Kept: Target holds its id and name, TargetRef lends both, and this holds the id alone; a generic one would bring two type arguments into each clause.
#[derive(Clone, Copy)]
pub(crate) enum Aim<'a> {
    Object(Id),
    Symbolic(&'a [u8]),
}

// A reference that is reported.
// Kept: Parts lends ids as the block has them, and a report holds them in lower case; Reference holds its names too, which would be copied.
#[derive(Clone, Copy)]
pub(crate) struct Shown<'a> {
    name: &'a [u8],
    target: Aim<'a>,
    peeled: Option<Id>,
}

impl<'a> From<&'a Reference> for Shown<'a> {
    ghost from_gives = { λ r q. shown q ≡ reference_of r.now };

    fn from(r: &'a Reference) -> Shown<'a> {
        Shown {
            name: r.name.as_bytes(),
            target: match &r.target {
                Target::Object(id) => Aim::Object(*id),
                Target::Symbolic(name) => Aim::Symbolic(name.as_bytes()),
            },
            peeled: r.peeled,
        }
    }
}

impl<'a> Shown<'a> {
    // The reference of a block, without the namespace's expansion e in front of its names.
    pub(crate) fn without(p: Parts<'a>, e: &[u8]) -> Shown<'a>
        ensures { shown result ≡ strip_reference e.now (parts_of p.entry) }
    {
        Shown {
            name: without(p.name, e),
            target: match p.target {
                TargetRef::Object(id) => Aim::Object(id_of(id)),
                TargetRef::Symbolic(name) => Aim::Symbolic(without(name, e)),
            },
            peeled: p.peeled.map(id_of),
        }
    }

    // 1 for an object, 2 for a symbolic target; 0 is no reference.
    // Kept: the C interface has kinds by number.
    fn kind(&self) -> u64
        ensures { result ≡ kind_number (shown self.now).target }
    {
        match self.target {
            Aim::Object(_) => 1,
            Aim::Symbolic(_) => 2,
        }
    }

    // The id of an object, else none.
    fn id(&self) -> &[u8]
        ensures { result.now ≡ object_id (shown self.now).target }
    {
        match &self.target {
            Aim::Object(id) => &id.digits,
            Aim::Symbolic(_) => &[],
        }
    }

    // The name of a symbolic target, else none.
    fn target_name(&self) -> &'a [u8]
        ensures { result.now ≡ target_name (shown self.now).target }
    {
        match self.target {
            Aim::Object(_) => &[],
            Aim::Symbolic(name) => name,
        }
    }

    // The peeled id, if there is one.
    fn peeled_id(&self) -> &[u8]
        ensures { result.now ≡ peeled_id (shown self.now).peeled }
    {
        match &self.peeled {
            Some(id) => &id.digits,
            None => &[],
        }
    }

    fn put(&self, out: &mut [u8])
        ensures { Wrote out.old reference_at (reference_bytes (shown self.now)) out.new }
    {
        let target = self.target_name();
        put_word(out, KIND_AT, self.kind());
        put_word(out, HAS_PEELED_AT, u64::from(self.peeled.is_some()));
        put_word(out, NAME_LENGTH_AT, self.name.len() as u64);
        put_word(out, TARGET_LENGTH_AT, target.len() as u64);
        put_padded(out, ID_AT, ID_WIDTH, self.id());
        put_padded(out, PEELED_AT, ID_WIDTH, self.peeled_id());
        put_padded(out, NAME_AT, LONGEST, self.name);
        put_padded(out, TARGET_AT, LONGEST, target);
    }
}

// What a call reports: a number, by itself or with a reference; or the first block that is unfit for search, 6 to 8.
#[derive(Clone, Copy)]
pub(crate) enum Report<'a> {
    Number(u32),
    Reference(u32, Shown<'a>),
    Unfit(Unfit),
}

// The check that turned a call away.
impl<'a> From<CallError> for Report<'a> {
    ghost from_gives = { λ e r. report_of r ≡ turned_report e };

    fn from(e: CallError) -> Report<'a> {
        match e {
            CallError::Sizes(why) => Report::Number(why.into()),
            CallError::Names(why) => Report::Number(why.into()),
            CallError::Unfit(flaw) => Report::Unfit(flaw),
        }
    }
}

// A call that answers no more than that its checks passed.
impl<'a> From<Result<(), CallError>> for Report<'a> {
    ghost from_gives = { λ passed r. report_of r ≡ result_report passed_report (fit_gives passed) };

    fn from(passed: Result<(), CallError>) -> Report<'a> {
        match passed {
            Ok(()) => Report::Number(DONE),
            Err(e) => e.into(),
        }
    }
}

impl<'a> From<FindError> for Report<'a> {
    ghost from_gives = { λ e r. report_of r ≡ refused_report e };

    fn from(e: FindError) -> Report<'a> {
        match e {
            FindError::Call(e) => e.into(),
            FindError::Entry(why) => Report::Number(why.into()),
        }
    }
}

// What a search found.
impl<'a> From<&'a Result<Option<Reference>, FindError>> for Report<'a> {
    ghost from_gives = { λ found r. report_of r ≡ result_report answer_report (found_of found.now) };

    fn from(found: &'a Result<Option<Reference>, FindError>) -> Report<'a> {
        match found {
            Ok(Some(r)) => Report::Reference(DONE, r.into()),
            Ok(None) => Report::Number(NOTHING),
            Err(e) => (*e).into(),
        }
    }
}

// The numbers in front of the reference.
fn put_place(out: &mut [u8], number: u32, region: u64, block: usize)
    ensures { Wrote out.old 0 (word number ++ word region ++ word block) out.new }
{
    put_word(out, NUMBER_AT, u64::from(number));
    put_word(out, REGION_AT, region);
    put_word(out, BLOCK_AT, block as u64);
}

fn put_no_reference(out: &mut [u8])
    ensures { Wrote out.old reference_at (replicate reference_size 0) out.new }
{
    clear(out, KIND_AT, REFERENCE_SIZE);
}

impl<'a> Report<'a> {
    // Writes it at the front of an output, and answers its number.
    pub(crate) fn put(&self, out: &mut [u8]) -> u32
        ensures { Reported out.old (report_of self.now) out.new result }
    {
        match self {
            Report::Number(number) => {
                put_place(out, *number, 0, 0);
                put_no_reference(out);
                *number
            }
            Report::Reference(number, reference) => {
                put_place(out, *number, 0, 0);
                reference.put(out);
                *number
            }
            Report::Unfit(flaw) => {
                let number = u32::from(flaw.reason);
                put_place(out, number, region_number(flaw.region), flaw.block);
                put_no_reference(out);
                number
            }
        }
    }
}
