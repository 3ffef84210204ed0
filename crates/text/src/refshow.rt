// The text of `refshow`: the id and the last reference reached, `not there`, or a refusal in words.
ghost use Rattle.std.specs.Prelude.{◌≡◌, ◌++◌, ◌≤◌, ◌↔◌, length, IsSome, IsTrue};
ghost use Rattle.std.specs.Option.{option_copied};
ghost use Rattle.names.specs.Bytes.{bytes};
ghost use Rattle.names.specs.Means.{content};
ghost use Rattle.blocks.specs.Snapshot.{or_empty};
ghost use Rattle.blocks.specs.Means.{id_width, region_of, snapshot_of, flaw_in};
ghost use Rattle.refs.specs.Follow.{follow};
ghost use Rattle.refs.specs.Search.{unfit};
ghost use Rattle.refs.specs.Means.{turned_back, trail_of};
ghost use Rattle.text.specs.Text.{tab, newline, decimal};
ghost use Rattle.text.specs.Reflist.{files_check};
ghost use Rattle.text.specs.Refshow.{words, refused_line, region_word, followed_text, show_text, size_show};
ghost use Rattle.text.specs.Promises.{Adds, longest_words, longest_refused, longest_unfit};

use crate::buffer::Text;
use crate::reflist::MOST_LISTED;
use blocks::block::Region;
use blocks::fitness::Unfit;
use blocks::parse::Id;
use blocks::snapshot::{Sizes, Snapshot};
use names::name::Name;
use refs::check::CallError;
use refs::find::FindError;
use refs::raw_ext::{Trail, follow};

// Enough for every answer.
pub const SHOW_SIZE: usize = 1024;

pub type Shown = Text<SHOW_SIZE>;

// What a number means and what to look at. The numbers of refusals are 1 to 15.
// Kept: takes the number, since the words have one source by number (docs/REFUSALS.md) and the numbers come from enums of three crates.
#[tactic(auto, unfolding(crate::specs::Refshow::words))]
fn words(number: u32) -> &'static [u8]
    ensures text { result.now ≡ words number }
    ensures short { length result.now ≤ longest_words }
{
    match number {
        1 => {
            b"a region's size is not a multiple of 512 bytes; look at whether the file was copied whole"
        }
        2 => {
            b"a region has more than 4,096 blocks, or 40 for the programs; look at how many references the repository has, and whether the file is a snapshot"
        }
        3 => { b"a name or a namespace is longer than 250 bytes; look at what was typed or passed" }
        4 => {
            b"a name or a namespace is not one that git allows; look at what was typed: two dots, a space, a slash at an end, `.lock`, and the like"
        }
        5 => {
            b"a namespace grows to more than 250 bytes where it is written out; look at the namespace: a shorter one is needed"
        }
        6 => {
            b"a block is damaged: its sum, its lengths or its kind are wrong; look at the block that is told, and make the snapshot anew"
        }
        7 => {
            b"a block says that a directory or packed-refs could not be read; look at the disc and the permissions where the snapshot was made"
        }
        8 => {
            b"a name is not above the one before it in its region; look at how the snapshot was made: names must rise"
        }
        9 => {
            b"a reference's file was there and could not be read; look at the permissions of that file where the snapshot was made"
        }
        10 => {
            b"a reference's file holds neither an id nor `ref: ` and a name; look at the file: it may be cut short or hold something else"
        }
        11 => {
            b"a symbolic reference names something that is no reference's name; look at the file's text behind `ref: `"
        }
        12 => {
            b"the repository keeps its references in another way (reftable); look at how it keeps them: this reader can't serve it"
        }
        13 => {
            b"a symbolic reference leads to a name that is not there; look at the last reference reached, and its target"
        }
        14 => {
            b"symbolic references lead back to a name that was passed; look at the last reference reached: the chain runs in a circle"
        }
        15 => {
            b"a chain of symbolic references passes five names; look at the last reference reached: shorten the chain"
        }
        _ => b"",
    }
}

// The line of a refusal.
// Kept: a number here and in all that call it, since `Into` promises a relation, and each equation would become an existence.
fn put_refused(out: &mut Shown, number: u32)
    ensures { Adds SHOW_SIZE longest_refused out.old (refused_line number) out.new }
{
    out.put(b"refused ");
    out.put_number(u64::from(number));
    out.put(b": ");
    out.put(words(number));
    out.put(b"\n");
}

// The file of a region is named after it.
fn region_word(region: Region) -> &'static [u8]
    ensures text { result.now ≡ region_word (region_of region) }
    ensures short { length result.now ≤ 8 }
{
    match region {
        Region::Worktree => b"worktree",
        Region::Common => b"common",
        Region::Packed => b"packed",
    }
}

// The file and the block of 6 to 8.
fn put_unfit(out: &mut Shown, region: Region, block: usize)
    ensures { Adds SHOW_SIZE longest_unfit out.old (bytes "in " ++ region_word (region_of region) ++ bytes ".blk, block " ++ decimal block ++ newline) out.new }
{
    out.put(b"in ");
    out.put(region_word(region));
    out.put(b".blk, block ");
    out.put_number(block as u64);
    out.put(b"\n");
}

// Here and below what is put stands in place of what `out` held.
fn put_reached(out: &mut Shown, id: &Id, last: &Name)
    ensures { out.new ≡ id.now.digits ++ tab ++ content last.now ++ newline }
{
    out.clear();
    out.put_id(id);
    out.put(b"\t");
    out.put_name(last);
    out.put(b"\n");
}

fn put_stopped(out: &mut Shown, number: u32, last: &Name)
    ensures { out.new ≡ refused_line number ++ bytes "last reference reached: " ++ content last.now ++ newline }
{
    out.clear();
    put_refused(out, number);
    out.put(b"last reference reached: ");
    out.put_name(last);
    out.put(b"\n");
}

// A refusal that has nothing beside its number.
fn put_alone(lone: &mut Shown, number: u32)
    ensures { lone.new ≡ refused_line number }
{
    lone.clear();
    put_refused(lone, number);
}

// A flaw of a region, 6 to 8, and where it is.
fn put_flaw(out: &mut Shown, found: Unfit)
    ensures { out.new ≡ show_text (unfit (flaw_in found)) }
{
    let Unfit {
        reason,
        region,
        block,
    } = found;
    out.clear();
    put_refused(out, u32::from(reason));
    put_unfit(out, region, block);
}

fn put_not_there(out: &mut Shown)
    ensures { out.new ≡ bytes "not there" ++ newline }
{
    out.clear();
    out.put(b"not there\n");
}

// A call that is turned away.
fn put_turned_away(out: &mut Shown, why: CallError)
    ensures { out.new ≡ show_text (turned_back why) }
{
    match why {
        CallError::Sizes(why) => put_alone(out, u32::from(why)),
        CallError::Names(why) => put_alone(out, u32::from(why)),
        CallError::Unfit(found) => put_flaw(out, found),
    }
}

// How far following leads.
fn put_followed(out: &mut Shown, t: &Trail)
    ensures { out.new ≡ followed_text (trail_of t.now) }
{
    let last = &t.last.name;
    match t.end {
        Ok(id) => put_reached(out, &id, last),
        Err(why) => put_stopped(out, u32::from(why), last),
    }
}

// What is written of files whose sizes alone are refused: nothing where they are right. Whether they are refused.
#[tactic(auto, unfolding(crate::specs::Reflist::files_check))]
pub fn put_size_show(out: &mut Shown, sizes: Sizes) -> bool
    ensures text { out.new ≡ size_show (files_check sizes.worktree sizes.common sizes.packed) }
    ensures refused { IsTrue result ↔ IsSome (files_check sizes.worktree sizes.common sizes.packed) }
{
    match sizes.check(MOST_LISTED) {
        Ok(()) => {
            out.clear(); // nothing is told
            false
        }
        Err(why) => {
            put_alone(out, u32::from(why));
            true
        }
    }
}

// The same, by value. The sizes are looked at first, since a text that is begun writes its whole room, as None does.
#[tactic(auto, unfolding(crate::specs::Reflist::files_check))]
pub fn size_show(sizes: Sizes) -> Option<Shown>
    ensures text { or_empty result ≡ size_show (files_check sizes.worktree sizes.common sizes.packed) }
    ensures refused { IsSome result ↔ IsSome (files_check sizes.worktree sizes.common sizes.packed) }
{
    sizes.check(MOST_LISTED).err()?;
    let mut out = Text::new();
    put_size_show(&mut out, sizes);
    Some(out)
}

// Which commit a name leads to, in words.
pub fn put_show(out: &mut Shown, s: Snapshot<'_>, name: &[u8], namespace: Option<&[u8]>)
    ensures { out.new ≡ show_text (follow id_width (snapshot_of s.entry) name.now (option_copied namespace.entry)) }
{
    match follow(s, name, namespace) {
        Ok(Some(trail)) => put_followed(out, &trail),
        Ok(None) => put_not_there(out),
        Err(FindError::Call(why)) => put_turned_away(out, why),
        Err(FindError::Entry(why)) => put_alone(out, u32::from(why)),
    }
}

// The same, by value.
pub fn show(s: Snapshot<'_>, name: &[u8], namespace: Option<&[u8]>) -> Shown
    ensures { result ≡ show_text (follow id_width (snapshot_of s.entry) name.now (option_copied namespace.entry)) }
{
    let mut out = Text::new();
    put_show(&mut out, s, name, namespace);
    out
}
