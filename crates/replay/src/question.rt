// What a line asks.
use crate::input::{Bytes, lend_bytes, lend_optional, read_number};
use blocks::block::{BLOCK_SIZE, LONGEST_CONTENT, Region};
use names::fullname::Category;
use refs::overlay_iter::Positions;

#[derive(Clone, Copy)]
pub(crate) enum Question<'a> {
    WellFormed(&'a [u8]),
    Complete(&'a [u8]),
    Pseudo(&'a [u8]),
    Order(&'a [u8], &'a [u8]),
    Category(&'a [u8]),
    FullName {
        category: Category<'a>,
        short: &'a [u8],
    },
    Expand(&'a [u8]),
    Strip {
        front: &'a [u8],
        name: &'a [u8],
    },
    Decode(&'a [u8]),
    Block {
        region: Region,
        block: &'a [u8],
    },
    Fit,
    Find(&'a [u8]),
    Follow(&'a [u8]),
    List(usize),
    Step(Positions),
}

// Room for the byte strings of a question.
#[derive(Drop)]
pub(crate) struct Rooms {
    first: Bytes,
    second: Bytes,
}

impl Rooms {
    pub(crate) fn new() -> Rooms {
        Rooms {
            first: Bytes::new(),
            second: Bytes::new(),
        }
    }
}

impl<'a> Question<'a> {
    // None where the line has no right shape.
    pub(crate) fn parse(fields: &[&[u8]], rooms: &'a mut Rooms) -> Option<Question<'a>> {
        let Rooms { first, second } = rooms;
        match *fields {
            [b"fit"] => Some(Question::Fit),
            [b"list", count] => Some(Question::List(read_number(count)?)),
            [word, s] => of_one(word, lend_bytes(s, first)?),
            [b"block", region, s] => of_block(region, lend_bytes(s, first)?),
            [word, s, t] => { of_two(word, lend_bytes(s, first)?, lend_bytes(t, second)?) }
            [b"fullname", category, worktree, short] => of_short(
                category,
                lend_optional(worktree, first)?,
                lend_bytes(short, second)?,
            ),
            [b"step", worktree, common, packed] => Some(Question::Step(Positions {
                worktree: read_number(worktree)?,
                common: read_number(common)?,
                packed: read_number(packed)?,
            })),
            _ => None,
        }
    }
}

fn of_one<'a>(word: &[u8], s: &'a [u8]) -> Option<Question<'a>> {
    match word {
        b"wellformed" => Some(Question::WellFormed(s)),
        b"complete" => Some(Question::Complete(s)),
        b"pseudo" => Some(Question::Pseudo(s)),
        b"category" => Some(Question::Category(s)),
        b"expand" => Some(Question::Expand(s)),
        b"decode" if s.len() <= LONGEST_CONTENT => Some(Question::Decode(s)),
        b"find" => Some(Question::Find(s)),
        b"follow" => Some(Question::Follow(s)),
        _ => None,
    }
}

fn of_two<'a>(word: &[u8], s: &'a [u8], t: &'a [u8]) -> Option<Question<'a>> {
    match word {
        b"order" => Some(Question::Order(s, t)),
        b"strip" => Some(Question::Strip { front: s, name: t }),
        _ => None,
    }
}

fn of_block<'a>(region: &[u8], block: &'a [u8]) -> Option<Question<'a>> {
    if block.len() != BLOCK_SIZE {
        return None;
    }
    match region {
        b"loose" => Some(Question::Block {
            region: Region::Worktree,
            block,
        }),
        b"packed" => Some(Question::Block {
            region: Region::Packed,
            block,
        }),
        _ => None,
    }
}

// The full name of a short one.
fn of_short<'a>(
    category: &[u8],
    worktree: Option<&'a [u8]>,
    short: &'a [u8],
) -> Option<Question<'a>> {
    Some(Question::FullName {
        category: read_category(category, worktree)?,
        short,
    })
}

// The linked categories need a worktree's name; the others pass over it.
fn read_category<'a>(word: &[u8], worktree: Option<&'a [u8]>) -> Option<Category<'a>> {
    match word {
        b"Tag" => Some(Category::Tag),
        b"LocalBranch" => Some(Category::LocalBranch),
        b"RemoteBranch" => Some(Category::RemoteBranch),
        b"Note" => Some(Category::Note),
        b"PseudoRef" => Some(Category::PseudoRef),
        b"MainPseudoRef" => Some(Category::MainPseudoRef),
        b"MainRef" => Some(Category::MainRef),
        b"LinkedPseudoRef" => Some(Category::LinkedPseudoRef { name: worktree? }),
        b"LinkedRef" => Some(Category::LinkedRef { name: worktree? }),
        b"Bisect" => Some(Category::Bisect),
        b"Rewritten" => Some(Category::Rewritten),
        b"WorktreePrivate" => Some(Category::WorktreePrivate),
        _ => None,
    }
}
