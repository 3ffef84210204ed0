// What is set, for the lines that follow.
use crate::input::{Bytes, read_bytes};
use blocks::snapshot::Snapshot;
use names::bytes::equal;

#[derive(Drop)]
pub(crate) struct Kept {
    worktree: Bytes,
    common: Room,
    packed: Bytes,
    namespace: Room,
}

impl Kept {
    // At the start the worktree is empty, and nothing else is there. An absent packed region is an empty one.
    pub(crate) fn new() -> Kept {
        Kept {
            worktree: Bytes::new(),
            common: Room::new(),
            packed: Bytes::new(),
            namespace: Room::new(),
        }
    }

    pub(crate) fn snapshot(&self) -> Snapshot<'_> {
        Snapshot {
            worktree: self.worktree.as_slice(),
            common: self.common.lent(),
            packed: self.packed.as_slice(),
        }
    }

    pub(crate) fn namespace(&self) -> Option<&[u8]> {
        self.namespace.lent()
    }

    // None where the line sets nothing.
    pub(crate) fn set(&mut self, fields: &[&[u8]]) -> Option<()> {
        match *fields {
            [b"worktree", value] => read_bytes(value, &mut self.worktree),
            [b"common", value] => self.common.set(value),
            [b"packed", b"~"] => {
                self.packed.clear();
                Some(())
            }
            [b"packed", value] => read_bytes(value, &mut self.packed),
            [b"namespace", value] => self.namespace.set(value),
            _ => None,
        }
    }
}

// A byte string, if it is there.
// Kept: no Option, whose Some and None write as many bytes as the longest byte string has, for each line that sets one.
#[derive(Drop)]
struct Room {
    there: bool,
    bytes: Bytes,
}

impl Room {
    fn new() -> Room {
        Room {
            there: false,
            bytes: Bytes::new(),
        }
    }

    fn lent(&self) -> Option<&[u8]> {
        self.there.then_some(self.bytes.as_slice())
    }

    // What a field gives that may say that there is none. Where it gives nothing, all stays as it is.
    fn set(&mut self, field: &[u8]) -> Option<()> {
        if equal(field, b"~") {
            self.there = false;
            return Some(());
        }
        read_bytes(field, &mut self.bytes)?;
        self.there = true;
        Some(())
    }
}
