// Lines, each obeyed or answered when it is whole.
use crate::answers::Pending;
use crate::input::fields_of;
use crate::kept::Kept;
use crate::question::{Question, Rooms};
use arrayvec::ArrayVec;
use std::io::Write as _;

// One byte more than the longest line that is answered, which has 131,072. No line of a right shape is longer, unless its numbers
// have many zeros in front.
const TOO_LONG: usize = 131073;

// What is set, and room for what a line asks.
#[derive(Drop)]
struct Asked {
    kept: Kept,
    rooms: Rooms,
}

impl Asked {
    // Empty lines and those that begin with # are passed over.
    fn answer(&mut self, line: &[u8], out: &mut Pending<'_, impl Print>) {
        match line.first() {
            None | Some(b'#') => (),
            Some(_) => {
                if self.obey(line, out).is_none() {
                    out.put_line(b"?");
                }
            }
        }
    }

    // None where the line has no right shape, or is too long.
    fn obey(&mut self, line: &[u8], out: &mut Pending<'_, impl Print>) -> Option<()> {
        if line.len() == TOO_LONG {
            return None;
        }
        let fields = fields_of(line)?;
        if self.kept.set(&fields).is_none() {
            out.put_answer(Question::parse(&fields, &mut self.rooms)?, &self.kept);
        }
        Some(())
    }
}

// Beside that the line that is not whole yet.
#[derive(Drop)]
pub(crate) struct Replay {
    asked: Asked,
    line: ArrayVec<u8, TOO_LONG>,
}

impl Replay {
    pub(crate) fn new() -> Replay {
        let asked = Asked {
            kept: Kept::new(),
            rooms: Rooms::new(),
        };
        Replay {
            asked,
            line: ArrayVec::new(),
        }
    }

    // Answers the lines that end in what was read, and keeps the rest. A line that was read whole is answered where it stands.
    pub(crate) fn take(&mut self, read: &[u8], out: &mut Pending<'_, impl Print>) {
        for part in read.split_inclusive(|b| *b == b'\n') {
            match part.strip_suffix(b"\n") {
                Some(line) if self.line.is_empty() => self.asked.answer(line, out),
                Some(end) => {
                    self.gather(end);
                    self.asked.answer(&self.line, out);
                    self.line.clear();
                }
                None => self.gather(part),
            }
        }
    }

    // What finds no room makes the line too long, whatever it is.
    fn gather(&mut self, s: &[u8]) {
        let _ = self.line.write(s);
    }
}
