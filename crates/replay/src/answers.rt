// Answers wait here, and are written where no more of them fit.
ghost use Rattle.std.specs.Prelude.{◌<◌};

use arrayvec::ArrayVec;
use blocks::parse::Id;
use itoa::Buffer;
use names::name::Name;

const ROOM: usize = 65536;

const DIGITS: &[u8; 16] = b"0123456789abcdef";

// What waits, and what it is written to.
// Kept: a BufWriter by hand, since std's holds a Vec (no heap); and no trait with text's Text, which puts bytes as they are, not hex behind a space.
#[derive(Drop)]
pub(crate) struct Pending<'a, P: Print> {
    waiting: ArrayVec<u8, ROOM>,
    to: &'a P,
}

impl<'a, P: Print> Pending<'a, P> {
    pub(crate) fn new(to: &'a P) -> Self {
        Pending {
            waiting: ArrayVec::new(),
            to,
        }
    }

    // A reader that went away is no matter here: what it does not take is dropped.
    pub(crate) fn flush(&mut self) {
        let _ = self.to.write_all(&self.waiting);
        self.waiting.clear();
    }

    // The room is filled to its end before it is written.
    pub(crate) fn put(&mut self, s: &[u8]) {
        let (fits, more) = s.split_at(s.len().min(self.waiting.remaining_capacity()));
        let _ = self.waiting.try_extend_from_slice(fits);
        for part in more.chunks(ROOM) {
            self.flush();
            let _ = self.waiting.try_extend_from_slice(part);
        }
    }

    pub(crate) fn put_line(&mut self, s: &[u8]) {
        self.put(s);
        self.put(b"\n");
    }

    // A byte string, behind a space.
    // Kept: hex fills a slice of twice the length, so byte by byte (no heap) it is as long, with a Result to pass over.
    pub(crate) fn put_bytes(&mut self, s: &[u8]) {
        self.put(b" ");
        if s.is_empty() {
            self.put(b"-");
        }
        for b in s {
            let pair = [DIGITS[usize::from(*b / 16)], DIGITS[usize::from(*b % 16)]];
            self.put(&pair);
        }
    }

    pub(crate) fn put_name(&mut self, name: &Name) {
        self.put_bytes(name.as_bytes());
    }

    // An id, behind a space.
    pub(crate) fn put_id(&mut self, id: &Id) {
        self.put(b" ");
        self.put(&id.digits);
    }

    pub(crate) fn put_peeled(&mut self, peeled: Option<Id>) {
        match peeled {
            Some(id) => self.put_id(&id),
            None => self.put(b" ~"),
        }
    }

    // A number, behind a space.
    pub(crate) fn put_number(&mut self, x: usize) {
        let mut text = Buffer::new();
        self.put(b" ");
        self.put(text.format(x).as_bytes());
    }

    // A refusal by its number.
    pub(crate) fn put_refused(&mut self, why: impl Into<u32>) {
        let number: u32 = why.into();
        self.put(b"refused");
        self.put_number(number as usize);
    }
}
