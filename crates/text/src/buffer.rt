// Text of bounded size, put together piece by piece.
ghost use Rattle.std.specs.Prelude.{◌≡◌, ◌≤◌, [], length};
ghost use Rattle.names.specs.Name.{longest};
ghost use Rattle.names.specs.Means.{content};
ghost use Rattle.blocks.specs.Means.{id_width};
ghost use Rattle.text.specs.Text.{decimal};
ghost use Rattle.text.specs.Promises.{Adds, most_digits};

use arrayvec::ArrayVec;
use blocks::parse::Id;
use names::name::Name;
use std::marker::Model;

// Text of at most `N` bytes, which lie in the value itself. A piece that finds no room is left out: that none is, a program's text
// promises by being equal to its definition.
// Kept: no Display, since it writes `str` alone, and a name may hold bytes that are no UTF-8 text.
#[derive(Drop)]
pub struct Text<const N: usize> {
    bytes: ArrayVec<u8, N>,
}

impl<const N: usize> Model for Text<N> {
    ghost use Rattle.std.specs.Prelude.{ℕ, List};

    ghost Value = { List ℕ };

    ghost view = { λ t. t.bytes.items };
}

impl<const N: usize> Text<N> {
    pub fn new() -> Self
        ensures { result ≡ [] }
    {
        Text {
            bytes: ArrayVec::new(),
        }
    }

    pub fn as_bytes(&self) -> &[u8]
        ensures bytes { result.now ≡ self.now }
        ensures within { length result.now ≤ N }
    {
        self.bytes.as_slice()
    }

    pub(crate) fn clear(&mut self)
        ensures { self.new ≡ [] }
    {
        self.bytes.clear();
    }

    pub(crate) fn put(&mut self, s: &[u8])
        ensures { Adds N (length s.now) self.old s.now self.new }
    {
        let _ = self.bytes.try_extend_from_slice(s);
    }

    #[tactic(auto, using(crate::proofs::Puts::wider))]
    pub(crate) fn put_name(&mut self, n: &Name)
        ensures { Adds N longest self.old (content n.now) self.new }
    {
        self.put(n.as_bytes());
    }

    pub(crate) fn put_id(&mut self, id: &Id)
        ensures { Adds N id_width self.old id.now.digits self.new }
    {
        self.put(&id.digits);
    }

    pub(crate) fn put_number(&mut self, n: u64)
        ensures { Adds N most_digits self.old (decimal n) self.new }
    {
        let mut digits = itoa::Buffer::new();
        self.put(digits.format(n).as_bytes());
    }
}
