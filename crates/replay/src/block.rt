// What a block holds.
use crate::answers::Pending;
use blocks::block::{Entry, Region, block_content, entry_at};
use blocks::parse::{id_of, second_id_of};

impl<P: Print> Pending<'_, P> {
    pub(crate) fn put_block(&mut self, region: Region, block: &[u8]) {
        match entry_at(block, region, 0) {
            None => self.put(b"?"),
            Some(Entry::Damaged) => self.put(b"damaged"),
            Some(Entry::Failed) => self.put(b"error"),
            Some(Entry::Loose { name, content }) => {
                self.put(b"loose");
                self.put_bytes(name);
                self.put_bytes(content);
            }
            Some(Entry::Unread { name }) => {
                self.put(b"unreadable");
                self.put_bytes(name);
            }
            Some(
                Entry::Record {
                    name,
                    target,
                    peeled,
                },
            ) => {
                self.put(b"packed");
                self.put_bytes(name);
                self.put_id(&id_of(target));
                self.put_peeled(peeled.map(|_| second_id_of(block_content(block, 0))));
            }
        }
    }
}
