// Whether the snapshot is fit for search, search and following.
use crate::answers::Pending;
use crate::kept::Kept;
use blocks::block::Region;
use blocks::decode::Target;
use blocks::snapshot::Snapshot;
use refs::check::{CallError, check_fit};
use refs::find::{FindError, find};
use refs::raw::Reference;
use refs::raw_ext::follow;

impl<P: Print> Pending<'_, P> {
    // A refusal of rows 1 to 8.
    // Kept: the words of text's `region_word`: a public function more, with its contract, is no plainer than three words.
    fn put_turned_away(&mut self, why: CallError) {
        match why {
            CallError::Sizes(why) => self.put_refused(why),
            CallError::Names(why) => self.put_refused(why),
            CallError::Unfit(unfit) => {
                self.put_refused(unfit.reason);
                self.put(match unfit.region {
                    Region::Worktree => b" worktree",
                    Region::Common => b" common",
                    Region::Packed => b" packed",
                });
                self.put_number(unfit.block);
            }
        }
    }

    fn put_not_found(&mut self, why: FindError) {
        match why {
            FindError::Call(why) => self.put_turned_away(why),
            FindError::Entry(why) => self.put_refused(why),
        }
    }

    pub(crate) fn put_fitness(&mut self, s: Snapshot<'_>) {
        match check_fit(s) {
            Ok(()) => self.put(b"fit"),
            Err(why) => self.put_turned_away(why),
        }
    }

    // A reference's name, its target and its peeled id.
    pub(crate) fn put_reference(&mut self, r: &Reference) {
        self.put_name(&r.name);
        match &r.target {
            Target::Object(id) => {
                self.put(b" object");
                self.put_id(id);
                self.put_peeled(r.peeled);
            }
            Target::Symbolic(name) => {
                self.put(b" symbolic");
                self.put_name(name);
                self.put(b" ~");
            }
        }
    }

    // Kept: beside put_following: three arms each, of which two are one word and one call.
    pub(crate) fn put_search(&mut self, kept: &Kept, name: &[u8]) {
        match find(kept.snapshot(), name, kept.namespace()) {
            Ok(Some(reference)) => {
                self.put(b"found");
                self.put_reference(&reference);
            }
            Ok(None) => self.put(b"absent"),
            Err(why) => self.put_not_found(why),
        }
    }

    pub(crate) fn put_following(&mut self, kept: &Kept, name: &[u8]) {
        match follow(kept.snapshot(), name, kept.namespace()) {
            Ok(Some(trail)) => {
                match trail.end {
                    Ok(id) => {
                        self.put(b"id");
                        self.put_id(&id);
                    }
                    Err(why) => self.put_refused(why),
                }
                self.put_name(&trail.last.name);
            }
            Ok(None) => self.put(b"absent"),
            Err(why) => self.put_not_found(why),
        }
    }
}
