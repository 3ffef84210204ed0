// The listing.
use crate::answers::Pending;
use crate::kept::Kept;
use blocks::fitness::size_check;
use names::namespace::expansion_of;
use refs::overlay_iter::{Cursor, Listing, Positions, StepError};
use refs::raw::Reference;

impl<P: Print> Pending<'_, P> {
    // The answer of a step, and the three positions behind it.
    fn put_step(&mut self, answer: &Result<Option<Reference>, StepError>, at: Positions) {
        match answer {
            Ok(Some(reference)) => {
                self.put(b"ref");
                self.put_reference(reference);
            }
            Ok(None) => self.put(b"ended"),
            Err(why) => self.put_refused(*why),
        }
        self.put(b" at");
        self.put_number(at.worktree);
        self.put_number(at.common);
        self.put_number(at.packed);
    }

    // The opening and so many steps, each on a line of its own.
    pub(crate) fn put_listing(&mut self, kept: &Kept, count: usize) {
        let s = kept.snapshot();
        match Listing::open(s, kept.namespace()) {
            Ok(mut listing) => {
                for _ in 0..count {
                    let answer = listing.step(s);
                    self.put_step(&answer, listing.cursor.at);
                    self.put(b"\n");
                }
            }
            Err(why) => {
                self.put_refused(why);
                self.put(b"\n");
            }
        }
    }

    // One step from any positions. A refused namespace is answered as the opening would; with a good one, 1 is the step's.
    pub(crate) fn put_step_from(&mut self, kept: &Kept, at: Positions) {
        let s = kept.snapshot();
        match expansion_of(kept.namespace()) {
            Ok(expansion) => {
                let mut listing = Listing {
                    cursor: Cursor { at, ended: false },
                    expansion,
                };
                let answer = listing.step(s);
                self.put_step(&answer, listing.cursor.at);
            }
            Err(why) => match size_check(s) {
                Ok(()) => self.put_refused(why),
                Err(sizes) => self.put_refused(sizes),
            },
        }
    }
}
