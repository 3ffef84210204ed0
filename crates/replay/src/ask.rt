// The answer to a question.
use crate::answers::Pending;
use crate::kept::Kept;
use crate::question::Question;
use names::bytes::{compare, without};
use names::name::is_pseudo_ref;
use names::validate::{complete, well_formed};

impl<P: Print> Pending<'_, P> {
    // All but a listing is one line, whose end is put here.
    pub(crate) fn put_answer(&mut self, question: Question<'_>, kept: &Kept) {
        match question {
            Question::WellFormed(s) => self.put_yes_no(well_formed(s)),
            Question::Complete(s) => self.put_yes_no(complete(s)),
            Question::Pseudo(s) => self.put_yes_no(is_pseudo_ref(s)),
            Question::Order(s, t) => self.put_order(compare(s, t)),
            Question::Category(s) => self.put_class(s),
            Question::FullName { category, short } => self.put_full_name(category, short),
            Question::Expand(s) => self.put_expansion(s),
            Question::Strip { front, name } => {
                self.put(b"name");
                self.put_bytes(without(name, front));
            }
            Question::Decode(s) => self.put_target(s),
            Question::Block { region, block } => self.put_block(region, block),
            Question::Fit => self.put_fitness(kept.snapshot()),
            Question::Find(name) => self.put_search(kept, name),
            Question::Follow(name) => self.put_following(kept, name),
            Question::Step(at) => self.put_step_from(kept, at),
            Question::List(count) => return self.put_listing(kept, count),
        }
        self.put(b"\n");
    }
}
