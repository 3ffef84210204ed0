// Answers about names, and the content of a loose file.
use crate::answers::Pending;
use blocks::decode::{Target, try_from_path};
use names::fullname::{Category, category_and_short_name};
use names::name::{Name, Refusal};
use names::namespace::expand;
use std::cmp::Ordering;

impl<P: Print> Pending<'_, P> {
    pub(crate) fn put_yes_no(&mut self, is_so: bool) {
        self.put(if is_so { b"yes" } else { b"no" });
    }

    // Kept: the vector format's words, here and below, not the types': a Display or TryFrom would bind the types to this program.
    pub(crate) fn put_order(&mut self, o: Ordering) {
        self.put(match o {
            Ordering::Less => b"less",
            Ordering::Equal => b"equal",
            Ordering::Greater => b"greater",
        });
    }

    // A category and its worktree's name.
    fn put_category(&mut self, category: Category<'_>) {
        self.put(match category {
            Category::Tag => b"Tag",
            Category::LocalBranch => b"LocalBranch",
            Category::RemoteBranch => b"RemoteBranch",
            Category::Note => b"Note",
            Category::PseudoRef => b"PseudoRef",
            Category::MainPseudoRef => b"MainPseudoRef",
            Category::MainRef => b"MainRef",
            Category::LinkedPseudoRef { .. } => b"LinkedPseudoRef",
            Category::LinkedRef { .. } => b"LinkedRef",
            Category::Bisect => b"Bisect",
            Category::Rewritten => b"Rewritten",
            Category::WorktreePrivate => b"WorktreePrivate",
        });
        match category {
            Category::LinkedPseudoRef { name } | Category::LinkedRef { name } => {
                self.put_bytes(name)
            }
            _ => self.put(b" ~"),
        }
    }

    pub(crate) fn put_class(&mut self, s: &[u8]) {
        match category_and_short_name(s) {
            Some((category, short)) => {
                self.put_category(category);
                self.put_bytes(short);
            }
            None => self.put(b"none"),
        }
    }

    fn put_made(&mut self, made: Result<Name, Refusal>) {
        match made {
            Ok(name) => {
                self.put(b"name");
                self.put_name(&name);
            }
            Err(why) => self.put_refused(why),
        }
    }

    pub(crate) fn put_full_name(&mut self, category: Category<'_>, short: &[u8]) {
        self.put_made(category.to_full_name(short).map(|full| full.0));
    }

    pub(crate) fn put_expansion(&mut self, s: &[u8]) {
        self.put_made(expand(s).map(|expanded| expanded.0));
    }

    pub(crate) fn put_target(&mut self, s: &[u8]) {
        match try_from_path(s) {
            Ok(Target::Object(id)) => {
                self.put(b"object");
                self.put_id(&id);
            }
            Ok(Target::Symbolic(name)) => {
                self.put(b"symbolic");
                self.put_name(&name);
            }
            Err(why) => self.put_refused(why),
        }
    }
}
