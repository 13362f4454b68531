//! The names of a site's mailboxes in their order, each found by a hash.

ghost use Rattle.std.specs.Prelude.{◌≡◌, ◌<◌, [], ◌∷◌, ◌++◌, length, not, position, true, false, IfOk, IfSome};
ghost use Rattle.std.specs.Prelude.{slice_get, unwrap_or, is_some};
ghost use Rattle.std.specs.List.{list_all};
ghost use Rattle.mail_world.specs.Site.{has_text, has_twice, is_listed_name};
ghost use Rattle.mail_world.specs.Commands.{is_word};
ghost use Rattle.mail_world.specs.Targets.{local_name, place_of_address, place_of_local};
ghost use Rattle.lmtp_text.specs.Seen.{seen_target};
ghost use Rattle.lmtp_text.specs.Sites.{texts};

use crate::command::Target;
use crate::names::{write_address, write_local};
use indexmap::IndexSet;
use mail_world::limits::BOX_NAME_LIMIT;
use std::alloc::{AllocError, Global};
use std::marker::Model;

/// Names that mailboxes may have, each once. Contracts see the list of them.
#[derive(Drop)]
pub(crate) struct BoxNames {
    set: IndexSet<Vec<u8>>,
}

impl Model for BoxNames {
    ghost use Rattle.std.specs.Prelude.{◌≡◌, ℕ, List, true};
    ghost use Rattle.std.specs.List.{list_all};
    ghost use Rattle.mail_world.specs.Site.{is_listed_name};
    ghost use Rattle.lmtp_text.specs.Sites.{owned};

    ghost Value = { List (List ℕ) };

    ghost view = { λ n. owned n.set.keys };

    ghost invariant = { λ n. list_all is_listed_name (owned n.set.keys) ≡ true };
}

impl BoxNames {
    /// These names in their order; none where two are the same.
    pub(crate) fn of(alloc: Global, names: &[&[u8]]) -> Result<Option<BoxNames>, AllocError>
        requires { list_all is_listed_name (texts names.now) ≡ true }
        ensures all { IfOk result (λ all. IfSome all (λ all. all ≡ texts names.now)) }
        ensures once { IfOk result (λ all. is_some all ≡ not (has_twice (texts names.now))) }
    {
        let mut all = BoxNames {
            set: IndexSet::with_capacity(alloc, names.len())?,
        };
        if all.add_all(alloc, names)? {
            Ok(Some(all))
        } else {
            Ok(None)
        }
    }

    /// Further names behind these, in their order. Where two are the same then the answer is false, and some are there.
    pub(crate) fn add_all(&mut self, alloc: Global, names: &[&[u8]]) -> Result<bool, AllocError>
        requires { list_all is_listed_name (texts names.now) ≡ true }
        ensures all { IfOk result (λ are_new. are_new ≡ true → self.new ≡ self.old ++ texts names.now) }
        ensures once { has_twice self.old ≡ false
            → IfOk result (λ are_new. are_new ≡ not (has_twice (self.old ++ texts names.now))) }
    {
        for name in names {
            if !self.add(alloc, name)? {
                return Ok(false);
            }
        }
        Ok(true)
    }

    // One more name. Where it is there already nothing changes, and the answer is false.
    fn add(&mut self, alloc: Global, name: &[u8]) -> Result<bool, AllocError>
        requires { is_listed_name name.now ≡ true }
        ensures is_new { IfOk result (λ is_new. is_new ≡ not (has_text self.old name.now)) }
        ensures more { IfOk result (λ is_new. is_new ≡ true → self.new ≡ self.old ++ name.now ∷ []) }
    {
        let (_place, is_new) = self.set.insert_full(name.to_vec(alloc)?)?;
        Ok(is_new)
    }

    /// How many there are.
    pub(crate) fn len(&self) -> usize
        ensures { result ≡ length self.now }
    {
        self.set.len()
    }

    /// The name at that place; empty where there is none.
    pub(crate) fn at(&self, place: usize) -> &[u8]
        ensures value { result.now ≡ unwrap_or (slice_get self.now place) [] }
        ensures named { place < length self.now → is_listed_name result.now ≡ true }
    {
        match self.set.get_index(place) {
            Some(name) => name,
            None => b"",
        }
    }

    /// The place of the name that is just the target's address, where it has a domain. It takes no memory.
    pub(crate) fn place_of_address(&self, target: &Target) -> Option<usize>
        ensures value { result
            ≡ place_of_address self.now (seen_target target.now).domain (local_name (seen_target target.now)) }
        ensures within { IfSome result (λ place. place < length self.now) }
    {
        let _ = &self.set;
        let Some(domain) = target.domain else {
            return None;
        };
        let mut room = [0; BOX_NAME_LIMIT];
        match write_address(&mut room, target, domain) {
            Some(size) => self.place_of_text(&room[..size]),
            None => None,
        }
    }

    /// The place of the name that the target's local part is; none has an `@`. It takes no memory.
    pub(crate) fn place_of_local(&self, target: &Target) -> Option<usize>
        ensures value { result ≡ place_of_local self.now (local_name (seen_target target.now)) }
        ensures within { IfSome result (λ place. place < length self.now) }
    {
        let _ = &self.set;
        if target.local.contains(&b'@') {
            return None;
        }
        let mut room = [0; BOX_NAME_LIMIT];
        match write_local(&mut room, target) {
            Some(size) => self.place_of_text(&room[..size]),
            None => None,
        }
    }

    // The place of the name that the text is, whatever the case of its letters. No name is longer than the limit.
    fn place_of_text(&self, text: &[u8]) -> Option<usize>
        ensures value { result ≡ position (λ name. is_word name text.now) self.now }
        ensures within { IfSome result (λ place. place < length self.now) }
    {
        let names = &self.set;
        if text.len() > BOX_NAME_LIMIT {
            return None;
        }
        let mut bytes = [0; BOX_NAME_LIMIT];
        let lower = &mut bytes[..text.len()];
        lower.copy_from_slice(text);
        lower.make_ascii_lowercase();
        let lower: &[u8] = lower;
        names.get_index_of(lower)
    }
}
