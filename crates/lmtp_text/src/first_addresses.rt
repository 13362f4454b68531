//! The domains of a site's listed addresses, each with the place of the first address at it.

ghost use Rattle.std.specs.Prelude.{◌≡◌, ℕ, List, length, [], ◌∷◌, ◌++◌, OnOk, IfOk, is_some, true, if◌then◌else◌};
ghost use Rattle.lmtp_text.specs.Sites.{place_at, AreFirsts};
ghost use Rattle.mail_world.specs.Site.{is_listed_domain, is_listed_name};

use crate::box_names::BoxNames;
use crate::cut::cut_at;
use indexmap::IndexMap;
use mail_world::limits::NAME_LIMIT;
use std::alloc::{AllocError, Global};
use std::marker::Model;

/// Domains that a list may have, each with a place. Contracts see the list of both.
#[derive(Drop)]
pub(crate) struct FirstAddresses {
    places: IndexMap<Vec<u8>, usize>,
}

impl Model for FirstAddresses {
    ghost use Rattle.std.specs.Prelude.{◌≡◌, ℕ, List, map, true};
    ghost use Rattle.std.specs.List.{list_all};
    ghost use Rattle.mail_world.specs.Site.{is_listed_domain};
    ghost use Rattle.lmtp_text.specs.Sites.{keyed};

    ghost Value = { List (List ℕ × ℕ) };

    ghost view = { λ f. keyed f.places.entries };

    ghost invariant = { λ f. list_all is_listed_domain (map (λ e. e.0) (keyed f.places.entries)) ≡ true };
}

impl FirstAddresses {
    /// Those of these names.
    pub(crate) fn of(alloc: Global, names: &BoxNames) -> Result<FirstAddresses, AllocError>
        ensures { IfOk result (AreFirsts names.now) }
    {
        let mut firsts = FirstAddresses {
            places: IndexMap::new(alloc),
        };
        for place in 0..names.len() {
            firsts.add_name(alloc, names.at(place), place)?;
        }
        Ok(firsts)
    }

    // One more name, behind that many.
    fn add_name(&mut self, alloc: Global, name: &[u8], place: usize) -> Result<(), AllocError>
        requires { is_listed_name name.now ≡ true }
        ensures { OnOk result ((names : List (List ℕ)) → length names ≡ place → AreFirsts names self.old
            → AreFirsts (names ++ name.now ∷ []) self.new) }
    {
        match cut_at(name, b'@') {
            Some((_local, domain)) => self.add(alloc, domain, place),
            None => Ok(()),
        }
    }

    // One more domain, whose first address has that place. Where it is there already nothing changes.
    fn add(&mut self, alloc: Global, domain: &[u8], place: usize) -> Result<(), AllocError>
        requires { is_listed_domain domain.now ≡ true }
        ensures { OnOk result
            (self.new ≡ (if is_some (place_at domain.now self.old) then self.old else self.old ++ (domain.now, place) ∷ [])) }
    {
        if !self.places.contains_key(domain) {
            self.places.insert(domain.to_vec(alloc)?, place)?;
        }
        Ok(())
    }

    /// The place of the first address at the domain, whatever the case of its letters. It takes no memory.
    pub(crate) fn place_at(&self, domain: &[u8]) -> Option<usize>
        ensures { result ≡ place_at domain.now self.now }
    {
        let places = &self.places;
        if domain.len() > NAME_LIMIT {
            return None;
        }
        let mut bytes = [0; NAME_LIMIT];
        let lower = &mut bytes[..domain.len()];
        lower.copy_from_slice(domain);
        lower.make_ascii_lowercase();
        let lower: &[u8] = lower;
        places.get(lower).copied()
    }
}
