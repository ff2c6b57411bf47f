//! Things under names, in the order of their use: small calls of a cache that has room for as many as are kept.
ghost use Rattle.std.specs.Prelude.{◌≡◌, ◌<◌, ℕ, List, [], ◌∷◌, IfOk, None, OnErr, OnOk};
ghost use Rattle.std.specs.Prelude.{bytes_eq, is_some, length, option_map};
ghost use Rattle.std.specs.Map.{set_value};
ghost use Rattle.ldm_actions.specs.Kept.{IsNewest, TakesNewest, TakesOldest, first_of, gone_of, number_of};
ghost use Rattle.ldm_actions.specs.Kept.{number_under, raised, staying};

use lru::LruCache;
use std::alloc::{AllocError, Global};
use std::marker::Model;
use std::num::NonZeroUsize;

/// How many entries there is room for: as many as files that may be open, or programs that may run.
pub(crate) const ROOM: usize = 32;

// The number of an entry whose thing is not there yet.
const NO_NUMBER: usize = 0;

// The number of an entry that was taken out.
fn number(entry: Option<(String, usize)>) -> Option<usize>
    ensures { result ≡ option_map (λ it. it.1) entry }
{
    match entry {
        Some((_, number)) => Some(number),
        None => None,
    }
}

/// Numbers under names: contracts see a list of pairs, the one that was used last first.
#[derive(Drop)]
pub(crate) struct Recent {
    cache: LruCache<String, usize>,
}

impl Model for Recent {
    ghost use Rattle.std.specs.Prelude.{◌≡◌, List, ℕ};
    ghost use Rattle.ldm_actions.specs.Kept.{named};
    ghost use Rattle.ldm_actions.specs.declared.recent.TheConstants.{ROOM};

    ghost Value = { List (List ℕ × ℕ) };

    ghost view = { λ s. named s.cache.entries };

    ghost invariant = { λ s. s.cache.cap ≡ ROOM };
}

impl Recent {
    pub(crate) fn new(alloc: Global) -> Result<Recent, AllocError>
        ensures { IfOk result (λ made. made ≡ []) }
    {
        let room = NonZeroUsize::new(ROOM).unwrap();
        Ok(Recent {
            cache: LruCache::new(alloc, room)?,
        })
    }

    pub(crate) fn alloc(&self) -> Global {
        *self.cache.allocator()
    }

    pub(crate) fn len(&self) -> usize
        ensures { result ≡ length self.now }
    {
        self.cache.len()
    }

    // The number that was used last, if there is one.
    fn first(&self) -> Option<usize>
        ensures { result ≡ option_map number_of (first_of self.now) }
    {
        match self.cache.peek_mru() {
            Some((_, number)) => Some(*number),
            None => None,
        }
    }

    /// The number that was used last.
    pub(crate) fn newest(&self) -> usize
        requires { 0 < length self.now }
        ensures { (name : List ℕ) × IsNewest (name, result) self.now }
    {
        self.first().unwrap()
    }

    /// Uses the entry of the name, if there is one: it is the newest then.
    pub(crate) fn raise(&mut self, name: &str) -> bool
        ensures found { result ≡ is_some (number_under name.now self.old) }
        ensures raised { self.new ≡ raised name.now self.old }
    {
        self.cache.promote(name)
    }

    /// Adds an entry, which is the newest then and has no number yet. Where there is no room, the one that was used
    /// longest ago goes, and its number is answered.
    pub(crate) fn reserve(&mut self, name: &str) -> Result<Option<usize>, AllocError>
        requires { number_under name.now self.old ≡ None }
        ensures gone { IfOk result (λ gone. gone ≡ gone_of self.old) }
        ensures reserved { OnOk result (self.new ≡ (name.now, NO_NUMBER) ∷ staying self.old) }
        ensures refused { OnErr result (self.new ≡ self.old) }
    {
        let name = String::from_str(self.alloc(), name)?;
        Ok(number(self.cache.push(name, NO_NUMBER)?))
    }

    /// Gives the entry of the name its number.
    pub(crate) fn set_number(&mut self, name: &str, number: usize)
        ensures { self.new ≡ set_value (bytes_eq name.now) self.old number }
    {
        let Some(place) = self.cache.peek_mut(name) else {
            return;
        };
        *place = number;
    }

    /// Takes the newest entry out.
    pub(crate) fn take_newest(&mut self) -> Option<usize>
        ensures { TakesNewest result self.old self.new }
    {
        number(self.cache.pop_mru())
    }

    /// Takes the entry out that was used longest ago.
    pub(crate) fn take_oldest(&mut self) -> Option<usize>
        ensures { TakesOldest result self.old self.new }
    {
        number(self.cache.pop_lru())
    }
}
