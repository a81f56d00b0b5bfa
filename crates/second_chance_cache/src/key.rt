//! The keys of an index, whose octets are hashed at once: a hasher that is fed octet by octet takes several times as long.
ghost use Rattle.std.specs.Prelude.{◌≡◌, IfOk};

use indexmap::Equivalent;
use std::alloc::{AllocError, Global};
use std::hash::{Hash, Hasher};
use std::marker::Model;

/// The octets of a key.
#[derive(Debug, Drop)]
pub struct Key {
    octets: Vec<u8>,
}

impl Model for Key {
    ghost use Rattle.std.specs.Prelude.{ℕ, List};

    ghost Value = { List ℕ };

    ghost view = { λ k. k.octets.items };
}

impl Key {
    // The key of these octets.
    pub fn of(alloc: Global, octets: &[u8]) -> Result<Key, AllocError>
        ensures { IfOk result (λ key. key ≡ octets.now) }
    {
        match Vec::from_slice(alloc, octets) {
            Ok(octets) => Ok(Key { octets }),
            Err(error) => Err(error),
        }
    }
}

/// The octets of a key that is looked up.
#[derive(Debug, Drop)]
pub struct KeyRef<'a> {
    octets: &'a [u8],
}

impl<'a> Model for KeyRef<'a> {
    ghost use Rattle.std.specs.Prelude.{ℕ, List};

    ghost Value = { List ℕ };

    ghost view = { λ k. k.octets.now };
}

impl<'a> KeyRef<'a> {
    // The key of these octets.
    pub fn of(octets: &'a [u8]) -> KeyRef<'a>
        ensures { result ≡ octets.now }
    {
        KeyRef { octets }
    }
}

impl PartialEq for Key {
    ghost use Rattle.std.specs.Cmp.{partial_equiv_from_equiv};
    ghost use Rattle.second_chance_cache.specs.Keys.{key_eq, key_equiv};

    ghost eq = { key_eq };

    ghost laws = { partial_equiv_from_equiv key_equiv };

    fn eq(&self, other: &Key) -> bool {
        self.octets.as_slice() == other.octets.as_slice()
    }
}

impl Eq for Key {
    ghost use Rattle.second_chance_cache.specs.Keys.{key_equiv};

    ghost laws = { key_equiv };
}

impl Hash for Key {
    ghost use Rattle.second_chance_cache.specs.Keys.{key_hash_input, key_respects_eq};

    ghost hash_input = { key_hash_input };

    ghost respects_eq = { key_respects_eq };

    fn hash<H: Hasher>(&self, state: &mut H) {
        state.write(&self.octets);
    }
}

impl<'a> PartialEq for KeyRef<'a> {
    ghost use Rattle.std.specs.Cmp.{partial_equiv_from_equiv};
    ghost use Rattle.second_chance_cache.specs.Keys.{key_eq, key_equiv};

    ghost eq = { key_eq };

    ghost laws = { partial_equiv_from_equiv key_equiv };

    fn eq(&self, other: &KeyRef<'a>) -> bool {
        self.octets == other.octets
    }
}

impl<'a> Eq for KeyRef<'a> {
    ghost use Rattle.second_chance_cache.specs.Keys.{key_equiv};

    ghost laws = { key_equiv };
}

impl<'a> Hash for KeyRef<'a> {
    ghost use Rattle.second_chance_cache.specs.Keys.{key_hash_input, key_respects_eq};

    ghost hash_input = { key_hash_input };

    ghost respects_eq = { key_respects_eq };

    fn hash<H: Hasher>(&self, state: &mut H) {
        state.write(self.octets);
    }
}

impl<'a> Equivalent<Key> for &KeyRef<'a> {
    ghost use Rattle.second_chance_cache.specs.Keys.{key_eq, key_equiv, key_respects_eq};

    ghost equivalent = { λ q. key_eq q.now };

    ghost respects_hash = { λ q. key_respects_eq q.now };

    ghost respects_eq = { λ q. key_equiv.congr q.now };

    fn equivalent(&self, key: &Key) -> bool {
        self.octets == key.octets.as_slice()
    }
}
