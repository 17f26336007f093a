//! The way in which names are hashed.
ghost use Rattle.std.specs.Prelude.{◌≡◌};
ghost use Rattle.std.specs.Hash.FoldHasher.{initial, write};

use std::hash::{BuildHasher, FoldHasher, Hasher};

/// The hashing of names behind some bytes: unless these are known, no source can be made whose names all fall together.
#[derive(Clone, Copy)]
pub struct NameHashing {
    /// The hasher that has taken these bytes already.
    seeded: FoldHasher,
}

impl NameHashing {
    /// Returns the hashing behind the bytes `secret`, of which 16 that nobody knows are enough.
    pub fn new(secret: &[u8]) -> NameHashing
        ensures { result.seeded ≡ write initial secret.now }
    {
        let mut seeded = FoldHasher::default();
        seeded.write(secret);
        NameHashing { seeded }
    }
}

impl BuildHasher for NameHashing {
    type Hasher = FoldHasher;

    ghost build_hasher = { λ h. h.seeded };

    fn build_hasher(&self) -> FoldHasher {
        self.seeded
    }
}
