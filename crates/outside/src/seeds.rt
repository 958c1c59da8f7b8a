//! Hashers.
ghost use Rattle.std.specs.Prelude.{IsOkAnd};
ghost use Rattle.std.specs.Hash.BuildHasherDefault.{initial_hasher};

use pb_wire::NoMemory;
use std::hash::{BuildHasher, BuildHasherDefault, FoldHasher};

/// Where hashers come from.
pub trait Seeds {
    type H: BuildHasher + Drop;

    /// A hasher, or out of memory. Its seed is left open.
    fn hasher(&mut self) -> Result<Self::H, NoMemory>;
}

/// The fixed seed, which takes no memory.
#[derive(Clone, Copy, Debug, PartialEq, Eq)]
pub struct FixedSeeds;

impl Seeds for FixedSeeds {
    type H = BuildHasherDefault<FoldHasher>;

    fn hasher(&mut self) -> Result<BuildHasherDefault<FoldHasher>, NoMemory>
        ensures { IsOkAnd result (λ h. ⟦<FoldHasher as Default>⟧.is_default (initial_hasher h)) }
    {
        Ok(BuildHasherDefault::new())
    }
}
