//! Hashers with a seed of the system.
ghost use Rattle.outside.specs.SystemHashers.{initial_hasher};

use crate::Seeds;
use pb_wire::NoMemory;
use std::hash::{BuildHasher, BuildHasherDefault, DefaultHasher, RandomState};
use std::random::RandomSource;

/// A hasher with a seed of the system, or with the fixed one.
#[derive(Clone, Copy, Debug, Drop)]
pub enum SystemHasher {
    Seeded(RandomState),
    Fixed(BuildHasherDefault<DefaultHasher>),
}

impl BuildHasher for SystemHasher {
    type Hasher = DefaultHasher;

    ghost build_hasher = { initial_hasher };

    fn build_hasher(&self) -> DefaultHasher {
        match self {
            SystemHasher::Seeded(state) => state.build_hasher(),
            SystemHasher::Fixed(state) => state.build_hasher(),
        }
    }
}

/// The seed that the system gave once, or the fixed one where it gave none. It tells nothing of the seed.
#[derive(Clone, Copy, Debug, Drop)]
pub struct SystemSeeds {
    hasher: SystemHasher,
}

impl SystemSeeds {
    /// Reads the seed.
    pub fn begin(rt: &impl RandomSource) -> SystemSeeds {
        let hasher = match RandomState::new(rt) {
            Ok(state) => SystemHasher::Seeded(state),
            Err(_) => SystemHasher::Fixed(BuildHasherDefault::new()),
        };
        SystemSeeds { hasher }
    }
}

impl Seeds for SystemSeeds {
    type H = SystemHasher;

    fn hasher(&mut self) -> Result<SystemHasher, NoMemory> {
        Ok(self.hasher)
    }
}
