//! Hashers of fixed seeds and of the system's.
use outside::{FixedSeeds, Seeds, SystemSeeds};
use std::hash::{BuildHasher, BuildHasherDefault, DefaultHasher, FoldHasher};
use std::io;
use std::random::RandomSource;
use std::test::Fail;

// A source of random bytes that always fails.
struct NoRandom;

impl RandomSource for NoRandom {
    fn fill_bytes(&self, _buf: &mut [u8]) -> io::Result<()> {
        Err(io::Error::from(io::ErrorKind::Other))
    }
}

// A source of the same random bytes.
struct Sevens;

impl RandomSource for Sevens {
    fn fill_bytes(&self, buf: &mut [u8]) -> io::Result<()> {
        buf.fill(7);
        Ok(())
    }
}

#[test]
fn hashers_of_one_seed_agree(rt: HostRuntime) -> Result<(), Fail> {
    let fixed = BuildHasherDefault::<FoldHasher>::new().hash_one("a");
    assert_eq!(rt; FixedSeeds.hasher()?.hash_one("a"), fixed);
    for mut seeds in [
        SystemSeeds::begin(&rt),
        SystemSeeds::begin(&Sevens),
        SystemSeeds::begin(&NoRandom),
    ] {
        let first = seeds.hasher()?.hash_one(b"key".as_slice());
        assert_eq!(rt; seeds.hasher()?.hash_one(b"key".as_slice()), first);
    }
    let unseeded = BuildHasherDefault::<DefaultHasher>::new().hash_one(b"key".as_slice());
    let hasher = SystemSeeds::begin(&NoRandom).hasher()?;
    assert_eq!(rt; hasher.hash_one(b"key".as_slice()), unseeded);
    let seeded = SystemSeeds::begin(&Sevens).hasher()?;
    assert_ne!(rt; seeded.hash_one(b"key".as_slice()), unseeded);
    Ok(())
}
