//! Which calls of an object in memory are to fail.
ghost use Rattle.std.specs.Prelude.{◌≡◌, ◌+◌, ◌-◌, ◌^◌, ◌↔◌, min, IsTrue, Contains};

/// The numbers of the calls that are to fail, counted from 0, and how many calls there were. At the end of its type the
/// count stays.
#[derive(Drop)]
pub struct Failures {
    pub numbers: Vec<u64>,
    pub calls: u64,
}

impl Failures {
    /// Before the first call.
    pub fn begin(numbers: Vec<u64>) -> Failures
        ensures numbers { result.numbers.items ≡ numbers.items }
        ensures calls { result.calls ≡ 0 }
    {
        Failures { numbers, calls: 0 }
    }

    /// Numbers one call, and says whether it is to fail.
    pub fn strikes(&mut self) -> bool
        ensures listed { IsTrue result ↔ Contains self.old.numbers.items self.old.calls }
        ensures calls { self.new.calls ≡ min (self.old.calls + 1) (2 ^ 64 - 1) }
        ensures numbers { self.new.numbers.items ≡ self.old.numbers.items }
    {
        let call = self.calls;
        self.calls = call.saturating_add(1);
        self.numbers.contains(&call)
    }
}
