//! The calls of an object in memory.

ghost use Rattle.std.specs.Prelude.{◌≡◌, ◌+◌, if◌then◌else◌};
ghost use Rattle.dcc_io.specs.Memory.{next_count, fails_next, listed_calls};

/// How many calls were made, and the numbers of those that are to fail, from 1 on.
#[derive(Drop)]
pub(crate) struct Calls {
    /// The number of calls so far; the last value of the type stands for all above it.
    pub(crate) made: u64,
    /// The numbers of the calls that are to fail, from 1 on.
    pub(crate) fail: Vec<u64>,
}

impl Calls {
    /// No call yet.
    pub(crate) fn new(fail: Vec<u64>) -> Self
        ensures made { result.made ≡ 0 }
        ensures fail { result.fail.items ≡ fail.items }
    {
        Calls { made: 0, fail }
    }

    /// Counts a call, and answers whether it is to fail. A counter at its last value stands still,
    /// and no call is to fail from there on.
    #[tactic(auto, using(crate::proofs::MemoryLemmas::listed_calls_next))]
    pub(crate) fn next_fails(&mut self) -> bool
        ensures made { self.new.made ≡ next_count self.old.made }
        ensures fail { self.new.fail.items ≡ self.old.fail.items }
        ensures fails { result ≡ fails_next self.old.fail.items self.old.made }
        ensures listed { listed_calls self.old.fail.items self.new.made
            ≡ listed_calls self.old.fail.items self.old.made + (if result then 1 else 0) }
    {
        if self.made == u64::MAX {
            return false;
        }
        self.made += 1;
        self.fail.contains(&self.made)
    }
}
