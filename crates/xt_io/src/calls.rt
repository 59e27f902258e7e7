ghost use Rattle.std.specs.Prelude.{◌≡◌, ◌↔◌, IsTrue, Contains};
ghost use Rattle.xt_io.specs.Memory.{one_more};

/// Numbers the calls of an object from 0, some of which are to fail. The last value of a `u64` stays once it is
/// reached.
#[derive(Drop)]
pub struct Calls {
    pub fail: Vec<u64>,
    pub next: u64,
}

impl Calls {
    /// Counts a call, and answers whether it is to fail.
    pub fn count(&mut self) -> bool
        ensures fails { IsTrue result ↔ Contains self.old.fail.items self.old.next }
        ensures listed { self.new.fail ≡ self.old.fail }
        ensures next { self.new.next ≡ one_more self.old.next }
    {
        let fails = self.fail.contains(&self.next);
        self.next = self.next.saturating_add(1);
        fails
    }
}
