// The calls of a device in memory: which of them fail by their number, and how many did what.
ghost use Rattle.std.specs.Prelude.{◌≡◌, ◌≤◌, None};
ghost use Rattle.cov_base.specs.Causes.{Rose};
ghost use Rattle.cov_io.specs.InMemory.{is_next_in, is_past, fails_next, counted, failed, starved};

use crate::count::raised;
use cov_base::Numbers;
use std::marker::Model;

/// The numbers of the calls that fail, how many calls come before every call fails, and the counts.
#[derive(Debug, Drop)]
pub struct Calls {
    fail: Numbers,
    fuse: Option<u64>,
    calls: u64,
    faults: u64,
    starved: u64,
}

impl Model for Calls {
    ghost use Rattle.cov_io.specs.InMemory as memory;

    ghost Value = { memory.Calls };

    ghost view = { λ c. record {
      fail = c.fail;
      fuse = c.fuse;
      calls = c.calls;
      faults = c.faults;
      starved = c.starved;
    } };
}

/// Whether the call of this number comes after the fuse.
fn is_past(fuse: Option<u64>, calls: u64) -> bool
    ensures { result ≡ is_past fuse calls }
{
    match fuse {
        Some(fuse) => fuse < calls,
        None => false,
    }
}

impl Calls {
    /// No call was made. Those whose numbers are listed are to fail, and those after the fuse.
    pub fn new(fail: Numbers, fuse: Option<u64>) -> Calls
        ensures { result ≡ record {
          fail = fail;
          fuse = fuse;
          calls = 0;
          faults = 0;
          starved = 0;
        } }
    {
        Calls {
            fail,
            fuse,
            calls: 0,
            faults: 0,
            starved: 0,
        }
    }

    /// Counts a call, and says whether it fails by its number.
    pub fn next_fails(&mut self) -> bool
        ensures fails { result ≡ fails_next self.old }
        ensures listed { self.old.fuse ≡ None → result ≡ is_next_in self.old.fail self.old.calls }
        ensures counted { self.new ≡ counted self.old }
    {
        self.calls = raised(self.calls);
        is_past(self.fuse, self.calls) || self.fail.contains(self.calls)
    }

    /// Counts a failure.
    pub fn fail(&mut self)
        ensures failed { self.new ≡ failed self.old }
        ensures later { self.old.faults ≤ self.new.faults }
        ensures rose { Rose self.old.faults self.new.faults }
    {
        self.faults = raised(self.faults);
    }

    /// Counts a failure for want of memory.
    pub fn starve(&mut self)
        ensures starved { self.new ≡ starved self.old }
        ensures later { self.old.faults ≤ self.new.faults }
        ensures rose { Rose self.old.faults self.new.faults }
    {
        self.faults = raised(self.faults);
        self.starved = raised(self.starved);
    }

    /// How many calls found no memory.
    pub fn starved(&self) -> u64
        ensures { result ≡ self.now.starved }
    {
        self.starved
    }
}
