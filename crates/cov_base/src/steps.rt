// Counters of steps.
ghost use Rattle.std.specs.Prelude.{◌≡◌, ℕ, ◌+◌, ◌-◌, ◌^◌, min};
ghost use Rattle.std.specs.Borrow.{ftrue};

use std::marker::Model;

/// A count for proofs alone, which takes no bytes.
#[derive(Drop)]
pub struct Tally {
    pub ghost number: { ℕ },
}

impl Model for Tally {
    ghost also_owns = { λ _. ftrue };
}

impl Tally {
    pub fn new() -> Tally
        ensures { result.number ≡ 0 }
    {
        Tally {}
    }

    /// The count with one more.
    pub fn after(_before: &Tally) -> Tally
        ensures { result.number ≡ _before.now.number + 1 }
    {
        Tally {}
    }
}

/// What a counter keeps of its ticks at run time.
pub trait Ledger: Drop {
    // it stands for this number of ticks
    ghost Keeps: { Self → ℕ → Type 0 };

    fn empty() -> Self
        ensures { Keeps result 0 };

    fn add(&mut self)
        ensures { (n : ℕ) → Keeps self.old n → Keeps self.new (n + 1) };
}

/// Keeps the number of ticks, which stays at its greatest value.
#[derive(Debug, Drop)]
pub struct Counted {
    ticks: u64,
}

impl Ledger for Counted {
    ghost Keeps = { λ c n. c.ticks ≡ min n (2 ^ 64 - 1) };

    fn empty() -> Self {
        Counted { ticks: 0 }
    }

    fn add(&mut self) {
        self.ticks = self.ticks.saturating_add(1);
    }
}

/// Keeps nothing.
#[derive(Debug, Drop)]
pub struct Uncounted;

impl Ledger for Uncounted {
    ghost Keeps = { λ _ _. Unit {0} };

    fn empty() -> Self {
        Uncounted
    }

    fn add(&mut self) {}
}

/// How many steps a computation took. Contracts see it as this number, which only a tick changes.
#[derive(Drop)]
pub struct Steps<L: Ledger> {
    ledger: L,
    tally: Tally,
}

impl<L: Ledger> Model for Steps<L> {
    ghost Value = { ℕ };

    ghost view = { λ s. s.tally.number };

    ghost invariant = { λ s. L.Keeps s.ledger s.tally.number };
}

impl<L: Ledger> Steps<L> {
    pub fn new() -> Steps<L>
        ensures { result ≡ 0 }
    {
        Steps {
            ledger: L::empty(),
            tally: Tally::new(),
        }
    }

    pub fn tick(&mut self)
        ensures { self.new ≡ self.old + 1 }
    {
        self.ledger.add();
        self.tally = Tally::after(&self.tally);
    }
}

impl Steps<Counted> {
    /// The number of ticks, or the greatest value of the type if that is less.
    pub fn ticks(&self) -> u64
        ensures { result ≡ min self.now (2 ^ 64 - 1) }
    {
        self.ledger.ticks
    }
}
