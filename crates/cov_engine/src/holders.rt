// Those who share with an engine what it keeps.
ghost use Rattle.std.specs.Prelude.{◌≡◌};

/// Those who hold shares of what an engine keeps. What has one owner left is changed in place, so some of them let theirs go once a
/// command is accepted, before it is installed.
pub trait Holders<K> {
    /// What they are once the ones that the first names have let go.
    ghost released: { K → Self → Self → Type 0 };

    /// Has the ones that it names let go. Takes no memory.
    fn release(&mut self, which: &K)
        ensures { released which.now self.old self.new };
}

/// Nobody holds a share, or lets it go.
#[derive(Drop)]
pub struct NoHolders;

impl Holders<()> for NoHolders {
    ghost released = { λ _ before after. after ≡ before };

    fn release(&mut self, _which: &()) {}
}
