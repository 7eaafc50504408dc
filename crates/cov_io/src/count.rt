// The counts of devices, which stay at the greatest value.
ghost use Rattle.std.specs.Prelude.{◌≡◌, ◌==◌, if◌then◌else◌};
ghost use Rattle.cov_io.specs.InMemory.{raised};

/// One more, unless the count is the greatest.
pub fn raised(count: u64) -> u64
    ensures { result ≡ raised count }
{
    count.saturating_add(1)
}

/// The count of reads that answered 0, after one that answered so many bytes.
pub(crate) fn ends_after(ends: u64, count: usize) -> u64
    ensures { result ≡ (if count == 0 then raised ends else ends) }
{
    if count == 0 {
        return raised(ends);
    }
    ends
}
