//! How many reads each thread has open, of a cell or a read-write lock.
ghost use Rattle.std.specs.Prelude.{◌≡◌, slice_get};
ghost use Rattle.std.specs.List.{list_all};
ghost use Rattle.loom_objects.specs.Rules.Cell.{count_of, is_zero};

use loom_views::rt::MAX_THREADS;

/// How many the thread has open.
pub(crate) fn reads_of(readers: &[u64; MAX_THREADS], thread: u8) -> u64
    ensures { result ≡ count_of (slice_get readers.now thread) }
{
    match readers.get(thread as usize) {
        Some(count) => *count,
        None => 0,
    }
}

/// No thread has one open.
pub(crate) fn none_reads(readers: &[u64; MAX_THREADS]) -> bool
    ensures { result ≡ list_all is_zero readers.now }
{
    readers.iter().all(|count| *count == 0)
}

/// The counts again.
pub(crate) fn copied_counts(counts: &[u64; MAX_THREADS]) -> [u64; MAX_THREADS]
    ensures { result ≡ counts.now }
{
    let [main, first, second, third, fourth] = counts;
    [*main, *first, *second, *third, *fourth]
}
