//! Times, as they are printed.

use std::time::Duration;

/// The nanoseconds for each of `count` things, where they were done so many times.
pub(crate) fn nanos_each(time: Duration, times: u64, count: usize) -> u128 {
    time.as_nanos() / u128::from(times.max(1)) / (count.max(1) as u128)
}
