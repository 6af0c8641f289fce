//! Search among running sums.
ghost use Rattle.std.specs.Prelude.{◌+◌, ◌<◌, ◌≤◌, length, slice_index};
ghost use Rattle.std.specs.List.Sorted.{IsNonDecreasing};

/// The index of a start that is at most `value`: the last one, where the starts are in order.
pub(crate) fn last_at_most(starts: &[u64], value: u64) -> usize
    requires some { 0 < length starts.now }
    requires first { slice_index starts.now 0 ≤ value }
    ensures within { result < length starts.now }
    ensures at_most { slice_index starts.now result ≤ value }
    ensures next { IsNonDecreasing starts.now → result + 1 < length starts.now
        → value < slice_index starts.now (result + 1) }
{
    let mut low = 0;
    let mut left = starts.len();
    while left > 1 {
        let half = left / 2;
        // A shift in place of a branch, which would be guessed wrong half the time.
        let at_most = starts[low + half] <= value;
        low += (half << at_most as u32) - half;
        left -= half;
    }
    low
}
