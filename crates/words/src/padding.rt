// Rows in front of an array.
ghost use Rattle.std.specs.Prelude.{◌≡◌, ◌-◌, ◌<◌, ◌≤◌, ◌++◌, length, replicate, MatchOption};

// The row, and one value behind it up to the array's length; none where the row is longer.
pub fn padded<T: Copy, const N: usize>(row: &[T], behind: T) -> Option<[T; N]>
    ensures { MatchOption result (N < length row.now) (λ all. (length row.now ≤ N) × (all ≡ row.now ++ replicate (N - length row.now) behind)) }
{
    if row.len() > N {
        return None;
    }
    let mut all = [behind; N];
    all[..row.len()].copy_from_slice(row);
    Some(all)
}
