// A number's shares copied from one place to another, one by one. A secret number's lie a step apart on both sides, so that no instruction moves
// two of them.
#![tactic(auto)]

ghost use Rattle.std.specs.Prelude.{◌≡◌, ◌≤◌, length};
ghost use Rattle.fft_numbers.specs.Layout.{number_of};
ghost use Rattle.fft_copies.specs.inner.Inner.{Apart, Inside, written};

// From one slice to another.
pub fn copy(
    n: usize,
    from: &[u64],
    at: usize,
    step: usize,
    to: &mut [u64],
    place: usize,
    stride: usize,
)
    requires { Inside n step at (length from.now) × Inside n stride place (length to.old) × (length from.now ≤ 65536) × (length to.old ≤ 65536) }
    ensures { to.new ≡ written stride place 0 (number_of n step at from.now) to.old }
{
    for i in 0..n {
        to[stride * i + place] = from[step * i + at];
    }
}

// Within one slice, to places that are not read.
pub fn copy_within(n: usize, at: usize, step: usize, place: usize, stride: usize, cells: &mut [u64])
    requires { Inside n step at (length cells.old) × Inside n stride place (length cells.old) × Apart n step at stride place × (length cells.old ≤ 65536) }
    ensures { cells.new ≡ written stride place 0 (number_of n step at cells.old) cells.old }
{
    for i in 0..n {
        cells[stride * i + place] = cells[step * i + at];
    }
}
