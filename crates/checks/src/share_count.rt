// The share count: 2 to 8.
ghost use Rattle.std.specs.Prelude.{◌≡◌};
ghost use Rattle.word.specs.Layout.{is_share_count};

// Whether n shares can be; a call that is told another count turns it down with 1.
pub fn is_share_count(n: usize) -> bool
    ensures { result ≡ is_share_count n }
{
    (2..=8).contains(&n)
}
