// Selection by masks, so that no branch depends on what is selected.
ghost use Rattle.std.specs.Prelude.{◌≡◌, if◌then◌else◌};

// x where b holds, else 0: under a mask of 64 copies of b.
#[tactic(auto, using(crate::proofs::Selecting::masked))]
pub fn kept(b: bool, x: u64) -> u64
    ensures { result ≡ (if b then x else 0) }
{
    0u64.wrapping_sub(u64::from(b)) & x
}

// x where b holds, else y.
#[tactic(auto, using(crate::proofs::Selecting::chosen))]
pub fn choose(b: bool, x: u64, y: u64) -> u64
    ensures { result ≡ (if b then x else y) }
{
    y ^ kept(b, x ^ y)
}
