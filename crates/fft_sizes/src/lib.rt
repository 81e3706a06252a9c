// The sizes of a layer and its pairs, on plain words and on shares.
#![tactic(auto)]

pub mod layer;
pub mod pair;
mod pairs;

ghost use Rattle.std.specs.Prelude.{◌≡◌};
ghost use Rattle.fft_numbers.specs.Layer.{is_layer, is_power_of_two};

// Whether k is a power of two up to 1,024.
#[tactic(auto, using(crate::proofs::OneBit::one_bit_is))]
fn is_power_of_two(k: usize) -> bool
    ensures { result ≡ is_power_of_two k }
{
    k <= 1024 && k.is_power_of_two()
}

// Whether there is a layer over `count` numbers at `distance`.
#[tactic(auto, unfolding(fft_numbers::specs::Layer::is_layer))]
pub fn is_layer(count: usize, distance: usize) -> bool
    ensures { result ≡ is_layer count distance }
{
    is_power_of_two(count)
        && is_power_of_two(distance)
        && 2 <= count
        && count <= 1024
        && distance < count
}
