// A layer's pairs by rising place, each with the factor of its block.
ghost use Rattle.std.specs.Prelude.{◌≡◌, false, ◌*◌, ◌/◌, ◌<◌, length, MatchOption};
ghost use Rattle.fft_numbers.specs.Layer.{block_count, is_layer};
ghost use Rattle.fft_sizes.specs.inner.Inner.{IsPair};

use crate::is_layer;
use crate::layer::Layer;
use crate::pair::Pair;

impl Layer {
    // The layer over `count` numbers at `distance`, where there is one.
    pub fn new(count: usize, distance: usize) -> Option<Layer>
        ensures { MatchOption result (is_layer count distance ≡ false) (λ l. (l.count ≡ count) × (l.distance ≡ distance)) }
    {
        if is_layer(count, distance) {
            Some(Layer { count, distance })
        } else {
            None
        }
    }

    // How many factors there are: one for each block.
    pub fn blocks(self) -> usize
        ensures { result ≡ block_count self.count self.distance }
    {
        self.count / (2 * self.distance)
    }

    // Pair k. `factors` has the real parts of the blocks' factors, and then the imaginary ones.
    #[tactic(auto, using(fft_numbers::proofs::Powers::sizes, fft_numbers::proofs::Powers::pair_placed))]
    pub fn pair(self, k: usize, factors: &[u64]) -> Pair
        requires { (k < self.count / 2) × (length factors.now ≡ 2 * block_count self.count self.distance) }
        ensures { IsPair self.count self.distance factors.now k result }
    {
        let block = k / self.distance;
        Pair {
            layer: self,
            place: 2 * self.distance * block + k % self.distance,
            re: factors[block],
            im: factors[self.blocks() + block],
        }
    }
}
