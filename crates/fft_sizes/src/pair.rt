// A pair of a layer.
ghost use Rattle.std.specs.Prelude.{◌+◌, ◌<◌};

use crate::layer::Layer;

// u at `place`, v a distance later, and the factor re + im i of their block.
#[derive(Clone, Copy)]
pub struct Pair {
    pub layer: Layer,
    pub place: usize,
    pub re: u64,
    pub im: u64,
    pub ghost inside: { place + layer.distance < layer.count },
}
