// A layer, with its sizes checked once.
ghost use Rattle.std.specs.Prelude.{◌≡◌, ◌≤◌, ◌<◌, true};
ghost use Rattle.fft_numbers.specs.Layer.{is_layer};

// `count` complex numbers, in blocks of twice the distance.
#[derive(Clone, Copy)]
pub struct Layer {
    pub count: usize,
    pub distance: usize,
    pub ghost sizes: { is_layer count distance ≡ true },
    pub ghost most: { count ≤ 1024 },
    pub ghost some: { 0 < distance },
}
