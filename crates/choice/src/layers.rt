// A block's samples in layers, each layer a pattern in words: the samples below each depth value.
ghost use Rattle.std.specs.Prelude.{◌≡◌, ◌≤◌, length};
ghost use Rattle.pattern.specs.Size.{greatest_samples};
ghost use Rattle.choice.specs.Layers.{EqualWords, BelowLayers};

use pattern::WORDS;

// The samples below each value from 0 to 256. These layers, like those of each value, are rows of words and no `Pattern`s: a sample is
// added to one word of its row, and a `Pattern` has no `|`.
pub(crate) type LayerRows = [[u64; WORDS]; 257];

// The samples of each value. That there are at most 256 of them is asked for here, by `put_below` and by `put_sums`: a struct that says it
// would serve only to build `Layers`, which says it. A sample's word and its bit are `k / 64` and `k % 64`: by `chunks` there would be two
// loops.
#[inline(never)]
fn equal_layers(samples: &[u8]) -> [[u64; WORDS]; 256]
    requires { length samples.now ≤ greatest_samples }
    ensures { EqualWords (length samples.now) samples.now result }
{
    let mut layers = [[0; WORDS]; 256];
    for (k, &sample) in samples.iter().enumerate() {
        layers[usize::from(sample)][k / 64] += 1 << (k % 64);
    }
    layers
}

// Puts the samples below each value from 0 to 256 into an array of the caller's. It is not inlined, so that its own array takes no stack
// while the caller searches.
#[inline(never)]
pub(crate) fn put_below(samples: &[u8], layers: &mut LayerRows)
    requires { length samples.now ≤ greatest_samples }
    ensures { BelowLayers 257 samples.now layers.new }
{
    layers[0] = [0; WORDS];
    for (v, equal) in equal_layers(samples).iter().enumerate() {
        layers[v + 1] = std::array::from_fn(|i| layers[v][i] | equal[i]);
    }
}
