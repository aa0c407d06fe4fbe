// A block's layers and sums, and what the samples of a part of it cost.
ghost use Rattle.std.specs.Prelude.{◌≡◌, ℕ, ◌^◌, true, ◌<◌, ◌≤◌, length, get_or};
ghost use Rattle.std.specs.Int.Bits.{bit_and, bit_xor};
ghost use Rattle.std.specs.Int.Count.{ones};
ghost use Rattle.arith.specs.Sum.{sum_to};
ghost use Rattle.pattern.specs.Size.{greatest_samples};
ghost use Rattle.pattern.specs.Words.{pattern_number};
ghost use Rattle.choice.specs.Cost.{side_cost};
ghost use Rattle.choice.specs.Sums.{marked_sum};
ghost use Rattle.choice.specs.Layers.{layer_at, Layered, Parted};

use crate::layers::LayerRows;
use crate::sums::{SumRows, word_sum};
use pattern::{Pattern, WORDS};

// A block's samples, their layers and their sums, and the sum of all of them.
#[derive(Clone, Copy)]
pub(crate) struct Layers<'a> {
    pub samples: &'a [u8],
    pub below: &'a LayerRows,
    pub sums: &'a SumRows,
    pub total: u32,
    ghost bytes: { (k : ℕ) → get_or samples.now k 0 < 256 },
    ghost layered: { Layered samples.now below.now sums.now },
    ghost whole: { total ≡ sum_to (λ k. get_or samples.now k 0) (length samples.now) },
}

impl<'a> Layers<'a> {
    // A block's samples with their layers and sums.
    pub(crate) fn new(samples: &'a [u8], below: &'a LayerRows, sums: &'a SumRows) -> Layers<'a>
        requires { Layered samples.now below.now sums.now }
        ensures { result.samples.now ≡ samples.now }
    {
        Layers {
            samples,
            below,
            sums,
            total: samples.iter().map(|&sample| u32::from(sample)).sum(),
        }
    }

    // How many samples of the block a pattern marks. That it marks none past the block's last is asked here, by `sum` and by `parts`, and
    // no field says it: a pattern has room for 256 marks whatever the size, and how many samples the block has is known only with them.
    pub(crate) fn count(&self, p: Pattern) -> u32
        requires { pattern_number p < 2 ^ length self.now.samples.now }
        ensures { (result ≡ ones (pattern_number p)) × (result ≤ greatest_samples) }
    {
        if 64 < self.samples.len() {
            p.marks()
        } else {
            p.words[0].count_ones()
        }
    }

    // The sum of the samples of the block that a pattern marks. The first word is looked up before the test: with all four after it, as
    // `0..WORDS`, a choice takes a twentieth to a fifteenth longer.
    fn sum(&self, p: Pattern) -> u32
        requires { pattern_number p < 2 ^ length self.now.samples.now }
        ensures { let s = self.now.samples.now in result ≡ marked_sum (λ k. get_or s k 0) (pattern_number p) (length s) }
    {
        let first = word_sum(self.sums, 0, p.words[0]);
        if self.samples.len() <= 64 {
            return first;
        }
        let rest: u32 = (1..WORDS).map(|i| word_sum(self.sums, i, p.words[i])).sum();
        first + rest
    }

    // The layer of the samples below v, a number from 0 to 256: one more than a `u8` holds, and of a `usize` no type says it more plainly.
    fn below_at(&self, v: usize) -> Pattern
        requires { v < 257 }
        ensures { pattern_number result ≡ layer_at self.now.below.now v }
    {
        Pattern {
            words: self.below[v],
        }
    }

    // The samples of a pattern that are below v.
    fn lower(&self, p: Pattern, v: usize) -> Pattern
        requires { v < 257 }
        ensures { pattern_number result ≡ bit_and (pattern_number p) (layer_at self.now.below.now v) }
    {
        p & self.below_at(v)
    }

    // The samples of the block that a pattern does not mark.
    pub(crate) fn others(&self, p: Pattern) -> Pattern
        ensures { pattern_number result ≡ bit_xor (layer_at self.now.below.now 256) (pattern_number p) }
    {
        self.below_at(256) ^ p
    }

    // The part of the samples that a pattern does not mark, and that of those that it marks. Together they have the block's samples and
    // the sum of these.
    #[inline(always)]
    pub(crate) fn parts(&self, marks: Pattern) -> (Part<'a>, Part<'a>)
        requires { pattern_number marks < 2 ^ length self.now.samples.now }
        ensures { let s = self.now.samples.now in
            (result.0.layers.samples.now ≡ s)
            × (pattern_number result.0.marks ≡ bit_xor (layer_at self.now.below.now 256) (pattern_number marks))
            × (result.1.layers.samples.now ≡ s)
            × (result.1.marks ≡ marks) }
    {
        let size = self.count(marks);
        let sum = self.sum(marks);
        let unmarked = Part {
            layers: *self,
            marks: self.others(marks),
            size: self.samples.len() as u32 - size,
            sum: self.total - sum,
        };
        let marked = Part {
            layers: *self,
            marks,
            size,
            sum,
        };
        (unmarked, marked)
    }
}

// A part of a block: its samples as a pattern, how many there are, and their sum.
#[derive(Clone, Copy)]
pub(crate) struct Part<'a> {
    pub layers: Layers<'a>,
    pub marks: Pattern,
    pub size: u32,
    pub sum: u32,
    ghost parted: { let L = layers in
        Parted L.samples.now L.below.now L.sums.now (pattern_number marks) size sum },
}

impl Part<'_> {
    // How many of its samples are below v.
    pub(crate) fn count_below(&self, v: usize) -> u32
        requires { v < 257 }
        ensures { (result ≡ ones (bit_and (pattern_number self.now.marks) (layer_at self.now.layers.below.now v)))
            × (result ≤ greatest_samples) }
    {
        self.layers.count(self.layers.lower(self.marks, v))
    }

    // What it costs where all of its samples are predicted as v: one below v costs v less the sample, any other the sample less v.
    pub(crate) fn cost_at(&self, v: u8) -> u32
        ensures { let s = self.now.layers.samples.now in
            (result ≡ side_cost (length s) s (pattern_number self.now.marks) true v) × (result ≤ 65280) }
    {
        let value = u32::from(v);
        let lower = self.layers.lower(self.marks, usize::from(v));
        let count = self.layers.count(lower);
        let lower_sum = self.layers.sum(lower);
        self.sum + 2 * (value * count) - (2 * lower_sum + value * self.size)
    }
}
