// One block of a sheet's samples: cut out, and put. `cut` is as `block_by` of the crate `block`, and `put` as its `put_samples`, but in
// rows of the sheet: one function for both would be public there, with a width and a place beside n in its contract.
ghost use Rattle.std.specs.Prelude.{◌≡◌, ◌+◌, ◌*◌, ◌<◌, ◌≤◌, cond, length, get_or, []};
ghost use Rattle.arith.specs.Lists.{upto};
ghost use Rattle.block.specs.Block as rows;
ghost use Rattle.block.specs.Block.{capacity};
ghost use Rattle.pattern.specs.Answer.{textured};
ghost use Rattle.sheet_grid.specs.Samples as grid;
ghost use Rattle.sheet_grid.specs.Samples.{written, cut_block};

use crate::spot::{Spot, View};
use block::{Block, CAPACITY, write_block};
use pattern::SAMPLES;

impl View<'_> {
    // Row r of the block.
    fn row(self, r: usize) -> [u8; CAPACITY]
        requires { r < self.spot.n }
        ensures { let S = self.entry.spot in
            result ≡ upto capacity S.n (λ i. get_or self.entry.samples.now ((S.y + r) * S.width + S.x + i) 0) 0 }
    {
        let Spot { n, width, x, y, .. } = self.spot;
        let at = (y + r) * width + x;
        let mut row = [0u8; CAPACITY];
        row[..n].copy_from_slice(&self.samples[at..at + n]);
        row
    }

    // The block of the samples.
    fn cut(self) -> Block
        ensures { let S = self.entry.spot in result ≡ cut_block S.n S.width S.x S.y self.entry.samples.now }
    {
        let mut b = [[0u8; CAPACITY]; CAPACITY];
        for (r, row) in b[..self.spot.n].iter_mut().enumerate() {
            *row = self.row(r);
        }
        b
    }

    // Its samples row by row, put at the front of an array that has room for those of the greatest block.
    fn cut_samples<'b>(self, own: &'b mut [u8; SAMPLES]) -> &'b [u8]
        ensures { let S = self.entry.spot in result.now ≡ grid.cut S.n S.width S.x S.y self.entry.samples.now }
    {
        let n = self.spot.n;
        let own = &mut own[..n * n];
        write_block(n, self.cut(), own).unwrap();
        own
    }
}

impl Spot {
    // The block's own part of samples that are lent, put at the front of an array; none where none are lent.
    pub(crate) fn part<'b>(self, whole: &[u8], own: &'b mut [u8; SAMPLES]) -> &'b [u8]
        requires { 0 < length whole.now → (self.y + self.n) * self.width ≤ length whole.now }
        ensures { result.now ≡ cond (textured whole.now) (grid.cut self.n self.width self.x self.y whole.now) [] }
    {
        if whole.is_empty() {
            return &own[..0];
        }
        View {
            spot: self,
            samples: whole,
        }
        .cut_samples(own)
    }

    // Puts a block. That it lies inside the samples is a clause, as at `Drawing`: they are a `&mut` slice.
    pub(crate) fn put(self, samples: &mut [u8], b: Block)
        requires { (self.y + self.n) * self.width ≤ length samples.old }
        ensures { samples.new ≡ written self.n self.width self.x self.y (rows.samples_of self.n b) samples.old }
    {
        let n = self.n;
        for (r, row) in b[..n].iter().enumerate() {
            let at = (self.y + r) * self.width + self.x;
            samples[at..at + n].copy_from_slice(&row[..n]);
        }
    }
}
