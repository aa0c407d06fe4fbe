// The neighbours of a block, read from the sheet's samples.
ghost use Rattle.std.specs.Prelude.{◌≡◌};
ghost use Rattle.sheet_grid.specs.Counts.{left_count, above_count, top_count, left_first, top_first, counted};
ghost use Rattle.sheet.specs.Runs.{sample_of, beside, neighbour_of, Is};

use crate::spot::{Run, Spot, View};
use pattern::NEIGHBOURS;

impl Run<'_> {
    // Sample i of the run, and past its last that one.
    fn sample(self, i: usize) -> u8
        ensures { result ≡ sample_of self.entry i }
    {
        self.samples[self.first + i.min(self.last) * self.step]
    }
}

// Place i beside a run: where there is none the first sample of the other run stands, or 128.
fn beside(run: Option<Run>, other: Option<Run>, i: usize) -> u8
    ensures { result ≡ beside run.entry other.entry i }
{
    match (run, other) {
        (Some(run), _) => run.sample(i),
        (None, Some(other)) => other.sample(0),
        (None, None) => 128,
    }
}

impl Spot {
    // Neighbour i of the block by its two runs: the left run, then the top run.
    fn neighbour(self, left: Option<Run>, top: Option<Run>, i: usize) -> u8
        ensures { result ≡ neighbour_of self.n left.entry top.entry i }
    {
        if i < 2 * self.n {
            beside(left, top, i)
        } else {
            beside(top, left, i - 2 * self.n)
        }
    }

    // The samples present in the top run of a block with a row above: 2n, and n at the sheet's right edge.
    fn above_count(self) -> usize
        ensures { result ≡ above_count self.n self.width self.x }
    {
        if 2 * self.n <= self.width - self.x {
            2 * self.n
        } else {
            self.n
        }
    }
}

impl<'a> View<'a> {
    // The left run: n samples where there is a block to the left.
    fn left_run(self) -> Option<Run<'a>>
        ensures { let S = self.entry.spot in
            Is result self.entry.samples.now (left_count S.n S.x) (left_first S.width S.x S.y) S.width }
    {
        let spot = self.spot;
        let column = spot.x.checked_sub(1)?;
        Some(Run {
            samples: self.samples,
            first: spot.y * spot.width + column,
            step: spot.width,
            last: spot.n - 1,
        })
    }

    // The top run: the samples of the row above, where there is one.
    fn top_run(self) -> Option<Run<'a>>
        ensures { let S = self.entry.spot in
            Is result self.entry.samples.now (top_count S.n S.width S.x S.y) (top_first S.width S.x S.y) 1 }
    {
        let spot = self.spot;
        let row = spot.y.checked_sub(1)?;
        Some(Run {
            samples: self.samples,
            first: row * spot.width + spot.x,
            step: 1,
            last: spot.above_count() - 1,
        })
    }

    // The 4n neighbours of the block, put at the front of an array that has room for those of the greatest block; `from_fn` would make a
    // second array.
    pub(crate) fn neighbours<'b>(self, near: &'b mut [u8; NEIGHBOURS]) -> &'b [u8]
        ensures { let S = self.entry.spot in
            result.now ≡ counted S.n S.width S.x S.y (left_count S.n S.x) (top_count S.n S.width S.x S.y) self.entry.samples.now }
    {
        let left = self.left_run();
        let top = self.top_run();
        let near = &mut near[..4 * self.spot.n];
        for (i, place) in near.iter_mut().enumerate() {
            *place = self.spot.neighbour(left, top, i);
        }
        near
    }
}
