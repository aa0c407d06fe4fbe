// The depths of the two partitions of a pattern, from the neighbours of its block.
ghost use Rattle.std.specs.Prelude.{◌≡◌, false, cond, ◌*◌, ◌≤◌, ◌<◌, length};
ghost use Rattle.arith.specs.Bits.{test_bit};
ghost use Rattle.pattern.specs.Refusal.{told};
ghost use Rattle.pattern.specs.Size.{greatest_size};
ghost use Rattle.pattern.specs.Words.{pattern_number, used_number};
ghost use Rattle.prediction.specs.Sides.{left_at, top_at, differ, mean, lt_by, br_by, lt, br};
ghost use Rattle.prediction.specs.SideAnswer.{sides_answer, both_depths};

use crate::SideDepths;
use depth_table::DepthValue;
use pattern::{Pattern, Refusal, check, size_ok};

// The neighbours of an n by n block: the left run of 2n samples, downward, then the top run of 2n, rightward. n is a number and no `Size`,
// since what `Input::values` asks (`Predictable`) knows only bounds of n: the call judged n by `size_ok`.
#[derive(Clone, Copy)]
pub(crate) struct Neighbours<'a> {
    pub(crate) n: usize,
    pub(crate) samples: &'a [u8],
    ghost some: { 1 ≤ n },
    ghost high: { n ≤ greatest_size },
    ghost two_runs: { length samples.now ≡ 4 * n },
}

// Whether the marks of (0,0) and of the sample at another corner differ: there is an edge between them.
fn edge(p: Pattern, corner: usize) -> bool
    ensures { let w = pattern_number p in result ≡ differ (test_bit w 0) (test_bit w corner) }
{
    p.mark_at(0) != p.mark_at(corner)
}

impl<'a> Neighbours<'a> {
    // Sample i of the left run.
    fn left(self, i: usize) -> u8
        requires { i < 2 * self.n }
        ensures { result ≡ left_at self.entry.samples.now i }
    {
        self.samples[i]
    }

    // Sample i of the top run.
    fn top(self, i: usize) -> u8
        requires { i < 2 * self.n }
        ensures { result ≡ top_at self.entry.n self.entry.samples.now i }
    {
        self.samples[2 * self.n + i]
    }

    // The mean of sample i of both runs, rounded down.
    fn mean_at(self, i: usize) -> u8
        requires { i < self.n }
        ensures { let S = self.entry in result ≡ mean (left_at S.samples.now i) (top_at S.n S.samples.now i) }
    {
        self.left(i).midpoint(self.top(i))
    }

    // The depth of the side that holds (0,0), by whether the upper right (v) and the lower left corner (h) have another mark than (0,0).
    #[tactic(auto, unfolding(crate::specs::Sides::lt_by))]
    fn lt(self, v: bool, h: bool) -> u8
        ensures { let S = self.entry in result ≡ lt_by S.n S.samples.now v h }
    {
        let middle = (self.n - 1) / 2;
        match (v, h) {
            (true, false) => self.left(middle),
            (false, true) => self.top(middle),
            (true, true) | (false, false) => self.mean_at(0),
        }
    }

    // The end of the run that changes more, and of the top run where both change as much.
    #[tactic(auto, unfolding(crate::specs::Sides::br_by))]
    fn far_end(self) -> u8
        ensures { let S = self.entry in result ≡ br_by S.n S.samples.now false false }
    {
        let end = 2 * self.n - 1;
        let left_change = self.left(0).abs_diff(self.left(end));
        let top_change = self.top(0).abs_diff(self.top(end));
        if top_change < left_change {
            self.left(end)
        } else {
            self.top(end)
        }
    }

    // The depth of the other side, by v and h.
    #[tactic(auto, unfolding(crate::specs::Sides::br_by))]
    fn br(self, v: bool, h: bool) -> u8
        ensures { let S = self.entry in result ≡ br_by S.n S.samples.now v h }
    {
        let last = self.n - 1;
        match (v, h) {
            (true, true) => self.mean_at(last),
            (true, false) => self.top(last),
            (false, true) => self.left(last),
            (false, false) => self.far_end(),
        }
    }

    // The depths of both sides of a pattern.
    pub(crate) fn sides(self, p: Pattern) -> SideDepths
        ensures of_lt { let S = self.entry in result.lt.0 ≡ lt S.n (pattern_number p) S.samples.now }
        ensures of_br { let S = self.entry in result.br.0 ≡ br S.n (pattern_number p) S.samples.now }
    {
        let last = self.n - 1;
        let v = edge(p, last);
        let h = edge(p, last * self.n);
        SideDepths {
            lt: DepthValue(self.lt(v, h)),
            br: DepthValue(self.br(v, h)),
        }
    }
}

impl SideDepths {
    // The depth of the samples with the mark m, lt where (0,0) has it too.
    pub(crate) fn of_mark(self, m: bool, origin: bool) -> DepthValue
        ensures { result.0 ≡ cond (differ m origin) self.br.0 self.lt.0 }
    {
        if m == origin { self.lt } else { self.br }
    }
}

// lt and br of the words of p that the size uses, or refusal 1, 2 or 5.
#[tactic(auto, unfolding(crate::specs::SideAnswer::sides_answer, crate::specs::SideAnswer::sides_refusal))]
pub fn side_depths(n: usize, p: Pattern, border: &[u8]) -> Result<SideDepths, Refusal>
    ensures { told both_depths result ≡ sides_answer n (used_number n p) border.now }
{
    let used = p.used(n);
    check(size_ok(n), Refusal::Size)?;
    check(border.len() == 4 * n, Refusal::Length)?;
    check(used.fits(n), Refusal::Pattern)?;
    let neighbours = Neighbours { n, samples: border };
    Ok(neighbours.sides(used))
}
