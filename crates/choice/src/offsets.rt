// The best offset of a part of a block. A part's cost falls up to its median and rises from there, so the best level is next to it.
ghost use Rattle.std.specs.Prelude.{◌≡◌, true, ◌+◌, ◌-◌, ◌*◌, ◌<◌, ◌≤◌, length, get_or};
ghost use Rattle.depth_table.specs.Table.{most_values};
ghost use Rattle.pattern.specs.Words.{pattern_number};
ghost use Rattle.arith.specs.Distance.{dist};
ghost use Rattle.choice.specs.Trial.{tried_by, Better, TrialOf};
ghost use Rattle.choice.specs.Turn.{twice, Turn, Findable, offset_cost, number_to, level_cost};

use crate::parts::Part;
use std::cmp::min_by_key;

// The number of an offset, and what a part costs there.
#[derive(Clone, Copy)]
pub(crate) struct Trial {
    pub number: usize,
    pub cost: u32,
    ghost few: { cost ≤ 65280 },
}

impl Trial {
    // How many offsets are tried for a partition, by the first one of least cost: up to it where it costs 0, else all in reach.
    pub(crate) fn tried(self, reach: usize) -> u32
        requires { (self.number ≤ 510) × (reach ≤ 255) }
        ensures { (result ≡ tried_by self.number self.cost (2 * reach)) × (result ≤ 511) }
    {
        if self.cost == 0 {
            return self.number as u32 + 1;
        }
        2 * reach as u32 + 1
    }
}

// The number of the offset that leads from an index to another one.
fn number_to(from: usize, to: usize) -> usize
    requires { (from ≤ most_values) × (to ≤ most_values) }
    ensures { result ≡ number_to from to }
{
    if from <= to {
        2 * (to - from)
    } else {
        2 * (from - to) - 1
    }
}

// A search for the best offset of a part: the table, the index of the part's depth in it, and the reach. That an index is below the
// table's length stands in the contracts, since a type for it would hold the table too: it is an index of this table.
#[derive(Clone, Copy)]
pub(crate) struct Search<'a> {
    pub part: Part<'a>,
    pub table: &'a [u8],
    pub at: usize,
    pub reach: usize,
    ghost findable: { Findable table.now at reach },
}

// `level`, `better_level`, `best_offset` and `Layers::parts` are inlined: a `Search` or a `Part` that is handed on is stored and loaded
// again, its words by other widths, and a choice then takes a tenth to a quarter longer.
impl Search<'_> {
    // Twice the samples of the part that are below the value at an index, plus 0 or 1.
    fn twice(&self, j: usize, plus: usize) -> u32
        requires { (j < length self.now.table.now) × (plus ≤ 1) }
        ensures { let p = self.now.part in
            (result ≡ twice p.layers.below.now (pattern_number p.marks) self.now.table.now plus j) × (result ≤ 512) }
    {
        2 * self.part.count_below(usize::from(self.table[j]) + plus)
    }

    // Of the indices `from` to `to` - 1 the last one at which `twice` is under the limit, or `from` where there is none, and no `Option`:
    // the better of the levels there and at the next index is taken anyway. It halves by hand, since with the library's `partition_point`
    // the whole search takes a quarter to two fifths longer.
    fn turn(&self, limit: u32, plus: usize, from: usize, to: usize) -> usize
        requires { (plus ≤ 1) × (from < to) × (to < length self.now.table.now) }
        ensures { let p = self.now.part in
            Turn p.layers.below.now (pattern_number p.marks) limit self.now.table.now plus from to result }
    {
        let mut low = from;
        let mut high = to;
        while low + 1 < high {
            let middle = (low + high) / 2;
            if self.twice(middle, plus) < limit {
                low = middle;
            } else {
                high = middle;
            }
        }
        low
    }

    // What the part costs at the value at an index, and the number of the offset that leads there.
    #[inline(always)]
    fn level(&self, j: usize) -> Trial
        requires { j < length self.now.table.now }
        ensures { let p = self.now.part in
            (result.number ≡ number_to self.now.at j)
            × (result.cost ≡ level_cost p.layers.samples.now (pattern_number p.marks) self.now.table.now j) }
    {
        Trial {
            number: number_to(self.at, j),
            cost: self.part.cost_at(self.table[j]),
        }
    }

    // The better of the levels at two indices, the second of them farther from the index of the depth. Where they are next to each other
    // as values too, the farther costs less.
    #[inline(always)]
    fn better_level(&self, near: usize, far: usize) -> Trial
        requires { let T = self.now.table.now in
            (near < length T)
            × (far < length T)
            × (let F = level_cost self.now.part.layers.samples.now (pattern_number self.now.part.marks) T in
            dist (get_or T far 0) (get_or T near 0) ≡ 1 → F far < F near) }
        ensures { let F = level_cost self.now.part.layers.samples.now (pattern_number self.now.part.marks) self.now.table.now in
            let at = self.now.at in
            Better (number_to at near) (F near) (number_to at far) (F far) result.number result.cost }
    {
        let farther = self.level(far);
        if self.table[far].abs_diff(self.table[near]) == 1 {
            return farther;
        }
        min_by_key(self.level(near), farther, |level| level.cost)
    }

    // The first offset of least cost, and its cost. The turn of the cost is found by halving, upward or downward from the index, and the
    // best level is next to it.
    #[inline(always)]
    pub(crate) fn best_offset(&self) -> Trial
        ensures { let p = self.now.part in
            TrialOf (offset_cost p.layers.samples.now (pattern_number p.marks) true self.now.table.now self.now.at) (2 * self.now.reach)
            result.number result.cost }
    {
        let at = self.at;
        let size = self.part.size;
        let last = (at + self.reach).min(self.table.len() - 1);
        let end = at.saturating_sub(self.reach);
        if at < last && self.twice(at, 1) < size {
            let low = self.turn(size, 1, at, last);
            return self.better_level(low, low + 1);
        }
        if end < at && size < self.twice(at, 0) {
            let low = self.turn(size + 1, 0, end, at);
            return self.better_level(low + 1, low);
        }
        self.level(at)
    }
}
