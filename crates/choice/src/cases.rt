// The eight cases of a partition's depth (document 01, "Side depths"), by number: the depth in each is looked up once a block, and its
// place is that number.
ghost use Rattle.std.specs.Prelude.{◌≡◌, true, ◌*◌, ◌<◌, length};
ghost use Rattle.pattern.specs.Words.{pattern_number};
ghost use Rattle.depth_table.specs.Table.{table_ok, index_of};
ghost use Rattle.choice.specs.Cases.{side_case, corner_word, depth_in};
ghost use Rattle.choice.specs.Picked.{CaseIndices};

use depth_table::{DepthIndex, DepthValue};
use pattern::{Pattern, Size};

// The number of the case of partition m of a pattern.
pub(crate) fn side_case(size: Size, p: Pattern, m: bool) -> usize
    ensures { (result ≡ side_case size.n (pattern_number p) m) × (result < 8) }
{
    let n = size.n;
    let origin = p.mark_at(0);
    let other = usize::from(m != origin);
    let v = usize::from(origin != p.mark_at(n - 1));
    let h = usize::from(origin != p.mark_at((n - 1) * n));
    4 * other + (2 * v + h)
}

// What the depths of a block's partitions follow from: the size, the neighbours and the table.
#[derive(Clone, Copy)]
pub(crate) struct Depths<'a> {
    pub size: Size,
    pub border: &'a [u8],
    pub table: &'a [u8],
    ghost bordered: { length border.now ≡ 4 * size.n },
    ghost sound: { table_ok table.now ≡ true },
}

impl Depths<'_> {
    // The first row of a pattern of the case k: it marks (0,0) where h holds, and (n-1,0) where just one of v and h does.
    fn first_row(&self, k: usize) -> u64
        ensures { result ≡ corner_word self.now.size.n k }
    {
        let h = k % 2 == 1;
        let v = k / 2 % 2 == 1;
        (u64::from(v != h) << (self.size.n - 1)) + u64::from(h)
    }

    // The depth in the case k.
    fn in_case(&self, k: usize) -> DepthValue
        ensures { result.0 ≡ depth_in self.now.size.n self.now.border.now k }
    {
        let p = Pattern::of_word(self.first_row(k));
        let depths = prediction::side_depths(self.size.n, p, self.border).unwrap();
        if 4 <= k { depths.br } else { depths.lt }
    }

    // The index of a depth.
    fn index(&self, d: DepthValue) -> DepthIndex
        ensures { result.0 ≡ index_of self.now.table.now d.0 }
    {
        depth_table::nearest_index(self.table, d).unwrap()
    }

    // The index of the depth in each of the eight cases, where the number of a case is its place.
    pub(crate) fn indices(&self) -> [DepthIndex; 8]
        ensures { CaseIndices 8 self.now.size.n self.now.border.now self.now.table.now result }
    {
        std::array::from_fn(|k| self.index(self.in_case(k)))
    }
}
