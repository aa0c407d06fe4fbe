// The best offsets of a pattern, and the pattern of least cost.
ghost use Rattle.std.specs.Prelude.{◌≡◌, true, ◌⊎◌, ◌+◌, ◌*◌, ◌<◌, ◌≤◌, length, option_map};
ghost use Rattle.pattern.specs.Answer.{samples_refusal};
ghost use Rattle.pattern.specs.Words.{pattern_number};
ghost use Rattle.choice.specs.Case.{reach_in_use, case_in};
ghost use Rattle.choice.specs.Refusal.{choose_refusal};
ghost use Rattle.choice.specs.Search.{contour_lent, pattern_at, last_pattern, tried_at};
ghost use Rattle.choice.specs.Picked.{index_at, CaseIndices, SidesOf, PickedOf};

use crate::Input;
use crate::cases::{Depths, side_case};
use crate::layers::put_below;
use crate::offsets::Search;
use crate::parts::{Layers, Part};
use crate::sums::put_sums;
use depth_table::DepthIndex;
use pattern::{Pattern, Size, WORDS};
use std::cmp::min_by_key;

// The contour of the texture, where there is one.
fn contour(n: usize, texture: &[u8]) -> Option<Pattern>
    requires { (length texture.now ≡ 0) ⊎ (samples_refusal n (length texture.now) ≡ 0) }
    ensures { option_map pattern_number result ≡ contour_lent n texture.now }
{
    pattern::contour(n, texture).ok()
}

// What a search of one pattern or more finds: the number of the first one of least cost, those of its offsets, its cost, and how many
// offsets were tried for all of them.
#[derive(Clone, Copy)]
pub(crate) struct Picked {
    pub number: usize,
    pub trial0: usize,
    pub trial1: usize,
    pub cost: u32,
    pub tried: u32,
}

// A block made ready for the search: what is chosen from, the size, the reach in use, the contour, the layers and sums of the samples, and
// the index of the depth in each of the eight cases.
#[derive(Clone, Copy)]
struct Block<'a> {
    input: Input<'a>,
    size: Size,
    reach: usize,
    contour: Option<Pattern>,
    layers: Layers<'a>,
    indices: [DepthIndex; 8],
    ghost passes: { choose_refusal (case_in input) ≡ 0 },
    ghost sized: { size.n ≡ input.n },
    ghost used: { reach ≡ reach_in_use (case_in input) },
    ghost outline: { option_map pattern_number contour ≡ contour_lent input.n input.texture.now },
    ghost sampled: { layers.samples.now ≡ input.original.now },
    ghost index_at: { CaseIndices 8 input.n input.border.now input.table.now indices },
}

impl<'a> Block<'a> {
    // The pattern with a number: the entry, and past the last entry the contour, whose number is the count. It is a number, and not an
    // enum of entry and contour, since the order between patterns of one cost compares numbers, and the contour comes last in it.
    fn pattern_at(&self, number: usize) -> Pattern
        requires { number ≤ last_pattern (case_in self.now.input) }
        ensures { pattern_number result ≡ pattern_at (case_in self.now.input) number }
    {
        let list = self.input.list;
        if number < list.count {
            return list.pattern_at(self.input.n, number);
        }
        self.contour.unwrap()
    }

    // How many patterns there are: the entries, and the contour where texture is lent.
    fn patterns(&self) -> usize
        ensures { (result ≡ last_pattern (case_in self.now.input) + 1) × (result ≤ 10000) }
    {
        let count = self.input.list.count;
        if self.contour.is_some() {
            count + 1
        } else {
            count
        }
    }

    // The search for the best offset of a part, where the depth of its partition is that of a case.
    fn search(&self, part: Part<'a>, case: usize) -> Search<'a>
        requires { case < 8 }
        ensures { let b = self.now in
            (result.part ≡ part.entry)
            × (result.table.now ≡ b.input.table.now)
            × (result.at ≡ index_at b.indices case)
            × (result.reach ≡ b.reach) }
    {
        Search {
            part,
            table: self.input.table,
            at: self.indices[case].0,
            reach: self.reach,
        }
    }

    // The best offset of each partition of the pattern with a number, the cost of both, and how many offsets were tried for both.
    fn weigh(&self, number: usize) -> Picked
        requires { number ≤ last_pattern (case_in self.now.input) }
        ensures { let C = case_in self.now.input in
            (result.number ≡ number)
            × SidesOf C (pattern_at C number) result.trial0 result.trial1 result.cost
            × (result.tried ≡ tried_at C (pattern_at C number)) }
    {
        let marks = self.pattern_at(number);
        let k = side_case(self.size, marks, false);
        let (part0, part1) = self.layers.parts(marks);
        let unmarked = self.search(part0, k).best_offset();
        let marked = self.search(part1, (k + 4) % 8).best_offset();
        let tried0 = unmarked.tried(self.reach);
        let tried1 = marked.tried(self.reach);
        Picked {
            number,
            trial0: unmarked.number,
            trial1: marked.number,
            cost: unmarked.cost + marked.cost,
            tried: tried0 + tried1,
        }
    }
}

// The first pattern of least cost, and how many offsets were tried for all patterns. It is not inlined, so that its arrays take stack only
// while it runs, and not while a caller builds the list first.
#[inline(never)]
pub(crate) fn best_pattern(input: Input) -> Picked
    requires { choose_refusal (case_in input) ≡ 0 }
    ensures { PickedOf (case_in input.entry) result.number result.trial0 result.trial1 result.cost result.tried }
{
    let mut below = [[0; WORDS]; 257];
    put_below(input.original, &mut below);
    let mut sums = [[0; 256]; 32];
    put_sums(input.original, &mut sums);
    let size = Size::try_from(input.n).unwrap();
    let depths = Depths {
        size,
        border: input.border,
        table: input.table,
    };
    let block = Block {
        input,
        size,
        reach: (input.reach as usize).min(input.table.len() - 1),
        contour: contour(input.n, input.texture),
        layers: Layers::new(input.original, &below, &sums),
        indices: depths.indices(),
    };
    let end = block.patterns();
    let mut best = block.weigh(0);
    // The patterns are run over by number, and not as a list, since the contour comes after the list's entries. It is no `fold`: that the
    // counts of offsets add up without overflow follows from all patterns before, as the loop's invariant says, and for a closure it would
    // take lemmas of its own.
    for number in 1..end {
        let next = block.weigh(number);
        let tried = best.tried + next.tried;
        best = Picked {
            tried,
            ..min_by_key(best, next, |picked| picked.cost)
        };
    }
    best
}
