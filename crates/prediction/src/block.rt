// The predicted block.
ghost use Rattle.std.specs.Prelude.{◌≡◌, true, false, cond, length};
ghost use Rattle.arith.specs.Bits.{test_bit};
ghost use Rattle.arith.specs.Checks.{answer};
ghost use Rattle.arith.specs.Lists.{list_of};
ghost use Rattle.depth_table.specs.Table.{some_value};
ghost use Rattle.depth_table.specs.Offset.{offset_ok, level_of};
ghost use Rattle.pattern.specs.Refusal.{told};
ghost use Rattle.pattern.specs.Words.{pattern_number, used_number};
ghost use Rattle.prediction.specs.Block.{sample_of};
ghost use Rattle.prediction.specs.Answer.{Predictable, predict_refusal_by, predict_answer_by, predict_block_by};
ghost use Rattle.prediction.specs.Answer.{predict_answer, predict_block, predict_values_answer, predict_values_block};

use crate::Input;
use crate::sides::Neighbours;
use depth_table::{DepthValue, check_offsets, is_table, nearest_index, value_at};
use pattern::{Pattern, Refusal, WORDS, check, size_ok};

// Each sample takes v1 where it is marked, v0 where not. The marks are taken off a word one by one, and the next word is read for every
// 64 samples. The values are looked up, as a branch on the mark is guessed wrong where marks alternate.
fn paint(p: Pattern, v1: u8, v0: u8, block: &mut [u8])
    ensures { block.new ≡ list_of (λ k. cond (test_bit (pattern_number p) k) v1 v0) (length block.old) }
{
    let values = [v0, v1];
    let mut word = 0;
    for (k, sample) in block.iter_mut().enumerate() {
        if k % 64 == 0 {
            word = if k / 64 < WORDS { p.words[k / 64] } else { 0 };
        }
        *sample = values[(word % 2) as usize];
        word /= 2;
    }
}

// The table value at a depth's index plus an offset.
#[tactic(auto, unfolding(depth_table::specs::Answer::nearest_answer, depth_table::specs::Answer::value_answer))]
fn level(table: &[u8], d: DepthValue, off: i32) -> u8
    requires { (some_value table.now ≡ true) × (offset_ok off ≡ true) }
    ensures { result ≡ level_of table.now d.0 off }
{
    let index = nearest_index(table, d).unwrap();
    value_at(table, index, off).unwrap().0
}

impl<'a> Input<'a> {
    // Refuses what no block of so many samples is predicted from; `asked` is whether the table is as it has to be: 1, 2, 3, 5, 4, 24.
    // `asked` comes as a value, as in the definition (`predict_refusal_by`): the two public calls ask different things of the table.
    #[tactic(auto, unfolding(crate::specs::Answer::predict_refusal_by, crate::specs::Answer::lengths_ok))]
    fn check_all(self, asked: bool, samples: usize) -> Result<(), Refusal>
        ensures { let I = self.entry in told (λ passed. passed) result ≡ answer (predict_refusal_by
            asked I.n (pattern_number I.pattern) (length I.border.now) (length I.table.now) I.off0 I.off1 samples) tt }
    {
        let n = self.n;
        check(size_ok(n), Refusal::Size)?;
        check(
            self.border.len() == 4 * n && samples == n * n,
            Refusal::Length,
        )?;
        check(asked, Refusal::Table)?;
        check(self.pattern.fits(n), Refusal::Pattern)?;
        check_offsets(self.table.len(), self.off0, self.off1)
    }

    // The values of marked and of unmarked samples: each takes the depth of its side, and the offset of its mark.
    fn values(self) -> (u8, u8)
        requires { Predictable self.n self.border.now self.table.now self.off0 self.off1 }
        ensures of_marked { let I = self.entry in result.0 ≡ sample_of
            I.n (pattern_number I.pattern) I.border.now I.table.now I.off0 I.off1 true }
        ensures of_others { let I = self.entry in result.1 ≡ sample_of
            I.n (pattern_number I.pattern) I.border.now I.table.now I.off0 I.off1 false }
    {
        let neighbours = Neighbours {
            n: self.n,
            samples: self.border,
        };
        let sides = neighbours.sides(self.pattern);
        let origin = self.pattern.mark_at(0);
        let marked = sides.of_mark(true, origin);
        let unmarked = sides.of_mark(false, origin);
        (
            level(self.table, marked, self.off1),
            level(self.table, unmarked, self.off0),
        )
    }

    // Writes the predicted block where no check fails and answers the number of marks; `asked` is whether the table is as it has to be.
    fn predict_where(mut self, asked: bool, block: &mut [u8]) -> Result<u32, Refusal>
        requires { asked ≡ true → some_value self.table.now ≡ true }
        ensures answered { let I = self.entry in told (λ marks. marks) result ≡ predict_answer_by
            asked I.n (used_number I.n I.pattern) I.border.now I.table.now I.off0 I.off1 (length block.old) }
        ensures written { let I = self.entry in block.new ≡ predict_block_by
            asked I.n (used_number I.n I.pattern) I.border.now I.table.now I.off0 I.off1 block.old }
    {
        self.pattern = self.pattern.used(self.n);
        self.check_all(asked, block.len())?;
        let (v1, v0) = self.values();
        paint(self.pattern, v1, v0, block);
        Ok(self.pattern.marks())
    }
}

// Writes the predicted block of n * n samples and answers the number of marks, or refuses with 1, 2, 3, 5, 4 or 24 and writes nothing.
// Up to 8 by 8 the pattern is its first word; the others are not read.
pub fn predict(input: Input, block: &mut [u8]) -> Result<u32, Refusal>
    ensures answered { let I = input.entry in told (λ marks. marks) result
        ≡ predict_answer I.n (used_number I.n I.pattern) I.border.now I.table.now I.off0 I.off1 (length block.old) }
    ensures written { let I = input.entry in block.new
        ≡ predict_block I.n (used_number I.n I.pattern) I.border.now I.table.now I.off0 I.off1 block.old }
{
    let sound = is_table(input.table);
    input.predict_where(sound, block)
}

// The same from any values, rising or not, so that many blocks can be predicted from a table that was judged once: 3 is given only where
// there is no value.
pub fn predict_from_values(input: Input, block: &mut [u8]) -> Result<u32, Refusal>
    ensures answered { let I = input.entry in told (λ marks. marks) result
        ≡ predict_values_answer I.n (used_number I.n I.pattern) I.border.now I.table.now I.off0 I.off1 (length block.old) }
    ensures written { let I = input.entry in block.new
        ≡ predict_values_block I.n (used_number I.n I.pattern) I.border.now I.table.now I.off0 I.off1 block.old }
{
    let some = !input.table.is_empty();
    input.predict_where(some, block)
}
