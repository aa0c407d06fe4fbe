// Drawing a record: its predicted block, put in its place; and choosing the record that is drawn.
ghost use Rattle.std.specs.Prelude.{◌≡◌, ◌+◌, ◌*◌, ◌≤◌, true, length};
ghost use Rattle.arith.specs.Checks.{lent};
ghost use Rattle.pattern.specs.Refusal.{refusal_in, told};
ghost use Rattle.pattern.specs.Size.{size_ok};
ghost use Rattle.pattern.specs.Words.{pattern_number};
ghost use Rattle.prediction.specs.Block.{predicted};
ghost use Rattle.choice.specs.Answer.{choose_answer, chosen_values};
ghost use Rattle.choice.specs.Case.{case_in};
ghost use Rattle.choice.specs.Record.{prediction_of};
ghost use Rattle.block.specs.Block.{samples_of};
ghost use Rattle.sheet_grid.specs.Samples.{written};
ghost use Rattle.sheet.specs.Place.{Drawable, draw_refusal};
ghost use Rattle.sheet.specs.Compose.{chosen_block};

use crate::spot::Drawing;
use block::{Block, CAPACITY, block_of};
use choice::Choice;
use pattern::{Pattern, Refusal, SAMPLES};
use prediction::predict_from_values;
use record::{Meaning, Record, Setting};

impl Drawing<'_> {
    // The predicted block of a pattern with the offsets of a record that can be drawn.
    fn predicted_block(self, pattern: Pattern, r: Record) -> Block
        requires { let C = self.case in Drawable C.n (pattern_number pattern) C.table.now r.off0 r.off1 }
        ensures { let C = self.entry.case in
            samples_of C.n result ≡ predicted C.n (pattern_number pattern) C.border.now C.table.now r.off0 r.off1 }
    {
        let n = self.case.n;
        let input = prediction::Input {
            n,
            pattern,
            border: self.case.border,
            table: self.case.table,
            off0: r.off0,
            off1: r.off1,
        };
        let mut own = [0u8; SAMPLES];
        let own = &mut own[..n * n];
        predict_from_values(input, own).unwrap();
        let mut b = [[0u8; CAPACITY]; CAPACITY];
        block_of(n, own, &mut b).unwrap();
        b
    }

    // Puts the predicted block of a record at the spot; or refuses with 7, 21, 6, 5, 4 or 24 and puts nothing.
    pub(crate) fn draw(self, samples: &mut [u8], r: Record) -> Result<(), Refusal>
        requires { let S = self.spot in (S.y + S.n) * S.width ≤ length samples.old }
        ensures number { refusal_in result ≡ draw_refusal (case_in self.entry.case) r }
        ensures left { let S = self.entry.spot in let C = case_in self.entry.case in
            samples.new ≡ lent (draw_refusal C r) (written C.n S.width S.x S.y (prediction_of C r) samples.old) samples.old }
    {
        let case = self.case;
        let setting = Setting {
            n: case.n,
            list: case.list,
            textured: !case.texture.is_empty(),
            values: case.table.len(),
        };
        let pattern = match setting.meaning_of(r)? {
            Meaning::Listed(p) => p,
            Meaning::Contour => pattern::contour(case.n, case.texture)?,
        };
        let b = self.predicted_block(pattern, r);
        self.spot.put(samples, b);
        Ok(())
    }

    // Chooses the record of least cost for the block and draws it; or refuses as the choice does, and draws nothing.
    pub(crate) fn choose(self, samples: &mut [u8]) -> Result<Choice, Refusal>
        requires { let S = self.spot in (S.y + S.n) * S.width ≤ length samples.old }
        ensures answered { told chosen_values result ≡ choose_answer (case_in self.entry.case) }
        ensures left { let S = self.entry.spot in let C = case_in self.entry.case in
            samples.new ≡ chosen_block C.n S.width S.x S.y C samples.old }
    {
        let choice = choice::choose(self.case)?;
        self.draw(samples, choice.record).unwrap();
        Ok(choice)
    }
}
