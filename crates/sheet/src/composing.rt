// Composing: every block still missing is chosen and placed. A u32 or a u64 becomes a usize, and a usize a u64, by `as`: std has no `From`
// between them.
ghost use Rattle.std.specs.Prelude.{◌≡◌, length};
ghost use Rattle.arith.specs.Checks.{answer};
ghost use Rattle.pattern.specs.Refusal.{told};
ghost use Rattle.choice.specs.Answer.{choose_answer, chosen_values};
ghost use Rattle.sheet.specs.State.{area, finished};
ghost use Rattle.sheet.specs.Place.{Fits};
ghost use Rattle.sheet.specs.Compose.{missing, compose_lengths_ok, compose_case, composed_next, choice_refusal, Ready, Leaves};
ghost use Rattle.sheet.specs.Compose.{compose_answer, compose_after, compose_records};
ghost use Rattle.sheet.specs.Told.{material_in, task_in, composed_values};

use crate::spot::Room;
use crate::{ComposeInput, Composed, Sheet};
use choice::Choice;
use pattern::{Refusal, check};

impl Sheet {
    // Chooses the record of the next block, and draws it from the neighbours and the texture that it was chosen for. `Fits` is a clause,
    // as at `Drawing`: the samples are a `&mut` slice.
    fn compose_next(self, samples: &mut [u8], input: ComposeInput) -> Result<Choice, Refusal>
        requires fits { Fits self (material_in self.n input.place) (length samples.old) }
        requires whole { length input.original.now ≡ area self }
        ensures answered { let T = task_in self.n input.entry in
            told chosen_values result ≡ choose_answer (compose_case self T samples.old) }
        ensures left { let T = task_in self.n input.entry in samples.new ≡ composed_next self T samples.old }
    {
        let mut room = Room::new();
        self.next_drawing(samples, input, &mut room).choose(samples)
    }

    // Chooses, places and records every missing block in turn. The choice for the first block is refused where any would be. The samples
    // and the records stand beside each other and in no struct, as at `Drawing`: they are `&mut` slices.
    fn compose_missing(
        mut self,
        samples: &mut [u8],
        input: ComposeInput,
        records: &mut [[i32; 4]],
    ) -> Result<Composed, Refusal>
        requires { let T = task_in self.n input in Ready self T (length samples.old) (length records.old) }
        ensures answered { let T = task_in self.n input.entry in
            told composed_values result ≡ answer (choice_refusal self T) (finished self, missing self) }
        ensures left { let T = task_in self.n input.entry in
            Leaves (choice_refusal self T) self T samples.old samples.new records.old records.new }
    {
        let first = self.placed as usize;
        let last = self.blocks() as usize;
        for record in records[..last - first].iter_mut() {
            *record = self.compose_next(samples, input)?.record.into();
            self.placed += 1;
        }
        Ok(Composed {
            sheet: self,
            written: last - first,
        })
    }

    // Whether what is lent to composing fits the sheet, with a record for each block.
    #[tactic(auto, unfolding(crate::specs::Compose::compose_lengths_ok))]
    fn compose_lengths_ok(self, samples: usize, input: ComposeInput, records: usize) -> bool
        ensures { let T = task_in self.n input.entry in let M = T.material in
            result ≡ compose_lengths_ok self samples (length M.list) M.count (length M.texture) (length T.original) records }
    {
        self.lengths_ok(samples, input.place)
            && input.original.len() == self.area()
            && self.blocks() <= records as u64
    }

    // Chooses and places every block still missing, in sheet order, and writes their records from the first lent one on. Answers the
    // finished state and how many records were written, or refuses with 1, 2, 8, 23, 20, 3, 5, 4 or 10 and alters nothing.
    pub fn compose(
        self,
        samples: &mut [u8],
        input: ComposeInput,
        records: &mut [[i32; 4]],
    ) -> Result<Composed, Refusal>
        ensures answered { let T = task_in self.n input.entry in
            told composed_values result ≡ compose_answer self samples.old T (length records.old) }
        ensures left { let T = task_in self.n input.entry in
            samples.new ≡ compose_after self samples.old T (length records.old) }
        ensures recorded { let T = task_in self.n input.entry in
            records.new ≡ compose_records self samples.old T records.old }
    {
        self.check_open(self.compose_lengths_ok(samples.len(), input, records.len()))?;
        check(depth_table::is_table(input.place.table), Refusal::Table)?;
        self.compose_missing(samples, input, records)
    }
}
