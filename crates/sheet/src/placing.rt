// Placing a record.
ghost use Rattle.std.specs.Prelude.{◌≡◌, true, length, ◌*◌, ◌<◌};
ghost use Rattle.arith.specs.Checks.{lent};
ghost use Rattle.depth_table.specs.Table.{some_value};
ghost use Rattle.pattern.specs.Refusal.{refusal_in, told};
ghost use Rattle.sheet.specs.Place.{Fits, material_refusal, placed_samples, place_answer_by, place_after_by};
ghost use Rattle.sheet.specs.Place.{place_answer, place_after, place_values_answer, place_values_after};
ghost use Rattle.sheet.specs.Told.{material_in};

use crate::spot::Room;
use crate::{ComposeInput, PlaceInput, Sheet};
use pattern::{Refusal, check};
use record::Record;

impl Sheet {
    // Draws a record in the next place, or refuses it with 7, 21, 6, 5, 4 or 24. No original samples and no reach are read: none and 0
    // stand for them, as in the definition `place_case`, and an `Option` would only be made these again. `Fits` is a clause, as at
    // `Drawing`: the samples are a `&mut` slice.
    fn draw_next(self, samples: &mut [u8], input: PlaceInput, r: Record) -> Result<(), Refusal>
        requires { Fits self (material_in self.n input) (length samples.old) }
        ensures number { let M = material_in self.n input.entry in refusal_in result ≡ material_refusal self M r }
        ensures left { let M = material_in self.n input.entry in let s = samples.old in
            samples.new ≡ lent (material_refusal self M r) (placed_samples self M s r) s }
    {
        let task = ComposeInput {
            place: input,
            original: &[],
            reach: 0,
        };
        let mut room = Room::new();
        self.next_drawing(samples, task, &mut room).draw(samples, r)
    }

    // Places a record where no check fails; `asked` is whether the table is as it has to be. `place` and `place_from_values` promise
    // different things of a table and are the same past it; the verdict is a bool, since this contract, for both, speaks of it.
    fn place_where(
        mut self,
        asked: bool,
        samples: &mut [u8],
        input: PlaceInput,
        r: Record,
    ) -> Result<Sheet, Refusal>
        requires { asked ≡ true → some_value input.table.now ≡ true }
        ensures answered { let M = material_in self.n input.entry in told (λ S. S) result ≡ place_answer_by asked self samples.old M r }
        ensures left { let M = material_in self.n input.entry in samples.new ≡ place_after_by asked self samples.old M r }
    {
        self.check_open(self.lengths_ok(samples.len(), input))?;
        check(asked, Refusal::Table)?;
        self.draw_next(samples, input, r)?;
        self.placed += 1;
        Ok(self)
    }

    // Places a record: puts its predicted block in the next place and answers the next state, or refuses with 1, 2, 8, 23, 20, 3, 7, 21,
    // 6, 5, 4 or 24 and alters nothing.
    pub fn place(self, samples: &mut [u8], input: PlaceInput, r: Record) -> Result<Sheet, Refusal>
        ensures answered { let M = material_in self.n input.entry in told (λ S. S) result ≡ place_answer self samples.old M r }
        ensures left { let M = material_in self.n input.entry in samples.new ≡ place_after self samples.old M r }
    {
        let sound = depth_table::is_table(input.table);
        self.place_where(sound, samples, input, r)
    }

    // The same with any values, rising or not, so that many records can be placed with a table that was judged once: 3 is given only
    // where there is no value.
    pub fn place_from_values(
        self,
        samples: &mut [u8],
        input: PlaceInput,
        r: Record,
    ) -> Result<Sheet, Refusal>
        ensures answered { let M = material_in self.n input.entry in told (λ S. S) result ≡ place_values_answer self samples.old M r }
        ensures left { let M = material_in self.n input.entry in samples.new ≡ place_values_after self samples.old M r }
    {
        self.place_where(!input.table.is_empty(), samples, input, r)
    }
}
