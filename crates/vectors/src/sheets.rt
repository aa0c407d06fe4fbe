// The calls on sheets: an empty state, records placed in turn, and a sheet composed. Each prints its answer.
use crate::call::Case;
use crate::fields::first;
use crate::output;
use pattern::PatternList;
use sheet::{ComposeInput, MOST_BLOCKS, PlaceInput, Sheet};
use std::io;

impl<'a, P: Print> Case<'a, P> {
    // Prints the numbers of a state.
    fn state(&self, s: Sheet) -> io::Result<()> {
        output::number(self.rt, s.n)?;
        output::number(self.rt, s.width)?;
        output::number(self.rt, s.height)?;
        output::number(self.rt, s.placed)
    }

    // `new N WIDTH HEIGHT`: the state of an empty sheet.
    pub(crate) fn new_sheet(&self) -> io::Result<()> {
        let mut line = self.fields.line();
        let made = Sheet::new(line.short(), line.short(), line.short());
        output::answer(self.rt, made, |s| self.state(s))
    }

    // What the records of a case are placed with. The case and the list are lent for one lifetime, since slices of both stand in it.
    fn place_input(&'a self, words: &'a [u64], count: usize) -> PlaceInput<'a> {
        PlaceInput {
            list: PatternList { words, count },
            table: self.table,
            texture: self.texture,
        }
    }

    // A state after the records of the case are placed in turn; one that is refused leaves it as it is, and its refusal is printed. They
    // are read one after the other, and are no chunks of the line's numbers, since what is missing of a record is 0.
    fn placed(&self, mut s: Sheet, samples: &mut [u8], input: PlaceInput) -> io::Result<Sheet> {
        let mut numbers = self.fields.after(b'r');
        let count = numbers.short() as usize % (MOST_BLOCKS + 1);
        for record in std::iter::repeat_with(|| numbers.record()).take(count) {
            output::answer(self.rt, s.place(samples, input, record), |next| {
                s = next;
                Ok(())
            })?;
        }
        Ok(s)
    }

    // `place N WIDTH HEIGHT PLACED COUNT SHOWN`: the state after the records placed in turn, and the samples.
    pub(crate) fn place(&'a self, words: &'a [u64], samples: &mut [u8]) -> io::Result<()> {
        let mut line = self.fields.line();
        let state = line.sheet();
        let input = self.place_input(words, line.size());
        self.state(self.placed(state, samples, input)?)?;
        output::samples(self.rt, samples, line.number() == 1)
    }

    // `compose N WIDTH HEIGHT PLACED COUNT SHOWN REACH LENT`: the records are placed in turn, then the sheet is composed, with so many
    // records lent, which are 9 8 7 -6 before: the state, the records and the samples.
    pub(crate) fn compose(&'a self, words: &'a [u64], samples: &mut [u8]) -> io::Result<()> {
        let mut line = self.fields.line();
        let state = line.sheet();
        let place = self.place_input(words, line.size());
        let shown = line.number() == 1;
        let input = ComposeInput {
            place,
            original: self.original,
            reach: line.short(),
        };
        let mut space = [[9, 8, 7, -6]; MOST_BLOCKS];
        let records = first(&mut space, line.size());
        let s = self.placed(state, samples, place)?;
        let composed = s.compose(samples, input, records);
        output::answer(self.rt, composed, |composed| {
            self.state(composed.sheet)?;
            output::number(self.rt, composed.written)
        })?;
        let written = composed.map_or(0, |composed| composed.written);
        output::records(self.rt, records, if shown { written } else { 0 })?;
        output::samples(self.rt, samples, shown)
    }
}
