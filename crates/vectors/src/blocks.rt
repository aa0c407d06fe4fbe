// The calls on blocks: side depths, prediction, choice. Each prints its answer.
use crate::call::Case;
use crate::output;
use pattern::PatternList;
use std::io;

impl<P: Print> Case<'_, P> {
    // `sides N W0 W1 W2 W3`: the side depths of a block with this border.
    pub(crate) fn sides(&self) -> io::Result<()> {
        let mut line = self.fields.line();
        let depths = prediction::side_depths(line.size(), line.pattern(), self.border);
        output::answer(self.rt, depths, |depths| {
            output::number(self.rt, depths.lt.0)?;
            output::number(self.rt, depths.br.0)
        })
    }

    // `predict N W0 W1 W2 W3 OFF0 OFF1`: the number of marks, and the lent block after the call.
    pub(crate) fn predict(&self, block: &mut [u8]) -> io::Result<()> {
        let mut line = self.fields.line();
        let input = prediction::Input {
            n: line.size(),
            pattern: line.pattern(),
            border: self.border,
            table: self.table,
            off0: line.signed(),
            off1: line.signed(),
        };
        let marks = prediction::predict(input, block);
        output::answer(self.rt, marks, |marks| output::number(self.rt, marks))?;
        output::samples(self.rt, block, true)
    }

    // `choose N COUNT REACH`: the record of least cost, its cost, and how many offsets were tried.
    pub(crate) fn choose(&self, words: &[u64]) -> io::Result<()> {
        let mut line = self.fields.line();
        let input = choice::Input {
            n: line.size(),
            list: PatternList {
                words,
                count: line.size(),
            },
            border: self.border,
            original: self.original,
            table: self.table,
            reach: line.short(),
            texture: self.texture,
        };
        output::answer(self.rt, choice::choose(input), |chosen| {
            output::number(self.rt, chosen.record.kind)?;
            output::number(self.rt, chosen.record.entry)?;
            output::number(self.rt, chosen.record.off0)?;
            output::number(self.rt, chosen.record.off1)?;
            output::number(self.rt, chosen.cost)?;
            output::number(self.rt, chosen.tried)
        })
    }
}
