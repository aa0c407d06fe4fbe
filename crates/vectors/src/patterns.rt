// The calls on tables and patterns: index of a depth, marks, contour, wedgelet list. Each prints its answer.
use crate::call::Case;
use crate::output;
use depth_table::DepthValue;
use std::io;

impl<P: Print> Case<'_, P> {
    // `index DEPTH`: the index of a depth in the table.
    pub(crate) fn index(&self) -> io::Result<()> {
        let depth = DepthValue((self.fields.line().number() % 256) as u8);
        output::answer(self.rt, depth_table::index_of(self.table, depth), |index| {
            output::number(self.rt, index.0)
        })
    }

    // `marks K W0 W1 W2 W3`: the number of marks, and whether sample k is marked.
    pub(crate) fn marks(&self) -> io::Result<()> {
        let mut line = self.fields.line();
        let k = line.size();
        let p = line.pattern();
        output::number(self.rt, p.marks())?;
        output::number(self.rt, u8::from(p.mark_at(k)))
    }

    // `contour N`: the pattern of the texture's contour.
    pub(crate) fn contour(&self) -> io::Result<()> {
        let contour = pattern::contour(self.fields.line().size(), self.texture);
        output::answer(self.rt, contour, |p| {
            for w in p.words {
                output::word(self.rt, w)?;
            }
            Ok(())
        })
    }

    // `wedgelets N FIRST END`: the count of the list built in the lent one, its words from FIRST on below END, and the checksum of all.
    pub(crate) fn wedgelets(&self, list: &mut [u64]) -> io::Result<()> {
        let mut line = self.fields.line();
        let count = wedgelet::wedgelets(line.size(), list);
        output::answer(self.rt, count, |count| output::number(self.rt, count))?;
        output::words(self.rt, list, line.size(), line.size())
    }
}
