// What is written.
ghost use Rattle.std.specs.Prelude.{◌≡◌, ◌≤◌, length, take};
ghost use Rattle.sheet.specs.State.{blocks_of};

use sheet::Sheet;

// What is written: a state, its table, and the lent records, of which those past its blocks are not read.
#[derive(Clone, Copy)]
pub(crate) struct Source<'a> {
    pub sheet: Sheet,
    pub table: &'a [u8],
    pub records: &'a [[i32; 4]],
}

impl<'a> Source<'a> {
    // The records of its blocks.
    pub(crate) fn placed(self) -> &'a [[i32; 4]]
        requires { blocks_of self.sheet ≤ length self.records.now }
        ensures { let I = self.entry in result.now ≡ take (blocks_of I.sheet) I.records.now }
    {
        &self.records[..self.sheet.blocks() as usize]
    }
}
