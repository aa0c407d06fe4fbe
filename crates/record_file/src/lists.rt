// What a file is read with.
ghost use Rattle.std.specs.Prelude.{◌≡◌};
ghost use Rattle.pattern.specs.Size.{for_size};

use pattern::PatternList;

// What a file is read with: a list for each size, and texture; an empty texture is none, as in a choice. The lists are three fields, since
// C lends three, and an array of them would need a second numbering of the sizes.
#[derive(Clone, Copy)]
pub struct ReadInput<'a> {
    pub list4: PatternList<'a>,
    pub list8: PatternList<'a>,
    pub list16: PatternList<'a>,
    pub texture: &'a [u8],
}

impl<'a> ReadInput<'a> {
    // The list for blocks of size n.
    pub fn list_for(self, n: usize) -> PatternList<'a>
        ensures words { let I = self.entry in
            result.words.now ≡ for_size n I.list4.words.now I.list8.words.now I.list16.words.now }
        ensures count { let I = self.entry in
            result.count ≡ for_size n I.list4.count I.list8.count I.list16.count }
    {
        match n {
            4 => self.list4,
            8 => self.list8,
            _ => self.list16,
        }
    }
}
