// What a case gives to its call, and the calls by the words that name them.
use crate::fields::Fields;
use std::io;

// A case: its fields, the slices that its call only reads, and the handle that prints its answer. The list and the samples, to which a
// call can write, stand beside it: in it, each with its own lifetime, `place` and `compose` would lend one through `&mut self` while the
// other is lent, which the borrow checker does not cover.
#[derive(Drop)]
pub(crate) struct Case<'a, P: Print> {
    pub(crate) rt: &'a P,
    pub(crate) fields: &'a Fields,
    pub(crate) border: &'a [u8],
    pub(crate) table: &'a [u8],
    pub(crate) texture: &'a [u8],
    pub(crate) original: &'a [u8],
}

impl<'a, P: Print> Case<'a, P> {
    // Makes the call whose word has these letters first and third, and prints its answer; whether there is one. A match, since the calls
    // are lent different slices, and a table of closures would take a function that hands out function pointers, which the gate refuses.
    // An enum of the calls would be made by a second such match.
    pub(crate) fn answer(
        &'a self,
        letters: &[u8],
        list: &'a mut [u64],
        samples: &mut [u8],
    ) -> io::Result<bool> {
        match letters {
            b"id" => self.index()?,
            b"mr" => self.marks()?,
            b"cn" => self.contour()?,
            b"wd" => self.wedgelets(list)?,
            b"sd" => self.sides()?,
            b"pe" => self.predict(samples)?,
            b"co" => self.choose(list)?,
            b"nw" => self.new_sheet()?,
            b"pa" => self.place(list, samples)?,
            b"cm" => self.compose(list, samples)?,
            _ => return Ok(false),
        }
        Ok(true)
    }
}
