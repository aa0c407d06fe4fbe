// A place in lent bytes.

// A place in a slice: the next text is put there. It stands beside the slice and not in a struct with it: a struct that
// holds a `&mut` slice needs a clause in each function that it still is the same slice.
#[derive(Clone, Copy)]
pub struct Cursor {
    pub at: usize,
}
