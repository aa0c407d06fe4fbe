// Patterns in a lent list of words: whether one stands at an entry, and putting one there. The size and the list stay two parameters: a
// struct that holds a `&mut` list needs a clause in each method that it still is the same list.
ghost use Rattle.std.specs.Prelude.{◌≡◌, [], ◌∷◌, ◌+◌, ◌*◌, ◌^◌, ◌≤◌, ◌<◌, eqb, length};
ghost use Rattle.std.proofs.lemmas.List.Edits.{sets};
ghost use Rattle.pattern.specs.Words.{pattern_number, words_of, pattern_at, in_words};

use pattern::{Pattern, Size, WORDS};

// Whether p stands at an entry of the list. The words are compared where they lie: reading the entry as a `Pattern` and comparing that by
// `==` makes the list of 4 by 4 samples a sixth slower.
pub(crate) fn is_at(size: Size, list: &[u64], entry: usize, p: Pattern) -> bool
    requires { (words_of size.n * (entry + 1) ≤ length list.now) × (pattern_number p < 2 ^ (size.n * size.n)) }
    ensures { result ≡ eqb (pattern_at size.n list.now entry) (pattern_number p) }
{
    if size.n <= 8 {
        return list[entry] == p.words[0];
    }
    let at = WORDS * entry;
    &list[at..at + WORDS] == &p.words[..]
}

// p is stored at an entry of the list. One word and four are two cases, as a copy of so many words as a size has is a call of the system's
// `memcpy`, which makes the list of 16 by 16 samples a fifteenth slower.
pub(crate) fn put(size: Size, list: &mut [u64], entry: usize, p: Pattern)
    requires { (words_of size.n * (entry + 1) ≤ length list.old) × (pattern_number p < 2 ^ (size.n * size.n)) }
    ensures { list.new ≡ sets list.old (words_of size.n * entry) (in_words size.n (pattern_number p)) }
{
    if size.n <= 8 {
        list[entry] = p.words[0];
        return;
    }
    let at = WORDS * entry;
    list[at..at + WORDS].copy_from_slice(&p.words);
}
