// A pattern as four words of 64 bits, and a lent list of patterns.
ghost use Rattle.std.specs.Prelude.{◌≡◌, ◌+◌, ◌^◌, ◌≤◌, ◌&&◌, eqb, ltb, length, get_or};
ghost use Rattle.std.specs.Int.Bits.{bit_and, bit_xor};
ghost use Rattle.std.specs.Int.Count.{ones};
ghost use Rattle.arith.specs.Bits.{test_bit};
ghost use Rattle.pattern.specs.Answer.{count_ok};
ghost use Rattle.pattern.specs.Size.{greatest_samples, word_ok};
ghost use Rattle.pattern.specs.Words.{pattern_number, used_number, words_of, whole_patterns, four_at, patterns_of};

use crate::size::GREATEST_SIZE;
use std::ops::{BitAnd, BitXor};

// The words of a pattern of the greatest block.
pub const WORDS: usize = 4;

// A pattern: bit k is bit k % 64 of word k / 64. For n up to 8 the first word holds all of it.
#[derive(Clone, Copy, Debug, PartialEq, Eq)]
pub struct Pattern {
    pub words: [u64; WORDS],
}

// Whether a word has no bit from k up.
fn word_below(word: u64, k: usize) -> bool
    ensures { result ≡ ltb word (2 ^ k) }
{
    64 <= k || word >> k == 0
}

impl Pattern {
    // The pattern of one word.
    pub fn of_word(word: u64) -> Pattern
        ensures { pattern_number result ≡ word }
    {
        Pattern {
            words: [word, 0, 0, 0],
        }
    }

    // What n by n samples use of a pattern handed in: up to 8 by 8 the first word, with none in the others.
    pub fn used(self, n: usize) -> Pattern
        ensures { pattern_number result ≡ used_number n self }
    {
        if n <= 8 {
            Pattern::of_word(self.words[0])
        } else {
            self
        }
    }

    // The mark of sample k. The word is read before the test of k, as only a read tells the proof that the words have 64 bits.
    pub fn mark_at(&self, k: usize) -> bool
        ensures { result ≡ test_bit (pattern_number self.now) k }
    {
        let word = self.words[k / 64 % WORDS];
        k / 64 < WORDS && (word >> (k % 64)) % 2 == 1
    }

    // Whether no word but the first has a bit.
    fn first_alone(self) -> bool
        ensures { let w = self.words in result ≡ ((eqb (get_or w 3 0) 0 && eqb (get_or w 2 0) 0) && eqb (get_or w 1 0) 0) }
    {
        self.words[3] == 0 && self.words[2] == 0 && self.words[1] == 0
    }

    // Whether the pattern has no bit from n * n up. Up to 8 by 8 the first word is judged apart: the others of a list's pattern are then
    // known to be 0, and the compiler leaves them out.
    pub fn fits(self, n: usize) -> bool
        ensures { result ≡ word_ok n (pattern_number self) }
    {
        if n <= 8 {
            return self.first_alone() && word_below(self.words[0], n * n);
        }
        GREATEST_SIZE <= n
            || self.words.iter().enumerate().all(|(i, &word)| word_below(
                word,
                (n * n).saturating_sub(64 * i),
            ))
    }

    // The number of marks.
    pub fn marks(self) -> u32
        ensures { (result ≡ ones (pattern_number self)) × (result ≤ greatest_samples) }
    {
        self.words.iter().map(|word| word.count_ones()).sum()
    }
}

impl BitAnd for Pattern {
    type Output = Pattern;

    ghost bitand_gives = { λ p q r. pattern_number r ≡ bit_and (pattern_number p) (pattern_number q) };

    fn bitand(self, other: Pattern) -> Pattern {
        Pattern {
            words: std::array::from_fn(|i| self.words[i] & other.words[i]),
        }
    }
}

impl BitXor for Pattern {
    type Output = Pattern;

    ghost bitxor_gives = { λ p q r. pattern_number r ≡ bit_xor (pattern_number p) (pattern_number q) };

    fn bitxor(self, other: Pattern) -> Pattern {
        Pattern {
            words: std::array::from_fn(|i| self.words[i] ^ other.words[i]),
        }
    }
}

// The number of words of a pattern in a list.
pub fn words_of(n: usize) -> usize
    ensures { result ≡ words_of n }
{
    if n <= 8 { 1 } else { WORDS }
}

// The number of whole patterns in so many words. It and `count_ok` stand beside the methods of a list, since who has only numbers calls
// them.
pub fn whole_patterns(n: usize, words: usize) -> usize
    ensures { result ≡ whole_patterns n words }
{
    if n <= 8 { words } else { words / WORDS }
}

// Whether a list has so many whole patterns, and the count is at most 9,999.
pub fn count_ok(patterns: usize, count: usize) -> bool
    ensures { result ≡ count_ok patterns count }
{
    count <= patterns && count <= 9999
}

// A lent list of patterns, in words, and how many of its patterns count. It is a slice with a count beside it, since C lends the count;
// a call judges it. Its size is no field: what a list is lent with has an n of its own.
#[derive(Clone, Copy)]
pub struct PatternList<'a> {
    pub words: &'a [u64],
    pub count: usize,
}

// The pattern of the four words of a list from place `at` on.
fn four_at(words: &[u64], at: usize) -> Pattern
    requires { at + 4 ≤ length words.now }
    ensures { pattern_number result ≡ four_at words.now at }
{
    Pattern {
        words: std::array::from_fn(|i| words[at + i]),
    }
}

impl<'a> PatternList<'a> {
    // The number of whole patterns in its words.
    pub fn whole_patterns(self, n: usize) -> usize
        ensures { result ≡ whole_patterns n (length self.entry.words.now) }
    {
        whole_patterns(n, self.words.len())
    }

    // Whether it has so many whole patterns as count, and these are at most 9,999.
    pub fn count_ok(self, n: usize) -> bool
        ensures { let L = self.entry in result ≡ count_ok (whole_patterns n (length L.words.now)) L.count }
    {
        count_ok(self.whole_patterns(n), self.count)
    }

    // The pattern at an entry; no marks where the list has no whole pattern there. It refuses nothing, and never
    // could: a caller that has to know checks the entry first.
    pub fn pattern_at(self, n: usize, entry: usize) -> Pattern
        ensures { pattern_number result ≡ get_or (patterns_of n self.entry.words.now) entry 0 }
    {
        if self.whole_patterns(n) <= entry {
            return Pattern::of_word(0);
        }
        if n <= 8 {
            return Pattern::of_word(self.words[entry]);
        }
        four_at(self.words, WORDS * entry)
    }
}
