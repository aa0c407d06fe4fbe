// The wedgelet list.
ghost use Rattle.std.specs.Prelude.{◌≡◌, ◌++◌, ◌*◌, ◌≤◌, length, drop};
ghost use Rattle.pattern.specs.Refusal.{told};
ghost use Rattle.pattern.specs.Words.{words_of, word_list};
ghost use Rattle.wedgelet.specs.Wedgelet.{points, wedgelet_list};
ghost use Rattle.wedgelet.specs.Answer.{needed_words, list_answer, list_after};

use crate::candidates::candidate_of;
use crate::entries::{is_at, put};
use pattern::{Refusal, Size, check, words_of};

// The patterns that the list of the greatest block needs room for, and their words: 14,160.
pub const PATTERNS: usize = 3540;

pub const LIST_WORDS: usize = pattern::WORDS * PATTERNS;

// How many numbers of marks a pattern may have: 0 to 256.
const MARKS: usize = pattern::SAMPLES + 1;

// The number of border points.
fn points(size: Size) -> usize
    ensures { result ≡ points size.n }
{
    4 * (size.n - 1)
}

// The words that a list needs: enough for one pattern of each candidate.
fn needed_words(size: Size) -> usize
    ensures { result ≡ needed_words size.n }
{
    let points = points(size);
    words_of(size.n) * (points * (points - 1))
}

// The list is written from the start of the slice; the answer is the number of its patterns. Only entries with as many marks can equal
// a candidate, so the scan goes from one to the one before: `latest[m]` is the last entry with m marks, `earlier[k]` the last one before
// entry k with as many marks as it. They are numbers of 16 bits, since both arrays stand on a stack that is promised to C. Two
// loops go through the pairs of border points, so that a repeated candidate leads to the next pair by the inner one's label.
fn fill(size: Size, list: &mut [u64]) -> usize
    requires { needed_words size.n ≤ length list.old }
    ensures { let n = size.n in let l = wedgelet_list n in
        (result ≡ length l) × (list.new ≡ word_list n l ++ drop (words_of n * length l) list.old) }
{
    let last = points(size);
    let mut latest: [Option<u16>; MARKS] = [None; MARKS];
    let mut earlier: [Option<u16>; PATTERNS] = [None; PATTERNS];
    let mut count = 0;
    for s in 0..last {
        'next: for e in 0..last {
            if e == s {
                continue;
            }
            let p = candidate_of(size, s, e);
            let m = p.marks() as usize;
            if m == 0 {
                continue;
            }
            let mut place = latest[m];
            while let Some(entry) = place {
                let entry = usize::from(entry);
                if is_at(size, list, entry, p) {
                    continue 'next;
                }
                place = earlier[entry];
            }
            put(size, list, count, p);
            earlier[count] = latest[m];
            latest[m] = Some(count as u16);
            count += 1;
        }
    }
    count
}

// The wedgelet list of n by n blocks, written to the lent list, and the number of its patterns. Words past the patterns keep their
// content, and a refusal alters nothing.
#[tactic(auto, unfolding(crate::specs::Answer::list_refusal, crate::specs::Answer::list_answer, crate::specs::Answer::list_after))]
pub fn wedgelets(n: usize, list: &mut [u64]) -> Result<usize, Refusal>
    ensures { (told (λ count. count) result ≡ list_answer n list.old) × (list.new ≡ list_after n list.old) }
{
    let size = Size::try_from(n)?;
    check(needed_words(size) <= list.len(), Refusal::Length)?;
    Ok(fill(size, list))
}
