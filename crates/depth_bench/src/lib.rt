// The calls that `depth_bench_c` exports for C: include/depth_bench.h has their declarations. C has no `Result`, so that an answer is a
// struct with the number of its refusal.
#![tactic(auto)]

ghost use Rattle.std.specs.Prelude.{◌≡◌, ◌*◌, ltb, length, get_or};
ghost use Rattle.arith.specs.Checks.{unless, answer};
ghost use Rattle.pattern.specs.Refusal.{told};
ghost use Rattle.pattern.specs.Words.{pattern_number, in_four, used_number, patterns_of};
ghost use Rattle.wedgelet.specs.Wedgelet.{wedgelet_list};
ghost use Rattle.prediction.specs.Answer.{predict_answer, predict_block};
ghost use Rattle.choice.specs.Answer.{choose_answer, chosen_values};
ghost use Rattle.choice.specs.Case.{case_of, case_in};
ghost use Rattle.depth_bench.specs.Built.{built_list, built_case, pattern_answer};
ghost use Rattle.depth_bench.specs.Structs.{prediction_struct, choice_struct, LeastChoice, pattern_struct, words_struct};

use pattern::{PatternList, Refusal, Size, WORDS};
use record::Kind;
use wedgelet::LIST_WORDS;

// The number of marks, or the number of the refusal beside 0.
#[repr(C)]
#[derive(Clone, Copy, Default)]
pub struct Prediction {
    pub refusal: u32,
    pub marks: u32,
}

// The chosen record, its cost, and how many offsets were tried; or the number of the refusal beside 0.
#[repr(C)]
#[derive(Clone, Copy, Default)]
pub struct Choice {
    pub refusal: u32,
    pub kind: u32,
    pub entry: u32,
    pub off0: i32,
    pub off1: i32,
    pub cost: u32,
    pub tried: u32,
}

// The words of a pattern, lowest bit first: bit y * n + x is the mark of sample (x, y), so that for n = 16 word k has rows 4k to 4k + 3,
// and below that words 1 to 3 are 0; or the number of the refusal beside zeros.
#[repr(C)]
#[derive(Clone, Copy, Default)]
pub struct Pattern {
    pub refusal: u32,
    pub word: [u64; WORDS],
}

// What `prediction::predict` answers, as C gets it.
impl From<Result<u32, Refusal>> for Prediction {
    ghost from_gives = { λ answer p. p ≡ prediction_struct (told (λ marks. marks) answer) };

    fn from(answer: Result<u32, Refusal>) -> Prediction {
        match answer {
            Ok(marks) => Prediction { refusal: 0, marks },
            Err(refusal) => {
                let refusal = u32::from(refusal);
                Prediction {
                    refusal,
                    ..Prediction::default()
                }
            }
        }
    }
}

// What `choice::choose` answers, as C gets it.
impl From<Result<choice::Choice, Refusal>> for Choice {
    ghost from_gives = { λ answer c. c ≡ choice_struct (told chosen_values answer) };

    fn from(answer: Result<choice::Choice, Refusal>) -> Choice {
        match answer {
            Ok(chosen) => Choice {
                refusal: 0,
                kind: chosen.record.kind,
                entry: chosen.record.entry,
                off0: chosen.record.off0,
                off1: chosen.record.off1,
                cost: chosen.cost,
                tried: chosen.tried,
            },
            Err(refusal) => Choice {
                refusal: u32::from(refusal),
                ..Choice::default()
            },
        }
    }
}

// A pattern, as C gets it.
impl From<pattern::Pattern> for Pattern {
    ghost from_gives = { λ p c. c ≡ words_struct (in_four (pattern_number p)) };

    fn from(p: pattern::Pattern) -> Pattern {
        let word = p.words;
        Pattern { refusal: 0, word }
    }
}

// A pattern or a refusal, as C gets it.
impl From<Result<pattern::Pattern, Refusal>> for Pattern {
    ghost from_gives = { λ answer p. p ≡ pattern_struct (told pattern_number answer) };

    fn from(answer: Result<pattern::Pattern, Refusal>) -> Pattern {
        match answer {
            Ok(p) => Pattern::from(p),
            Err(refusal) => Pattern {
                refusal: u32::from(refusal),
                ..Pattern::default()
            },
        }
    }
}

// Writes the predicted block to the lent one, as `prediction::predict` does. Below n = 16 the pattern is word 0, and words 1 to 3 are not
// read.
pub fn depth_bench_predict(input: prediction::Input, block: &mut [u8]) -> Prediction
    ensures { let I = input.entry in let w = used_number I.n I.pattern in
        (result ≡ prediction_struct (predict_answer I.n w I.border.now I.table.now I.off0 I.off1 (length block.old)))
        × (block.new ≡ predict_block I.n w I.border.now I.table.now I.off0 I.off1 block.old) }
{
    Prediction::from(prediction::predict(input, block))
}

// What a record is chosen from with the wedgelet list for n: the input of a choice but for its list, which a caller of these has not.
#[derive(Clone, Copy)]
pub struct ChoiceInput<'a> {
    pub n: usize,
    pub border: &'a [u8],
    pub original: &'a [u8],
    pub table: &'a [u8],
    pub reach: u32,
    pub texture: &'a [u8],
}

impl<'a> ChoiceInput<'a> {
    // The input of the choice with a list.
    fn with_list(self, list: PatternList<'a>) -> choice::Input<'a>
        ensures { let I = self.entry in let L = list.entry in case_in result
            ≡ case_of I.n (patterns_of I.n L.words.now) L.count I.border.now I.original.now I.table.now I.reach I.texture.now }
    {
        choice::Input {
            n: self.n,
            list,
            border: self.border,
            original: self.original,
            table: self.table,
            reach: self.reach,
            texture: self.texture,
        }
    }

    // The record of least cost with the wedgelet list for n, which is built where the choice is not refused. Of a list the checks see
    // only whether there is one and whether its patterns fit the block, so that one pattern without marks stands for it.
    #[tactic(auto, using(crate::proofs::Built::refusal_before), unfolding(choice::specs::Answer::choose_answer))]
    fn choose(self) -> Result<choice::Choice, Refusal>
        ensures { let I = self.entry in
            told chosen_values result ≡ choose_answer (built_case I.n I.border.now I.original.now I.table.now I.reach I.texture.now) }
    {
        choice::check_choice(self.with_list(PatternList {
            words: &[0; WORDS],
            count: 1,
        }))?;
        let mut words = [0u64; LIST_WORDS];
        let count = wedgelet::wedgelets(self.n, &mut words)?;
        choice::choose(self.with_list(PatternList {
            words: &words,
            count,
        }))
    }
}

// The record of least cost, with the wedgelet list for n, as `choice::choose` finds it. What is refused is refused before the list is
// built.
pub fn depth_bench_choose(input: ChoiceInput) -> Choice
    ensures answered { let I = input.entry in
        let C = built_case I.n I.border.now I.original.now I.table.now I.reach I.texture.now in
        result ≡ choice_struct (choose_answer C) }
    ensures least { let I = input.entry in
        let C = built_case I.n I.border.now I.original.now I.table.now I.reach I.texture.now in
        LeastChoice C result }
{
    Choice::from(input.choose())
}

// The pattern of an entry of the wedgelet list for a size; or refusal 6.
fn listed_pattern(size: Size, entry: u32) -> Result<pattern::Pattern, Refusal>
    ensures { let n = size.n in told pattern_number result
        ≡ answer (unless (ltb entry (length (wedgelet_list n))) 6 0) (get_or (built_list n) entry 0) }
{
    let mut words = [0u64; LIST_WORDS];
    let count = wedgelet::wedgelets(size.n, &mut words)?;
    let entry = entry as usize;
    pattern::check(entry < count, Refusal::Entry)?;
    let list = PatternList {
        words: &words,
        count,
    };
    Ok(list.pattern_at(size.n, entry))
}

// The pattern of a kind and an entry: of the wedgelet list for n, or the contour of the texture; or refusal 1, 2, 7, 21 or 6. Its
// parameters are those of C, so that no struct holds them.
#[tactic(auto, using(crate::proofs::Built::fit), unfolding(crate::specs::Built::pattern_answer, crate::specs::Built::pattern_refusal))]
fn pattern_of(n: usize, kind: u32, entry: u32, texture: &[u8]) -> Result<pattern::Pattern, Refusal>
    ensures { told pattern_number result ≡ pattern_answer n kind entry texture.now }
{
    let size = Size::try_from(n)?;
    pattern::check(pattern::texture_ok(texture.len(), n * n), Refusal::Length)?;
    match Kind::try_from(kind)? {
        Kind::Wedgelet => listed_pattern(size, entry),
        Kind::Contour => {
            record::check_contour(entry, !texture.is_empty())?;
            pattern::contour(n, texture)
        }
    }
}

// The pattern of a record: the entry of the wedgelet list for n, or the contour of the texture, as `depth_bench_choose` means them.
pub fn depth_bench_pattern_of(n: usize, kind: u32, entry: u32, texture: &[u8]) -> Pattern
    ensures { result ≡ pattern_struct (pattern_answer n kind entry texture.now) }
{
    Pattern::from(pattern_of(n, kind, entry, texture))
}
