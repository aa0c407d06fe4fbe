// The calls of `depth_bench` for C: include/depth_bench.h has their declarations. Each is one call of the library's function of that name,
// with the parameters that C has.
#![tactic(auto)]

ghost use Rattle.std.specs.Prelude.{◌≡◌, ◌*◌, length};
ghost use Rattle.prediction.specs.Answer.{predict_answer, predict_block};
ghost use Rattle.choice.specs.Answer.{choose_answer};
ghost use Rattle.depth_bench.specs.Built.{used_words, built_case, pattern_answer};
ghost use Rattle.depth_bench.specs.Structs.{prediction_struct, choice_struct, LeastChoice, pattern_struct};

use depth_bench::{Choice, ChoiceInput, Pattern, Prediction};

// Writes the predicted block to the lent one, as `prediction::predict` does. Below n = 16 the pattern is word 0, and words 1 to 3 are not
// read.
#[unsafe(no_mangle)]
pub extern "C" fn depth_bench_predict(
    n: usize,
    word0: u64,
    word1: u64,
    word2: u64,
    word3: u64,
    border: &[u8],
    table: &[u8],
    off0: i32,
    off1: i32,
    block: &mut [u8],
) -> Prediction
    ensures { let w = used_words n word0 word1 word2 word3 in
        (result ≡ prediction_struct (predict_answer n w border.now table.now off0 off1 (length block.old)))
        × (block.new ≡ predict_block n w border.now table.now off0 off1 block.old) }
{
    let input = prediction::Input {
        n,
        pattern: pattern::Pattern {
            words: [word0, word1, word2, word3],
        },
        border,
        table,
        off0,
        off1,
    };
    depth_bench::depth_bench_predict(input, block)
}

// The record of least cost, with the wedgelet list for n, as `choice::choose` finds it. What is refused is refused before the list is
// built.
#[unsafe(no_mangle)]
pub extern "C" fn depth_bench_choose(
    n: usize,
    border: &[u8],
    original: &[u8],
    table: &[u8],
    reach: u32,
    texture: &[u8],
) -> Choice
    ensures answered { let C = built_case n border.now original.now table.now reach texture.now in
        result ≡ choice_struct (choose_answer C) }
    ensures least { let C = built_case n border.now original.now table.now reach texture.now in
        LeastChoice C result }
{
    let input = ChoiceInput {
        n,
        border,
        original,
        table,
        reach,
        texture,
    };
    depth_bench::depth_bench_choose(input)
}

// The pattern of a record: the entry of the wedgelet list for n, or the contour of the texture, as `depth_bench_choose` means them.
#[unsafe(no_mangle)]
pub extern "C" fn depth_bench_pattern_of(n: usize, kind: u32, entry: u32, texture: &[u8]) -> Pattern
    ensures { result ≡ pattern_struct (pattern_answer n kind entry texture.now) }
{
    depth_bench::depth_bench_pattern_of(n, kind, entry, texture)
}
