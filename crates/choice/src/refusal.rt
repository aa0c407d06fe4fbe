// The checks of a choice, in document 01's order.
ghost use Rattle.std.specs.Prelude.{◌≡◌, ◌≤◌};
ghost use Rattle.pattern.specs.Refusal.{refusal_in};
ghost use Rattle.pattern.specs.Size.{greatest_size};
ghost use Rattle.pattern.specs.Words.{patterns_of};
ghost use Rattle.choice.specs.Case.{case_in};
ghost use Rattle.choice.specs.Refusal.{case_lengths_ok, words_ok, choose_refusal};

use crate::Input;
use pattern::{PatternList, Refusal, check, size_ok, texture_ok};

// Whether neighbours, original and texture have their lengths, and the count is allowed. It asks for a bound on n, and takes no `Size`,
// with which a clause would have to say that its n and the input's are one number.
fn lengths_ok(input: Input) -> bool
    requires { input.n ≤ greatest_size }
    ensures { result ≡ case_lengths_ok (case_in input.entry) }
{
    let n = input.n;
    input.border.len() == 4 * n
        && input.original.len() == n * n
        && texture_ok(input.texture.len(), n * n)
        && input.list.count_ok(n)
}

// Whether every pattern below the count marks samples of the block only.
fn words_ok(n: usize, list: PatternList) -> bool
    ensures { let L = list.entry in result ≡ words_ok n (patterns_of n L.words.now) L.count }
{
    (0..list.count).all(|k| list.pattern_at(n, k).fits(n))
}

// What is refused of a choice: 1, 2, 3, 5, 4 or 10.
#[tactic(auto, unfolding(crate::specs::Refusal::choose_refusal))]
pub fn check_choice(input: Input) -> Result<(), Refusal>
    ensures { refusal_in result ≡ choose_refusal (case_in input.entry) }
{
    check(size_ok(input.n), Refusal::Size)?;
    check(lengths_ok(input), Refusal::Length)?;
    check(depth_table::is_table(input.table), Refusal::Table)?;
    check(words_ok(input.n, input.list), Refusal::Pattern)?;
    check(input.reach <= 255, Refusal::Offset)?;
    check(
        0 < input.list.count || !input.texture.is_empty(),
        Refusal::NoPattern,
    )
}
