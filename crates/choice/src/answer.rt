// The answer of a choice.
ghost use Rattle.std.specs.Prelude.{◌≡◌, ◌<◌, ◌≤◌};
ghost use Rattle.pattern.specs.Refusal.{told};
ghost use Rattle.choice.specs.Offset.{offset};
ghost use Rattle.choice.specs.Case.{case_in};
ghost use Rattle.choice.specs.Search.{record_by};
ghost use Rattle.choice.specs.Answer.{chosen_values, choose_answer, LeastGiven};

use crate::refusal::check_choice;
use crate::search::{Picked, best_pattern};
use crate::{Choice, Input};
use pattern::Refusal;
use record::{Kind, Record};

// The offset with the number t: 0, -1, 1, -2, 2 and so on.
fn offset_of(t: usize) -> i32
    requires { t < 512 }
    ensures { result ≡ offset t }
{
    let half = (t / 2) as i32;
    if t % 2 == 0 { half } else { -1 - half }
}

// The record of a pattern and two offsets, from their numbers.
fn record_of(count: usize, picked: Picked) -> Record
    requires { (count ≤ 9999) × (picked.trial0 < 512) × (picked.trial1 < 512) }
    ensures { result ≡ record_by count picked.number picked.trial0 picked.trial1 }
{
    let (kind, entry) = if picked.number < count {
        (Kind::Wedgelet, picked.number as u32)
    } else {
        (Kind::Contour, 0)
    };
    Record {
        kind: kind as u32,
        entry,
        off0: offset_of(picked.trial0),
        off1: offset_of(picked.trial1),
    }
}

// The record of least cost, first in the order between equals, its cost, and how many offsets were tried; or refusal 1, 2, 3, 5, 4 or 10.
#[tactic(auto, unfolding(crate::specs::Answer::choose_answer))]
pub fn choose(input: Input) -> Result<Choice, Refusal>
    ensures answered { told chosen_values result ≡ choose_answer (case_in input.entry) }
    ensures least { LeastGiven (case_in input.entry) (told chosen_values result) }
{
    check_choice(input)?;
    let picked = best_pattern(input);
    Ok(Choice {
        record: record_of(input.list.count, picked),
        cost: picked.cost,
        tried: picked.tried,
    })
}
