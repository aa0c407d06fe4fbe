// What is checked of a sheet that is written.
ghost use Rattle.std.specs.Prelude.{◌≡◌, ℕ, true, leb, length};
ghost use Rattle.arith.specs.Checks.{refusal};
ghost use Rattle.pattern.specs.Refusal.{refusal_in};
ghost use Rattle.pattern.specs.Words.{whole_patterns, patterns_of};
ghost use Rattle.record.specs.Lent.{record_at};
ghost use Rattle.record_file.specs.Writing.{first_to, space_for, source_of, written_refusal};
ghost use Rattle.record_file.specs.Writing.{write_lengths_ok, write_checks, write_refusal};

use crate::source::Source;
use depth_table::is_table;
use pattern::{PatternList, Refusal, check};
use record::{Record, Setting};

// Whether there are 80 + 4 * values + 32 * blocks bytes, in numbers so wide that none of them wraps.
fn space_ok(values: usize, blocks: u64, space: usize) -> bool
    ensures { result ≡ leb (space_for values blocks) space }
{
    80 + 4 * values as u128 + 32 * u128::from(blocks) <= space as u128
}

// What is refused of a record, where no texture is asked for.
#[tactic(auto, using(crate::proofs::FirstLaws::record_refused, crate::proofs::FirstLaws::record_given))]
fn check_record(setting: Setting, r: Record) -> Result<(), Refusal>
    requires { setting.textured ≡ true }
    ensures { let S = setting.entry in
        refusal_in result ≡ written_refusal S.n (patterns_of S.n S.list.words.now) S.list.count S.values r }
{
    setting.meaning_of(r).map(|_| ())
}

// What is refused of records: the refusal of the first bad one.
#[tactic(auto, using(crate::proofs::FirstLaws::in_order), unfolding(record_file::specs::Writing::first_to))]
fn check_records(setting: Setting, records: &[[i32; 4]]) -> Result<(), Refusal>
    requires { setting.textured ≡ true }
    ensures { let S = setting.entry in
        let judged : ℕ → ℕ = λ i. written_refusal S.n (patterns_of S.n S.list.words.now) S.list.count S.values (record_at records.now i) in
        refusal_in result ≡ first_to judged (length records.now) }
{
    for r in records {
        check_record(setting, Record::from(*r))?;
    }
    Ok(())
}

impl<'a> Source<'a> {
    // Whether what is lent to writing is long enough, and the list's count is allowed. The list and the space are parameters: `Source` has
    // what the definition `source_of` has, and a struct of these two would have no meaning of its own.
    #[tactic(auto, unfolding(record_file::specs::Writing::write_lengths_ok))]
    fn lengths_ok(self, list: PatternList, space: usize) -> bool
        ensures { let W = self.entry in let L = list.entry in
            let patterns = whole_patterns W.sheet.n (length L.words.now) in
            result ≡ write_lengths_ok W.sheet patterns L.count (length W.table.now) (length W.records.now) space }
    {
        let blocks = self.sheet.blocks();
        list.count_ok(self.sheet.n as usize)
            && blocks <= self.records.len() as u64
            && space_ok(self.table.len(), blocks, space)
    }

    // What is refused before the records.
    #[tactic(auto, using(crate::proofs::StateLaws::state_passed))]
    fn check_sheet(self, list: PatternList, space: usize) -> Result<(), Refusal>
        ensures { let W = self.entry in let L = list.entry in
            let patterns = whole_patterns W.sheet.n (length L.words.now) in
            refusal_in result ≡ refusal (write_checks W.sheet W.table.now patterns L.count (length W.records.now) space) 0 }
    {
        self.sheet.check_state(self.lengths_ok(list, space))?;
        check(
            u64::from(self.sheet.placed) == self.sheet.blocks(),
            Refusal::Missing,
        )?;
        check(is_table(self.table), Refusal::Table)
    }

    // What is refused where so many bytes are lent: what stands before the records, then the first bad one of its blocks.
    #[tactic(auto, using(crate::proofs::CallLaws::in_turn))]
    pub(crate) fn check(self, list: PatternList, space: usize) -> Result<(), Refusal>
        ensures { let I = self.entry in let L = list.entry in
            let W = source_of I.sheet I.table.now (record_at I.records.now) in
            refusal_in result ≡ write_refusal W (patterns_of I.sheet.n L.words.now) L.count (length I.records.now) space }
    {
        self.check_sheet(list, space)?;
        let setting = Setting {
            n: self.sheet.n as usize,
            list,
            textured: true,
            values: self.table.len(),
        };
        check_records(setting, self.placed())
    }
}
