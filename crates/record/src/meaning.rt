// What a record means, or the first of its checks that fails, in document 01's order.
ghost use Rattle.std.specs.Prelude.{◌≡◌, [], ◌∷◌, ltb, get_or};
ghost use Rattle.arith.specs.Checks.{refusal, answer};
ghost use Rattle.pattern.specs.Refusal.{refusal_in, told};
ghost use Rattle.pattern.specs.Size.{word_ok};
ghost use Rattle.pattern.specs.Words.{pattern_number, patterns_of};
ghost use Rattle.record.specs.Meaning.{contour_checks, kind_meaning, kind_refusal, record_meaning};
ghost use Rattle.record.specs.Told.{named};

use crate::{Kind, Record};
use depth_table::check_offsets;
use pattern::{Pattern, PatternList, Refusal, check};

// What a record means: the pattern that the list has at its entry, or the contour of its block's texture.
#[derive(Clone, Copy)]
pub enum Meaning {
    Listed(Pattern),
    Contour,
}

// What a record is checked against: the size of its block, the list of patterns, whether texture is lent, and how many values the table
// has.
#[derive(Clone, Copy)]
pub struct Setting<'a> {
    pub n: usize,
    pub list: PatternList<'a>,
    pub textured: bool,
    pub values: usize,
}

// Refuses the contour where the entry is not 0 or no texture is lent: 7, 21.
pub fn check_contour(entry: u32, textured: bool) -> Result<(), Refusal>
    ensures { refusal_in result ≡ refusal (contour_checks entry textured) 0 }
{
    check(entry == 0, Refusal::Kind)?;
    check(textured, Refusal::NoTexture)
}

impl<'a> Setting<'a> {
    // The pattern that the list has at an entry; or refusal 6 or 5.
    fn listed(self, entry: u32) -> Result<Pattern, Refusal>
        ensures { let S = self.entry in let l = patterns_of S.n S.list.words.now in told pattern_number result ≡ answer
            (refusal ((ltb entry S.list.count, 6) ∷ (word_ok S.n (get_or l entry 0), 5) ∷ []) 0) (get_or l entry 0) }
    {
        let at = entry as usize;
        check(at < self.list.count, Refusal::Entry)?;
        let p = self.list.pattern_at(self.n, at);
        check(p.fits(self.n), Refusal::Pattern)?;
        Ok(p)
    }

    // What a record's kind and entry name; or refusal 7, 21, 6 or 5.
    fn named_by(self, r: Record) -> Result<Meaning, Refusal>
        ensures { let S = self.entry in let l = patterns_of S.n S.list.words.now in told named result
            ≡ answer (kind_refusal S.n l S.list.count S.textured r.kind r.entry 0)
            (kind_meaning S.n l S.list.count S.textured r.kind r.entry).1 }
    {
        match Kind::try_from(r.kind)? {
            Kind::Wedgelet => Ok(Meaning::Listed(self.listed(r.entry)?)),
            Kind::Contour => {
                check_contour(r.entry, self.textured)?;
                Ok(Meaning::Contour)
            }
        }
    }

    // What a record means; or refusal 7, 21, 6, 5, 4 or 24. It is inlined: a caller that asks for a refusal alone builds no meaning then,
    // and writing takes two fifths fewer instructions to check a record.
    #[tactic(auto, using(crate::proofs::MeaningLaws::by_kind, crate::proofs::MeaningLaws::by_offset, crate::proofs::MeaningLaws::found))]
    #[inline(always)]
    pub fn meaning_of(self, r: Record) -> Result<Meaning, Refusal>
        ensures { let S = self.entry in told named result
            ≡ record_meaning S.n (patterns_of S.n S.list.words.now) S.list.count S.textured S.values r }
    {
        let meaning = self.named_by(r)?;
        check_offsets(self.values, r.off0, r.off1)?;
        Ok(meaning)
    }
}
