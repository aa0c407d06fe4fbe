// The state of a sheet, and what is checked of it. A u32 becomes a usize by `as`: std has no `From` between them.
ghost use Rattle.std.specs.Prelude.{◌≡◌, ◌<◌, length};
ghost use Rattle.pattern.specs.Refusal.{refusal_in, told};
ghost use Rattle.sheet_grid.specs.Grid.{side_ok};
ghost use Rattle.sheet.specs.Checks.{sides_ok_by, new_refusal, state_refusal_by};
ghost use Rattle.sheet.specs.State.{area, blocks_of, lengths_ok, new_answer, next_x, next_y, start_refusal, Open};
ghost use Rattle.choice.specs.Case.{case_in};
ghost use Rattle.sheet.specs.Place.{Fits, next_case, next_texture};
ghost use Rattle.sheet.specs.Next.{Next};
ghost use Rattle.sheet.specs.Told.{material_in, task_in};

use crate::spot::{Drawing, Room, Spot, View};
use crate::{ComposeInput, LONGEST, PlaceInput, Sheet};
use pattern::{Refusal, check, size_ok, texture_ok};

// Whether a width or a height is a multiple of n, n to `LONGEST`.
fn side_ok(n: u32, side: u32) -> bool
    ensures { result ≡ side_ok n side }
{
    n <= side && side as usize <= LONGEST && side.is_multiple_of(n)
}

// Whether both sides are allowed. The three numbers stand in no struct: the public `check_sides` and `new` have them as parameters.
fn sides_ok(n: u32, width: u32, height: u32) -> bool
    ensures { result ≡ sides_ok_by n width height }
{
    side_ok(n, width) && side_ok(n, height)
}

// Refuses a size, 1, and sides, 8, that are not allowed.
#[tactic(auto, unfolding(crate::specs::Checks::new_refusal))]
pub fn check_sides(n: u32, width: u32, height: u32) -> Result<(), Refusal>
    ensures { refusal_in result ≡ new_refusal n width height }
{
    check(size_ok(n as usize), Refusal::Size)?;
    check(sides_ok(n, width, height), Refusal::Sides)
}

impl Sheet {
    // The state of an empty sheet, or refusal 1 or 8.
    #[tactic(auto, unfolding(crate::specs::State::new_answer))]
    pub fn new(n: u32, width: u32, height: u32) -> Result<Sheet, Refusal>
        ensures { told (λ S. S) result ≡ new_answer n width height }
    {
        check_sides(n, width, height)?;
        Ok(Sheet {
            n,
            width,
            height,
            placed: 0,
        })
    }

    // The number of its samples.
    pub fn area(self) -> usize
        ensures { result ≡ area self }
    {
        self.width as usize * self.height as usize
    }

    // The number of its blocks, 0 where n is 0: it is promised that this cannot fail.
    pub fn blocks(self) -> u64
        ensures { result ≡ blocks_of self }
    {
        if self.n == 0 {
            return 0;
        }
        u64::from(self.width / self.n) * u64::from(self.height / self.n)
    }

    // Whether the lent samples and what records are placed with fit the sheet.
    #[tactic(auto, unfolding(crate::specs::Checks::lengths_ok_by))]
    pub(crate) fn lengths_ok(self, samples: usize, input: PlaceInput) -> bool
        ensures { let M = material_in self.n input.entry in
            result ≡ lengths_ok self samples (length M.list) M.count (length M.texture) }
    {
        let area = self.area();
        samples == area
            && texture_ok(input.texture.len(), area)
            && input.list.count_ok(self.n as usize)
    }

    // What is refused of the state, 1, 2, 8 or 23, with the lengths of what is lent judged.
    pub fn check_state(self, lengths: bool) -> Result<(), Refusal>
        ensures { refusal_in result ≡ state_refusal_by self.n self.width self.height self.placed lengths 0 }
    {
        check(size_ok(self.n as usize), Refusal::Size)?;
        check(lengths, Refusal::Length)?;
        check(sides_ok(self.n, self.width, self.height), Refusal::Sides)?;
        check(u64::from(self.placed) <= self.blocks(), Refusal::Placed)
    }

    // What is refused of a state that is to have a block to place: also 20, where all are placed. The lengths are judged by the caller, as
    // in `check_state`, since composing is lent more than placing is.
    #[tactic(auto, using(crate::proofs::RefusalLaws::state_kept, crate::proofs::RefusalLaws::state_passed))]
    pub(crate) fn check_open(self, lengths: bool) -> Result<(), Refusal>
        ensures { refusal_in result ≡ start_refusal self lengths 0 }
    {
        self.check_state(lengths)?;
        check(u64::from(self.placed) < self.blocks(), Refusal::Full)
    }

    // Where the next block lies.
    pub(crate) fn next_spot(self) -> Spot
        requires { Open self }
        ensures size { result.n ≡ self.n }
        ensures wide { result.width ≡ self.width }
        ensures column { result.x ≡ next_x self }
        ensures row { result.y ≡ next_y self }
    {
        let across = self.width / self.n;
        Spot {
            n: self.n as usize,
            width: self.width as usize,
            x: (self.placed % across * self.n) as usize,
            y: (self.placed / across * self.n) as usize,
        }
    }

    // The next block as it is drawn: its neighbours, and its own part of the original samples and of the texture, in the lent arrays.
    // `Fits` is a clause, as at `Drawing`: the caller has the samples as a `&mut` slice.
    pub(crate) fn next_drawing<'a>(
        self,
        samples: &[u8],
        input: ComposeInput<'a>,
        room: &'a mut Room,
    ) -> Drawing<'a>
        requires fits { Fits self (material_in self.n input.place) (length samples.now) }
        requires whole { 0 < length input.original.now → length input.original.now ≡ area self }
        ensures place { Next self result.spot.n result.spot.width result.spot.x result.spot.y }
        ensures case { let T = task_in self.n input.entry in
            case_in result.case ≡ next_case self T.material (next_texture self T.original) T.reach samples.now }
    {
        let spot = self.next_spot();
        let case = choice::Input {
            n: spot.n,
            list: input.place.list,
            border: View { spot, samples }.neighbours(&mut room.near),
            original: spot.part(input.original, &mut room.own),
            table: input.place.table,
            reach: input.reach,
            texture: spot.part(input.place.texture, &mut room.light),
        };
        Drawing { spot, case }
    }
}
