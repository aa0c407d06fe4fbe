// Reading a record file.
ghost use Rattle.std.specs.Prelude.{◌≡◌, ◌≤◌, length};
ghost use Rattle.depth_table.specs.Table.{most_values};
ghost use Rattle.record_file.specs.Reading.{aids_in, lists_ok, read_lengths_ok};
ghost use Rattle.record_read.specs.Back.{lent_of, before_zeros, Leaves, Reads, back_told};
ghost use Rattle.record_read.specs.Step.{FrontSound, Counted, HasRoom, sheet_lines};

use crate::blocks::{Reading, read_blocks};
use crate::front::{Front, read_front};
use crate::lines::LineRefusal;
use depth_table::VALUES;
use pattern::{GREATEST_SIZE, Refusal};
use record_file::ReadInput;
use sheet::{MOST_BLOCKS, MOST_SAMPLES, PlaceInput, Sheet};

// The most samples of a sheet that is read into short arrays.
const SMALL_SAMPLES: usize = 1024;

// The most blocks that it has: a block has at least 16 samples.
const SMALL_BLOCKS: usize = 64;

// What reading answers: the finished state, and the table, its values before zeros, with their number. They stand in an array beside their
// number, since what is answered can be copied, and an `ArrayVec` can't.
#[derive(Clone, Copy)]
pub struct FileBack {
    pub sheet: Sheet,
    pub values: u32,
    pub table: [u8; VALUES],
}

// The values of a table before zeros.
fn filled(table: &[u8]) -> [u8; VALUES]
    requires { length table.now ≤ most_values }
    ensures { result ≡ before_zeros table.now }
{
    let mut filled = [0u8; VALUES];
    filled[..table.len()].copy_from_slice(table);
    filled
}

// Whether each list's count is one that its whole patterns allow.
#[tactic(auto, using(crate::proofs::ReadLaws::counts))]
fn lists_ok(input: ReadInput) -> bool
    ensures { result ≡ lists_ok (aids_in input.entry) }
{
    input.list4.count_ok(4) && input.list8.count_ok(8) && input.list16.count_ok(GREATEST_SIZE)
}

// Whether what is lent to reading is long enough, and each list's count is allowed.
#[tactic(auto, unfolding(record_file::specs::Reading::read_lengths_ok))]
fn lengths_ok(input: ReadInput, samples: usize, records: usize) -> bool
    ensures { result ≡ read_lengths_ok samples records (lists_ok (aids_in input.entry)) }
{
    MOST_SAMPLES <= samples && MOST_BLOCKS <= records && lists_ok(input)
}

// The sheet after the lines before its records. It is read into arrays of this function, and copied to what is lent once all is read. The
// samples and the records are in no struct, since they are `&mut` slices, as in `read_block`.
fn read_with<const SAMPLES: usize, const BLOCKS: usize>(
    front: Front,
    input: ReadInput,
    samples: &mut [u8],
    records: &mut [[i32; 4]],
) -> Result<FileBack, LineRefusal>
    requires sound { FrontSound (length input.texture.now) front }
    requires counted { Counted (aids_in input) front.sheet.n }
    requires has_room { HasRoom front SAMPLES BLOCKS }
    requires fits { (SAMPLES ≤ length samples.old) × (BLOCKS ≤ length records.old) }
    ensures { let A = aids_in input.entry in
        let before = lent_of samples.old records.old in
        Leaves A (sheet_lines A front.entry) before (back_told result) (lent_of samples.new records.new) }
{
    let mut drawn = [0u8; SAMPLES];
    let mut kept = [[0i32; 4]; BLOCKS];
    let area = front.sheet.area();
    let blocks = front.sheet.blocks() as usize;
    let place = PlaceInput {
        list: input.list_for(front.sheet.n as usize),
        table: front.table.as_slice(),
        texture: input.texture,
    };
    let from = Reading {
        rest: front.rest,
        line: 5 + front.table.len() as u32,
        sheet: front.sheet,
    };
    let sheet = read_blocks(from, &mut drawn[..area], place, &mut kept[..blocks])?;
    samples[..area].copy_from_slice(&drawn[..area]);
    records[..blocks].copy_from_slice(&kept[..blocks]);
    Ok(FileBack {
        sheet,
        values: front.table.len() as u32,
        table: filled(front.table.as_slice()),
    })
}

// Reads a file with a list for each size: its records, and the samples that placing them in turn on an empty sheet gives, come into the
// lent slices, and the finished state and the table are answered; or a refusal and its line, and nothing is altered.
#[tactic(auto, using(crate::proofs::BackLaws::opened))]
pub fn read(
    bytes: &[u8],
    input: ReadInput,
    samples: &mut [u8],
    records: &mut [[i32; 4]],
) -> Result<FileBack, LineRefusal>
    ensures { let A = aids_in input.entry in
        let before = lent_of samples.old records.old in
        Reads A before bytes.now (back_told result) (lent_of samples.new records.new) }
{
    if !lengths_ok(input, samples.len(), records.len()) {
        return Err(LineRefusal {
            refusal: Refusal::Length,
            line: 0,
        });
    }
    let front = read_front(bytes, input.texture.len())?;
    // The arrays are cleared for each file, so a small sheet has short ones.
    if front.sheet.area() <= SMALL_SAMPLES {
        read_with::<SMALL_SAMPLES, SMALL_BLOCKS>(front, input, samples, records)
    } else {
        read_with::<MOST_SAMPLES, MOST_BLOCKS>(front, input, samples, records)
    }
}
