// Reads cases from standard input, one a line, makes the call that each names, and prints a line with its answer. outside/README.md has
// the form of the cases and of the answers. A line of another form ends the program with the line `bad case`, and a byte 0 in the place of
// a line ends it.
#![tactic(auto)]

mod blocks;
mod call;
mod fields;
mod output;
mod patterns;
mod reader;
mod sheets;

use call::Case;
use fields::Fields;
use reader::TEXT;
use sheet::MOST_SAMPLES;
use std::io;
use wedgelet::LIST_WORDS;

// One sample more than the greatest sheet has; a block has fewer.
const SAMPLES: usize = MOST_SAMPLES + 1;

// One more than the neighbours of the greatest block.
const NEIGHBOURS: usize = pattern::NEIGHBOURS + 1;

// Some values more than the greatest table has.
const VALUES: usize = 300;

// Makes the slices of a case, and the call that two letters name, and prints its answer; whether they name a call.
fn answer(rt: &impl Print, letters: &[u8], fields: &Fields) -> io::Result<bool> {
    let mut words = [0u64; LIST_WORDS];
    let mut block = [0u8; SAMPLES];
    let mut neighbours = [0u8; NEIGHBOURS];
    let mut values = [0u8; VALUES];
    let mut textures = [0u8; SAMPLES];
    let mut originals = [0u8; SAMPLES];
    let list = fields.list(&mut words);
    let samples = fields.samples(b's', &mut block);
    let case = Case {
        rt,
        fields,
        border: fields.samples(b'n', &mut neighbours),
        table: fields.samples(b't', &mut values),
        texture: fields.samples(b'x', &mut textures),
        original: fields.samples(b'o', &mut originals),
    };
    case.answer(letters, list, samples)
}

// Answers the case that comes first, which ends in a line end, and gives the text after it; none where it is no case. The first and the
// third byte name its call.
fn case<'a>(rt: &impl Print, text: &'a [u8]) -> io::Result<Option<&'a [u8]>> {
    let letters = [0, 2].map(|k| text.get(k).copied().unwrap_or(0));
    let (word, after) = reader::split_digits(text, 36);
    let mut fields = Fields::new();
    let rest = fields.read(after);
    rt.write_all(word)?;
    let named = answer(rt, &letters, &fields)?;
    rt.write_all(b"\n")?;
    match rest.and_then(|rest| rest.strip_prefix(b"\n")) {
        Some(next) if named => Ok(Some(next)),
        _ => {
            rt.write_all(b"bad case\n")?;
            Ok(None)
        }
    }
}

// Answers the cases of a text, one after the other, as far as the first that is none, or a byte 0 in its place. Each has a byte at least,
// so there are no more of them than bytes.
fn cases(rt: &impl Print, text: &[u8]) -> io::Result<()> {
    let mut rest = text;
    for _ in 0..text.len() {
        if rest.first().is_none_or(|b| *b == 0) {
            break;
        }
        let Some(next) = case(rt, rest)? else {
            break;
        };
        rest = next;
    }
    Ok(())
}

fn main(rt: HostRuntime) -> io::Result<()> {
    let mut text = [0u8; TEXT];
    let text = reader::read_text(&mut rt.reader(), &mut text)?;
    cases(&rt, text)
}
