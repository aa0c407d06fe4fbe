// Prints the sheet of the record file on standard input, or its refusal (document 01, "House file").
#![tactic(auto)]

ghost use Rattle.std.specs.Prelude.{◌≤◌, length, IfOk};

use show_text::{FILE_BYTES, TEXT_BYTES};
use std::io;
use std::io::Read;

// Reads until the slice is full or the input ends; the number of bytes read. A loop, since std fills a slice only where the input has as
// many bytes. Each program has its own: a shared one is public, and what a generic `Read` gives has no definition to promise by.
fn read_full(input: &mut impl Read, buf: &mut [u8]) -> io::Result<usize>
    ensures { IfOk result (λ n. n ≤ length buf.new) }
{
    let mut done = 0;
    while done < buf.len() {
        let read = input.read(&mut buf[done..])?;
        if read == 0 {
            break;
        }
        done += read;
    }
    Ok(done)
}

// Reads as many bytes as can change what is shown (`first-bytes` in crates/show_text/proofs/FirstBytes.antt), and writes what is shown.
fn main(rt: HostRuntime) -> io::Result<()> {
    let mut file = [0u8; FILE_BYTES];
    let read = read_full(&mut rt.reader(), &mut file)?;
    let mut text = [0u8; TEXT_BYTES];
    match show_text::show_text(&file[..read], &mut text) {
        Ok(length) => rt.write_all(&text[..length]),
        Err(_) => Ok(()),
    }
}
