// Prints the listings of the files packed in data/vectors.bin, each behind its length in four bytes, the least first.
#![tactic(auto)]

use std::io::{self, Read, Write};
use words::{Order, number};

const MOST: usize = 32768;

// More files than are packed: a proved loop has to end.
const FILES: usize = 100000;

// Reads a file as long as `file`, and prints its listing. Answers whether it was there whole.
fn list_file<R: Read, W: Write>(from: &mut R, to: &mut W, file: &mut [u8]) -> io::Result<bool> {
    if lister::read_full(from, file)? < file.len() {
        return Ok(false);
    }
    lister::print_listing(to, file)?;
    Ok(true)
}

// Reads a length and the file behind it, and prints its listing. Answers whether to go on.
fn list_next<R: Read, W: Write>(from: &mut R, to: &mut W) -> io::Result<bool> {
    let mut head = [0u8; 4];
    if lister::read_full(from, &mut head)? < 4 {
        return Ok(false);
    }
    let n = number::<4>(Order::Little, &head, 0) as usize;
    if MOST < n {
        return Ok(false);
    }
    let mut buf = [0u8; MOST];
    list_file(from, to, &mut buf[..n])
}

fn main(rt: HostRuntime) -> io::Result<()> {
    let mut file = std::fs::open(&rt, "vectors.bin")?;
    let mut to = io::writer(&rt);
    for _ in 0..FILES {
        if !list_next(&mut file, &mut to)? {
            return Ok(());
        }
    }
    Ok(())
}
