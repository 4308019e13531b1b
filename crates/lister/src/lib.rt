// Reads files, and prints what the table says of one: a record a line, or the refusal. An `Err` is a read's or a write's: of
// what the writer holds then nothing is said, since std's `write_all` says nothing of it.
#![tactic(auto)]

ghost use Rattle.std.specs.Fmt.{signed_decimal};
ghost use Rattle.std.specs.Io.{ReadsAtMost};
ghost use Rattle.std.specs.Io.KnownBytes.{Appends, Consumes, IsAtEnd};
ghost use Rattle.std.specs.Prelude.{◌<◌, ◌≡◌, nat_abs, min, IfOk, ℕ, IfSome, OnErr, OnOk, length, take};
ghost use Rattle.lister.specs.Listing.{line_at, lines_in, refusal_line, listing_of, printed_of};

use std::io::{self, Read, Write};

// The longest file that is listed. It has at most 2,048 records, of four numbers each.
const MOST: usize = 32768;

const ROWS: usize = 2048;

// Reads until `buf` is full or the input ends. Answers how many bytes it put at the start of `buf`.
pub fn read_full<R: Read>(from: &mut R, buf: &mut [u8]) -> io::Result<usize>
    ensures bound { ReadsAtMost result buf.new }
    ensures bytes { IfOk result (λ n. Consumes (R.remaining from.old) (R.remaining from.new) (take n buf.new)) }
    ensures end { IfOk result (λ n. n < length buf.old → IsAtEnd (R.remaining from.new)) }
    ensures err { OnErr result ((n : ℕ) × Consumes (R.remaining from.old) (R.remaining from.new) (take n buf.new)) }
{
    let mut done = 0;
    // How many reads it takes is the reader's to say.
    while done < buf.len() {
        let n = from.read(&mut buf[done..])?;
        if n == 0 {
            break;
        }
        done += n;
    }
    Ok(done)
}

// A number without its sign. -1 - n does not overflow where -n might.
fn magnitude(n: i64) -> u64
    ensures { result ≡ nat_abs n }
{
    if n < 0 { (-1 - n) as u64 + 1 } else { n as u64 }
}

// A number of a row, with a sign where it is negative.
fn print_number<W: Write>(to: &mut W, n: i64) -> io::Result<()>
    ensures { OnOk result (Appends (W.contents to.old) (W.contents to.new) (signed_decimal n)) }
{
    if n < 0 {
        to.write_all(b"-")?;
    }
    write!(to, "{}", magnitude(n))
}

// The row whose four numbers start at `at`.
fn print_row<W: Write>(to: &mut W, out: &[i64; 8192], at: usize) -> io::Result<()>
    requires { at < 8189 }
    ensures { OnOk result (Appends (W.contents to.old) (W.contents to.new) (line_at out.now at)) }
{
    print_number(to, out[at])?;
    to.write_all(b" ")?;
    print_number(to, out[at + 1])?;
    to.write_all(b" ")?;
    print_number(to, out[at + 2])?;
    to.write_all(b" ")?;
    print_number(to, out[at + 3])?;
    to.write_all(b"\n")
}

fn print_rows<W: Write>(to: &mut W, out: &[i64; 8192], n: usize) -> io::Result<()>
    ensures { OnOk result (Appends (W.contents to.old) (W.contents to.new) (lines_in (min n 2048) out.now)) }
{
    for i in 0..ROWS {
        if n <= i {
            return Ok(());
        }
        print_row(to, out, 4 * i)?;
    }
    Ok(())
}

// The refusal's line.
pub fn print_refusal<W: Write>(to: &mut W, number: u64, at: u64) -> io::Result<()>
    ensures { OnOk result (Appends (W.contents to.old) (W.contents to.new) (refusal_line number at)) }
{
    writeln!(to, "refused {number} at {at}")
}

// The listing of a file of at most 32,768 bytes.
pub fn print_listing<W: Write>(to: &mut W, file: &[u8]) -> io::Result<()>
    ensures { OnOk result (Appends (W.contents to.old) (W.contents to.new) (listing_of file.now)) }
{
    let mut out = [0i64; 8192];
    match table::table(file, &mut out) {
        Ok(n) => print_rows(to, &out, n),
        Err(r) => print_refusal(to, r.0.number() as u64, r.1 as u64),
    }
}

// The listing of all that the input has, or refusal 17 where that is more than 32,768 bytes.
pub fn list<R: Read, W: Write>(from: &mut R, to: &mut W) -> io::Result<()>
    ensures { OnOk result (IfSome (R.remaining from.old) (λ s. Appends (W.contents to.old) (W.contents to.new) (printed_of s))) }
{
    let mut buf = [0u8; MOST + 1];
    let n = read_full(from, &mut buf)?;
    if MOST < n {
        return print_refusal(to, 17, MOST as u64);
    }
    print_listing(to, &buf[..n])
}
