// Runs of bytes in bulk: copied, cleared, and numbers of one width turned to the other byte order.
#![tactic(auto)]

ghost use Rattle.std.specs.Prelude.{◌≡◌, ◌++◌, ◌*◌, ◌≤◌, length, drop, replicate};
ghost use Rattle.words.specs.Numbers.{word, bytes_of};
ghost use Rattle.words.specs.Runs.{turned};
ghost use Rattle.bulk.specs.Masks.{woven_word};
ghost use Rattle.bulk.specs.Runs.{Run, NumbersPart, RunFits};

use words::{Order, number, put};

// One number of W bytes, turned: read in one order and written in the other.
fn turn_number<const W: usize>(s: &[u8], d: &mut [u8])
    requires width { W ≤ 4 }
    requires run { Run W 1 s.now d.old }
    ensures { d.new ≡ turned W 1 s.now }
{
    put::<W>(Order::Big, number::<W>(Order::Little, s, 0), d);
}

// A run of n numbers of W bytes, turned, of which the compiler makes wide code where W is 2 or 4.
#[tactic(auto, using(crate::proofs::Loops::turning_one))]
fn turn_numbers<const W: usize>(n: usize, src: &[u8], dst: &mut [u8])
    requires width { W ≤ 4 }
    requires run { Run W n src.now dst.old }
    ensures { dst.new ≡ turned W n src.now }
{
    for i in 0..n {
        let at = i * W;
        let end = at + W;
        turn_number::<W>(&src[at..end], &mut dst[at..end]);
    }
}

// The number of eight bytes, the least byte first.
pub fn word_of_8(s: &[u8]) -> u64
    requires { length s.now ≡ 8 }
    ensures { result ≡ word s.now }
{
    let mut bytes = [0; 8];
    bytes.copy_from_slice(&s[..8]);
    u64::from_le_bytes(bytes)
}

// Eight bytes, each of them the byte that stands two places behind, the one that stands there or the one two places before, by three masks.
fn woven(s: &[u8], a: u64, b: u64, c: u64) -> u64
    requires { length s.now ≡ 12 }
    ensures { result ≡ woven_word s.now a b c }
{
    let x = word_of_8(&s[4..12]);
    let y = word_of_8(&s[2..10]);
    let z = word_of_8(&s[0..8]);
    (x & a) | (y & b) | (z & c)
}

// Three words of eight bytes.
#[derive(Clone, Copy)]
struct Words {
    a: u64,
    b: u64,
    c: u64,
}

// Eight numbers of three bytes, turned, as words, from their bytes with two before and two behind.
// What belongs into a word is loaded three times, two bytes apart, so that every byte stands where it belongs in one of the three.
fn turned_words(s: &[u8]) -> Words
    requires { length s.now ≡ 28 }
    ensures { (bytes_of 8 result.a ++ bytes_of 8 result.b) ++ bytes_of 8 result.c ≡ turned 3 8 (drop 2 s.now) }
{
    let a = woven(
        &s[0..12],
        0x00ff_0000_ff00_00ff,
        0xff00_00ff_0000_ff00,
        0x0000_ff00_00ff_0000,
    );
    let b = woven(
        &s[8..20],
        0xff00_00ff_0000_ff00,
        0x0000_ff00_00ff_0000,
        0x00ff_0000_ff00_00ff,
    );
    let c = woven(
        &s[16..28],
        0x0000_ff00_00ff_0000,
        0x00ff_0000_ff00_00ff,
        0xff00_00ff_0000_ff00,
    );
    Words { a: a, b: b, c: c }
}

// The bytes of three words.
fn put_words(d: &mut [u8], w: Words)
    requires { length d.old ≡ 24 }
    ensures { d.new ≡ (bytes_of 8 w.a ++ bytes_of 8 w.b) ++ bytes_of 8 w.c }
{
    d[0..8].copy_from_slice(&w.a.to_le_bytes());
    d[8..16].copy_from_slice(&w.b.to_le_bytes());
    d[16..24].copy_from_slice(&w.c.to_le_bytes());
}

// Eight numbers of three bytes, turned, from their bytes with two before and two behind.
// (Beside it sixteen of them: eight alone are a fifth slower, and one function over the count of blocks needs an array of words and two loops.)
fn eight_of_3(s: &[u8], d: &mut [u8])
    requires { RunFits 8 s.now d.old }
    ensures { d.new ≡ turned 3 8 (drop 2 s.now) }
{
    put_words(d, turned_words(s));
}

// Sixteen numbers of three bytes: all loads, then all stores, which the compiler makes three times sixteen bytes.
fn sixteen_of_3(s: &[u8], d: &mut [u8])
    requires { RunFits 16 s.now d.old }
    ensures { d.new ≡ turned 3 16 (drop 2 s.now) }
{
    let v = turned_words(&s[0..28]);
    let w = turned_words(&s[24..52]);
    put_words(&mut d[0..24], v);
    put_words(&mut d[24..48], w);
}

// A run of n numbers of three bytes, turned. The first and the last are turned by themselves, since a block reads two bytes before it and two behind it.
fn turn3(n: usize, src: &[u8], dst: &mut [u8])
    requires { Run 3 n src.now dst.old }
    ensures { dst.new ≡ turned 3 n src.now }
{
    if n < 2 {
        return turn_numbers::<3>(n, src, dst);
    }
    turn_number::<3>(&src[..3], &mut dst[..3]);
    let blocks = (n - 2) / 16;
    for block in 0..blocks {
        let at = 3 + 48 * block;
        let end = at + 48;
        sixteen_of_3(&src[at - 2..end + 2], &mut dst[at..end]);
    }
    let at = 3 + 48 * blocks;
    let left = n - 1 - 16 * blocks;
    if left <= 8 {
        return turn_numbers::<3>(left, &src[at..], &mut dst[at..]);
    }
    let end = at + 24;
    eight_of_3(&src[at - 2..end + 2], &mut dst[at..end]);
    turn_numbers::<3>(left - 8, &src[end..], &mut dst[end..]);
}

// A run of n numbers of a width, turned.
pub fn turn_run(width: usize, n: usize, src: &[u8], dst: &mut [u8])
    requires { NumbersPart width n src.now dst.old }
    ensures { dst.new ≡ turned width n src.now }
{
    match width {
        2 => turn_numbers::<2>(n, src, dst),
        3 => turn3(n, src, dst),
        _ => turn_numbers::<4>(n, src, dst),
    }
}

// A run of bytes, copied. A loop, of which the compiler makes wide code: the library's copy is a call of memmove, which an archive for C would ask for.
pub fn copy_run(src: &[u8], dst: &mut [u8])
    requires { length dst.old ≡ length src.now }
    ensures { dst.new ≡ src.now }
{
    for i in 0..src.len() {
        dst[i] = src[i];
    }
}

// A run of bytes, all made 0.
pub fn clear_run(dst: &mut [u8])
    ensures { dst.new ≡ replicate (length dst.old) 0 }
{
    dst.fill(0);
}
