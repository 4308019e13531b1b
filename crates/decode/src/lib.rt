// The numbers of a run of bytes, decoded into a lent buffer: one loop for all formats but that of three bytes, told what the bytes of a number mean.
// The order is a bool here and not an `Order`: a call that tells it as a constant is then made a loop of its own by the compiler.
#![tactic(auto)]

ghost use Rattle.std.specs.Prelude.{◌≡◌, ◌+◌, ◌*◌, ◌≤◌, ◌<◌, ℕ, pos, length, get_or};
ghost use Rattle.words.specs.Numbers.{number_at};
ghost use Rattle.words.specs.Values.{signed};
ghost use Rattle.words.specs.declared.Order.TheVariants as Order;
ghost use Rattle.rules.specs.Rules as R;
ghost use Rattle.decode.specs.Decoded.{Decoded, itself};
ghost use Rattle.decode.specs.Wide.{order_for, whole, NumberAt};

use rules::Channel;
use words::Order;

// The signed number of two bytes. A function for each width: the method that puts its bytes together is that of a type, which no const parameter names.
fn short(big: bool, bytes: [u8; 2]) -> i16
    ensures { result ≡ whole big 2 bytes }
{
    if big {
        return i16::from_be_bytes(bytes);
    }
    i16::from_le_bytes(bytes)
}

// The signed number of three bytes: as the upper three of four they have their sign, and the shift keeps it.
fn triple(big: bool, bytes: [u8; 3]) -> i32
    ensures { result ≡ whole big 3 bytes }
{
    if big {
        return i32::from_be_bytes([bytes[0], bytes[1], bytes[2], 0]) >> 8;
    }
    i32::from_le_bytes([0, bytes[0], bytes[1], bytes[2]]) >> 8
}

// The signed number of four bytes.
fn long(big: bool, bytes: [u8; 4]) -> i32
    ensures { result ≡ whole big 4 bytes }
{
    if big {
        return i32::from_be_bytes(bytes);
    }
    i32::from_le_bytes(bytes)
}

// The signed number of two bytes at a place, in 16 bits.
pub fn short_at(big: bool, s: &[u8], at: usize) -> i16
    requires { at + 2 ≤ length s.now }
    ensures { result ≡ signed 2 (number_at (order_for big) 2 s.now at) }
{
    short(big, [s[at], s[at + 1]])
}

// Four bytes at a place, by their order. A function for each order, since in one that uses the bytes once the compiler makes one load of them.
fn little_at(s: &[u8], at: usize) -> i32
    requires { at + 4 ≤ length s.now }
    ensures { result ≡ signed 4 (number_at Order.Little 4 s.now at) }
{
    i32::from_le_bytes([s[at], s[at + 1], s[at + 2], s[at + 3]])
}

fn big_at(s: &[u8], at: usize) -> i32
    requires { at + 4 ≤ length s.now }
    ensures { result ≡ signed 4 (number_at Order.Big 4 s.now at) }
{
    i32::from_be_bytes([s[at], s[at + 1], s[at + 2], s[at + 3]])
}

// The signed number of three bytes at a place: where there is a byte before them, all four are one load, and the shifts leave that byte behind.
fn triple_at(big: bool, s: &[u8], at: usize) -> i32
    requires { at + 3 ≤ length s.now }
    ensures { result ≡ signed 3 (number_at (order_for big) 3 s.now at) }
{
    if at == 0 {
        return triple(big, [s[0], s[1], s[2]]);
    }
    if big {
        return big_at(s, at - 1) << 8 >> 8;
    }
    little_at(s, at - 1) >> 8
}

// The signed number of so many bytes at a place, in 32 bits.
pub fn long_at(big: bool, width: usize, s: &[u8], at: usize) -> i32
    requires { NumberAt width s.now at }
    ensures { result ≡ signed width (number_at (order_for big) width s.now at) }
{
    if width == 2 {
        return i32::from(short_at(big, s, at));
    }
    if width == 3 {
        return triple_at(big, s, at);
    }
    long(big, [s[at], s[at + 1], s[at + 2], s[at + 3]])
}

// Each number of `d` is what the bytes at its place mean.
fn fill<A: Copy, T: Copy, F: Fn(A) -> T>(places: &[A], d: &mut [T], means: F)
    requires room { length places.now ≡ length d.old }
    requires callable { F.IsAlwaysCallable means }
    ensures { (x : A) (y : T) (q : ℕ) → q < length d.old → F.post means (get_or places.now q x) (get_or d.new q y) }
{
    for (i, number) in d.iter_mut().enumerate() {
        *number = means(places[i]);
    }
}

// The numbers of three bytes. A loop of its own, since no chunk of three has the byte before it.
fn triples(big: bool, s: &[u8], d: &mut [i64])
    requires { length s.now ≡ length d.old * 3 }
    ensures { Decoded (pos 0) (signed 3) (order_for big) 3 s.now d.old d.new }
{
    for (i, number) in d.iter_mut().enumerate() {
        *number = i64::from(triple_at(big, s, i * 3));
    }
}

// The whole numbers of a channel of this format. An arm for each width, since the bytes of a place are a type of their own.
fn numbers_in(big: bool, format: u32, s: &[u8], d: &mut [i64])
    requires { length s.now ≡ length d.old * R.width format }
    ensures { Decoded (pos 0) (signed (R.width format)) (order_for big) (R.width format) s.now d.old d.new }
{
    match format {
        Channel::SHORTS => fill(
            s.as_chunks().0,
            d,
            |bytes| -> i64
                ensures { result ≡ whole big 2 bytes }
            { i64::from(short(big, bytes)) },
        ),
        Channel::TRIPLES => triples(big, s, d),
        _ => fill(
            s.as_chunks().0,
            d,
            |bytes| -> i64
                ensures { result ≡ whole big 4 bytes }
            { i64::from(long(big, bytes)) },
        ),
    }
}

// The whole numbers of a channel of this format.
pub fn numbers(o: Order, format: u32, s: &[u8], d: &mut [i64])
    requires { length s.now ≡ length d.old * R.width format }
    ensures { Decoded (pos 0) (signed (R.width format)) o (R.width format) s.now d.old d.new }
{
    match o {
        Order::Little => numbers_in(false, format, s, d),
        Order::Big => numbers_in(true, format, s, d),
    }
}

// The 32 bits of floats.
pub fn patterns(o: Order, s: &[u8], d: &mut [u32])
    requires { length s.now ≡ length d.old * 4 }
    ensures { Decoded 0 itself o 4 s.now d.old d.new }
{
    match o {
        Order::Little => fill(s.as_chunks().0, d, u32::from_le_bytes),
        Order::Big => fill(s.as_chunks().0, d, u32::from_be_bytes),
    }
}
