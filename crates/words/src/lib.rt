// Numbers in the bytes of a file: words in either byte order, their signed values, whether they are a NaN's, and the first byte that is not zero.
#![tactic(auto)]

ghost use Rattle.std.specs.Prelude.{◌≡◌, ◌+◌, ◌≤◌, ◌<◌, length, get_or};
ghost use Rattle.words.specs.Numbers.{number_at, bytes_in};
ghost use Rattle.words.specs.Values.{word_count, signed, Halved};
ghost use Rattle.words.specs.declared.Order.TheVariants.{Little, Big};
ghost use Rattle.words.specs.Floats.{nan_pattern};
ghost use Rattle.words.specs.Runs.{first_nonzero, Zeros};

// The byte order of a file.
#[derive(Clone, Copy, Debug, PartialEq, Eq)]
pub enum Order {
    Little,
    Big,
}

// One byte, as a number.
pub fn byte(s: &[u8], at: usize) -> u32
    requires { at < length s.now }
    ensures { (result ≡ get_or s.now at 0) × (result < 256) }
{
    s[at] as u32
}

// The number of W bytes, the least first: copied into four, of which the compiler makes one load.
fn little<const W: usize>(s: &[u8], at: usize) -> u32
    requires width { W ≤ 4 }
    requires within { at + W ≤ length s.now }
    ensures { (result ≡ number_at Little W s.now at) × (result < word_count W) }
{
    let mut four = [0; 4];
    four[..W].copy_from_slice(&s[at..at + W]);
    u32::from_le_bytes(four)
}

// The number of W bytes, the greatest first.
fn big<const W: usize>(s: &[u8], at: usize) -> u32
    requires width { W ≤ 4 }
    requires within { at + W ≤ length s.now }
    ensures { (result ≡ number_at Big W s.now at) × (result < word_count W) }
{
    let mut four = [0; 4];
    four[4 - W..].copy_from_slice(&s[at..at + W]);
    u32::from_be_bytes(four)
}

// The number of W bytes.
pub fn number<const W: usize>(o: Order, s: &[u8], at: usize) -> u32
    requires width { W ≤ 4 }
    requires within { at + W ≤ length s.now }
    ensures { (result ≡ number_at o W s.now at) × (result < word_count W) }
{
    match o {
        Order::Little => little::<W>(s, at),
        Order::Big => big::<W>(s, at),
    }
}

// The number of W bytes, written.
pub fn put<const W: usize>(to: Order, n: u32, d: &mut [u8])
    requires width { W ≤ 4 }
    requires room { length d.old ≡ W }
    ensures { d.new ≡ bytes_in to W n }
{
    match to {
        Order::Little => d.copy_from_slice(&n.to_le_bytes()[..W]),
        Order::Big => d.copy_from_slice(&n.to_be_bytes()[4 - W..]),
    }
}

// The first negative word of W bytes.
fn first_negative<const W: usize>() -> u32
    requires width { (0 < W) × (W ≤ 4) }
    ensures { Halved W result }
{
    match W {
        1 => 128,
        2 => 32768,
        3 => 8388608,
        _ => 2147483648,
    }
}

// The signed value of a word of W bytes.
pub fn signed<const W: usize>(n: u32) -> i32
    requires width { (0 < W) × (W ≤ 4) }
    requires word { n < word_count W }
    ensures { result ≡ signed W n }
{
    let half = first_negative::<W>();
    if n < half {
        return n as i32;
    }
    let left = half - 1 - (n - half);
    -1 - left as i32
}

// The signed number of W bytes.
pub fn int<const W: usize>(o: Order, s: &[u8], at: usize) -> i32
    requires width { (0 < W) × (W ≤ 4) }
    requires within { at + W ≤ length s.now }
    ensures { result ≡ signed W (number_at o W s.now at) }
{
    signed::<W>(number::<W>(o, s, at))
}

// Whether 32 bits are a NaN's, which cannot become an f32: below the sign's bit, more than an infinity has.
pub fn is_nan(bits: u32) -> bool
    ensures { result ≡ nan_pattern bits }
{
    bits % 2147483648 > 2139095040
}

// How many bytes of 0 stand at the front, by fours, each of which the compiler tests at once.
fn zero_fours(s: &[u8]) -> usize
    ensures { Zeros s.now result }
{
    let (fours, _) = s.as_chunks::<4>();
    let passed = fours.iter().position(|four| u32::from_le_bytes(*four) != 0);
    4 * passed.unwrap_or(fours.len())
}

// Where the first byte stands that is not 0, or the length. A run of 2 GB may be all 0: so it is passed by fours first.
pub fn first_nonzero(s: &[u8]) -> usize
    ensures { result ≡ first_nonzero s.now }
{
    let passed = zero_fours(s);
    let rest = &s[passed..];
    passed + rest.iter().position(|b| *b != 0).unwrap_or(rest.len())
}
