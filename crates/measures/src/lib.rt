// How long a recording's canonical form is, and what its records 10 and 140 then say.
#![tactic(auto)]

ghost use Rattle.std.specs.Prelude.{◌≡◌, ◌≤◌};
ghost use Rattle.measures.specs.Measures.{most_served, Large, Smallest, Serves, InOrder, measured_for, Measurable, MeasuredAs};

use bodies::fits;
use rules::{Channels, Frame, Frames, Head, Kind, Label};
use words::Order;

// The size and the multiplier of a record, and the length that they make.
#[derive(Clone, Copy)]
pub struct Sized {
    pub size: u32,
    pub multiplier: u32,
    pub length: usize,
}

impl Sized {
    pub const MOST: usize = 2147483647;

    // What rounds a length divided by MOST up.
    const ROUND: usize = 2147483646;

    pub const LIMIT: usize = 274877906816;
}

// The smallest multiplier that serves a record of n bytes, where the size alone does not.
fn multiplier_for(n: usize) -> usize
    requires { Large n }
    ensures { Smallest n result }
{
    (n + Sized::ROUND) / Sized::MOST
}

// The size and the multiplier of a record of n bytes: no multiplier where the size serves.
fn size_for(n: usize) -> Sized
    requires { n ≤ most_served }
    ensures { Serves n result }
{
    if n <= Sized::MOST {
        return Sized {
            size: n as u32,
            multiplier: 0,
            length: n,
        };
    }
    let m = multiplier_for(n);
    let size = (n + (m - 1)) / m;
    Sized {
        size: size as u32,
        multiplier: m as u32,
        length: size * m,
    }
}

// A recording's 140, which stands at byte `at` of the body and stops at byte `end`; `last` is where the delimiter behind it stops.
// `filled` is a frame's length without padding, `signals` and `whole` the sizes of the canonical 140 and 10.
#[derive(Clone, Copy)]
pub struct Measure {
    pub at: usize,
    pub end: usize,
    pub last: usize,
    pub seconds: u32,
    pub size: usize,
    pub filled: usize,
    pub count: u32,
    pub signals: Sized,
    pub whole: Sized,
}

// The measure of a 140 of which these things are known.
fn measure_for(
    at: usize,
    end: usize,
    last: usize,
    seconds: u32,
    size: usize,
    filled: usize,
    count: u32,
) -> Option<Measure>
    requires { InOrder at end last filled }
    ensures { result ≡ measured_for at end last seconds size filled count }
{
    let n = Frames::FIRST + filled * count as usize;
    if Sized::LIMIT < n {
        return None;
    }
    let signals = size_for(n);
    let whole = Head::LENGTH + (at + signals.length + (last - end));
    if Sized::LIMIT < whole {
        return None;
    }
    Some(Measure {
        at,
        end,
        last,
        seconds,
        size,
        filled,
        count,
        signals,
        whole: size_for(whole),
    })
}

// The measure of the recording whose body is s, with the 140 at byte `at` of it and the records 125 that hold for it in the file.
pub fn measure_of(
    o: Order,
    label: Label,
    file: &[u8],
    cs: Channels,
    at: usize,
    s: &[u8],
    base: usize,
) -> Option<Measure>
    requires { Measurable file.now s.now cs at base }
    ensures { MeasuredAs o label file.now s.now cs at base result }
{
    let h = records::head::head_at(o, s, base, at).ok()?;
    let end = records::kinds::admit(h, base, s.len(), Kind::Frames(label)).ok()?;
    let d = records::makers::next_head(o, label, s, base, end).ok()?;
    let body = &s[at + Head::LENGTH..end];
    let t = records::field(o, body, Frames::SECONDS);
    let size = records::field(o, body, Frames::FRAME_LENGTH) as usize;
    let count = records::field(o, body, Frames::COUNT);
    if Frames::MOST_SECONDS < t {
        return None;
    }
    let bytes = records::channels::sample_bytes(o, file, cs.subs, cs.count, t);
    if !fits(bytes, size, count, body.len()) {
        return None;
    }
    let filled = Frame::SAMPLES + bytes;
    measure_for(at, end, d.at + Head::LENGTH, t, size, filled, count)
}
