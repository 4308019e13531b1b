// The frames of a recording, and the samples of a channel in a frame.
#![tactic(auto)]

ghost use Rattle.std.specs.Prelude.{◌≡◌, ◌+◌, ◌*◌, ◌≤◌, leb, length};
ghost use Rattle.words.specs.Numbers.{number_at};
ghost use Rattle.rules.specs.Rules as R;
ghost use Rattle.rules.specs.Reading.{value_of};
ghost use Rattle.samples.specs.Frames.{float_in, number_in};
ghost use Rattle.samples.specs.Placed.{part_in, PartAnswer};
ghost use Rattle.samples.specs.Asked.{FrameFoundAs, SamplesFoundAs, track_at, ClockAt, Reachable, RunAt};

use descriptions::Places;
use rules::{Channel, Channels, Frame, Frames, Reason, Refusal};
use words::{Order, int, is_nan, number};

#[derive(Clone, Copy)]
pub struct Time {
    pub hour: u32,
    pub minute: u32,
    pub second: u32,
}

// Where samples stand in a file: the first byte, the bytes of one, and how many there are.
#[derive(Clone, Copy)]
pub struct Place {
    pub position: usize,
    pub width: usize,
    pub count: usize,
}

// Where a channel's samples stand in every frame of a recording: by the file's byte order and the channel's format, the place in the first frame, the bytes
// from there to the same place in the next one, how many frames there are, and the seconds of each.
#[derive(Clone, Copy)]
pub struct Track {
    pub order: Order,
    pub format: u32,
    pub first: Place,
    pub step: usize,
    pub frames: u32,
    pub seconds: u32,
}

// A part of a file: its first byte, and its length.
#[derive(Clone, Copy)]
pub struct Cut {
    pub start: usize,
    pub length: usize,
}

// A sample, by the channel's format. A NaN's pattern cannot become an f32, and is answered as its 32 bits.
#[derive(Clone, Copy)]
pub enum Number {
    Whole(i32),
    Float(f32),
    Pattern(u32),
}

// The samples of a channel in a frame: their format, and their place.
#[derive(Clone, Copy)]
pub struct Run {
    pub format: u32,
    pub place: Place,
}

// Whether n of something behind `before` of it are at most `room`, whatever the numbers are.
pub fn fits(room: usize, before: usize, n: usize) -> bool
    ensures { result ≡ leb (before + n) room }
{
    if room < before {
        return false;
    }
    n <= room - before
}

// Whether so many samples of a width are at most `room` bytes, whatever the numbers are.
fn samples_fit(room: usize, width: usize, count: usize) -> bool
    ensures { result ≡ leb (width * count) room }
{
    if width == 0 {
        return true;
    }
    count <= room / width
}

// The part of a file of so many bytes that a place names, whatever its numbers are: the empty part at the file's end where not all of it is inside.
pub fn part_in(bytes: usize, place: Place) -> Cut
    ensures { result ≡ part_in bytes place }
{
    let none = Cut {
        start: bytes,
        length: 0,
    };
    if bytes < place.position {
        return none;
    }
    if !samples_fit(bytes - place.position, place.width, place.count) {
        return none;
    }
    Cut {
        start: place.position,
        length: place.width * place.count,
    }
}

// The bytes of a place, as a part of the file. Another file than the one that the place was found in does no harm.
pub fn part(file: &[u8], place: Place) -> &[u8]
    ensures { PartAnswer file.entry place result }
{
    let cut = part_in(file.len(), place);
    let start = cut.start;
    let end = start + cut.length;
    &file[start..end]
}

// The frame asked for.
pub fn frame_asked(
    file: &[u8],
    recording: usize,
    frame: usize,
) -> Result<(Order, Places, usize), Refusal>
    ensures { FrameFoundAs file.now recording frame result }
{
    let (order, q) = recordings::recording_asked(file, recording)?;
    if !recordings::within(frame, q.total) {
        return Err(Refusal(Reason::Range, 0));
    }
    let before = records::less(frame, 1);
    let at = q.frames + Frames::FIRST + q.frame * before;
    Ok((order, q, at))
}

// The clock of the record 145 at byte `at` of s.
pub fn time_at(o: Order, s: &[u8], at: usize) -> Time
    requires { at + 24 ≤ length s.now }
    ensures { ClockAt o s.now at result }
{
    Time {
        hour: number::<2>(o, s, at + Frame::HOUR),
        minute: number::<2>(o, s, at + Frame::MINUTE),
        second: number::<2>(o, s, at + Frame::SECOND),
    }
}

// The samples of channel c, from 0, in the frame of t seconds at byte `at` of s. The channels' records 125 stand from byte `subs` on.
// Samples that would not be inside s are none.
fn run_at(o: Order, s: &[u8], subs: usize, c: u32, t: u32, at: usize) -> Run
    requires { Reachable (length s.now) subs c t at }
    ensures { RunAt o s.now subs c t at result }
{
    let before = records::channels::sample_bytes(o, s, subs, c, t);
    let p = subs + Channel::LENGTH * c as usize;
    let flags = number::<4>(o, s, p + Channel::FLAGS);
    let format = number::<4>(o, s, p + Channel::FORMAT);
    let rate = number::<4>(o, s, p + Channel::RATE);
    let count = records::channels::samples_in(t, flags, rate);
    let width = records::channels::width(format);
    let start = at + Frame::SAMPLES;
    let room = s.len() - start;
    let bytes = width * count;
    if !fits(room, before, bytes) {
        let place = Place {
            position: at,
            width,
            count: 0,
        };
        return Run { format, place };
    }
    let place = Place {
        position: start + before,
        width,
        count,
    };
    Run { format, place }
}

// The samples asked for.
pub fn samples_asked(
    file: &[u8],
    recording: usize,
    frame: usize,
    channel: usize,
) -> Result<(Order, Places, Run), Refusal>
    ensures { SamplesFoundAs file.now recording frame channel result }
{
    let (order, q, at) = frame_asked(file, recording, frame)?;
    if !recordings::within(channel, q.count) {
        return Err(Refusal(Reason::Range, 0));
    }
    let subs = q.channels + Channels::SUBS;
    let c = (channel - 1) as u32;
    Ok((order, q, run_at(order, file, subs, c, q.seconds, at)))
}

// The track of a channel, by its samples in the first frame.
pub fn track_of(order: Order, q: Places, run: Run) -> Track
    ensures { result ≡ track_at order q run }
{
    let first = run.place;
    Track {
        order,
        format: run.format,
        first,
        step: q.frame,
        frames: q.total,
        seconds: q.seconds,
    }
}

// The sample of 32 bits, in a channel of floats.
fn float_in(bits: u32) -> Number
    ensures { result ≡ float_in bits }
{
    if is_nan(bits) {
        return Number::Pattern(bits);
    }
    Number::Float(f32::from_bits(bits))
}

// The sample at byte p of s, in a channel of this format.
pub fn number_at(o: Order, s: &[u8], p: usize, format: u32) -> Number
    requires { p + R.width format ≤ length s.now }
    ensures { result ≡ number_in (value_of format (R.width format) (number_at o (R.width format) s.now p)) }
{
    if format == Channel::SHORTS {
        return Number::Whole(int::<2>(o, s, p));
    }
    if format == Channel::TRIPLES {
        return Number::Whole(int::<3>(o, s, p));
    }
    if format == Channel::FLOATS {
        return float_in(number::<4>(o, s, p));
    }
    Number::Whole(int::<4>(o, s, p))
}
