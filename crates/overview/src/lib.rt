// The thirty-second overview of a channel: the smallest and the largest sample of each epoch, and how many there are. It is above the library, and goes by what
// the library's contracts say. Epochs are asked for from 0; a frame counts whole in the epoch that it starts in.
#![tactic(auto)]

pub mod extremes;

ghost use Rattle.std.specs.Prelude.{◌≡◌, ◌++◌, ◌+◌, ◌-◌, ◌*◌, ◌/◌, length, drop};
ghost use Rattle.std.proofs.lemmas.List.Edits.{sets};
ghost use Rattle.rules.specs.Rules as R;
ghost use Rattle.recordings.specs.Answers.{meaning};
ghost use Rattle.overview.specs.Overview.{within, OverviewAnswer, RangeAnswer};
ghost use Rattle.overview.specs.Steps.{extremes_of, frame_numbers, frames_numbers, FrameThere, FramesThere};
ghost use Rattle.overview.specs.Steps.{started_by, Second, EpochThere, EpochIs, EpochsFoundAs, numbers_of, Puts, EpochsThere, epochs_numbers};
ghost use Rattle.overview.specs.Flat.{flat_overview, flat_counted, OverviewAnswers, RangeAnswers};

use crate::extremes::{Extremes, of_both, of_pair, of_part};
use rules::{Reason, Refusal};
use samples::Track;

// An epoch: its seconds, and the numbers that a range has of one.
#[derive(Clone, Copy)]
pub struct Epoch {}

impl Epoch {
    pub const SECONDS: u64 = 30;

    pub const NUMBERS: usize = 3;
}

// The smallest and the largest sample, and how many there are.
#[derive(Clone, Copy)]
pub struct Envelope {
    pub smallest: i64,
    pub largest: i64,
    pub count: usize,
}

impl Envelope {
    // In numbers, an epoch without samples.
    const EMPTY: Envelope = Envelope {
        smallest: 0,
        largest: 0,
        count: 0,
    };
}

// Whether a channel of this format has whole numbers.
fn is_whole(format: u32) -> bool
    ensures { result ≡ R.between 1 3 format }
{
    if format < 1 {
        return false;
    }
    format <= 3
}

// The seconds of all frames: F times T.
fn seconds_of(t: Track) -> u64
    ensures { result ≡ t.frames * t.seconds }
{
    t.frames as u64 * t.seconds as u64
}

// Whether so many epochs from the first on start before the last frame is over; where there are none, the first may start there too.
fn is_inside(t: Track, first: usize, number: usize) -> bool
    ensures { result ≡ within (t.frames * t.seconds) first number }
{
    let all = seconds_of(t);
    if number == 0 {
        return first as u64 <= all / Epoch::SECONDS;
    }
    let last = number as u64 - 1;
    let epochs = all / Epoch::SECONDS;
    if epochs < last {
        return false;
    }
    if epochs - last < first as u64 {
        return false;
    }
    Epoch::SECONDS * (first as u64 + last) < all
}

// How many frames start before a second: the one behind n others starts at n times T.
fn started_by(t: Track, second: u64) -> u64
    requires { Second t second }
    ensures { result ≡ started_by t second }
{
    let each = t.seconds as u64;
    let n = (second + (each - 1)) / each;
    let all = t.frames as u64;
    if all < n {
        return all;
    }
    n
}

// The samples of the frame behind n others.
fn of_frame(file: &[u8], t: Track, n: u64) -> Extremes
    requires { FrameThere (length file.now) t n }
    ensures { result ≡ extremes_of (frame_numbers file.now t n) }
{
    let place = t.first;
    let start = place.position + t.step * n as usize;
    let end = start + place.width * place.count;
    let order = t.order;
    of_part(order, place.width, &file[start..end])
}

// The samples of that frame and of the next.
fn of_two_frames(file: &[u8], t: Track, n: u64) -> Extremes
    requires { FramesThere (length file.now) t n (n + 2) }
    ensures { result ≡ extremes_of (frames_numbers file.now t n 2) }
{
    let place = t.first;
    let start = place.position + t.step * n as usize;
    let next = start + t.step;
    let taken = place.width * place.count;
    let order = t.order;
    of_pair(
        order,
        place.width,
        &file[start..start + taken],
        &file[next..next + taken],
    )
}

// The samples of the frames from the one behind n others on, up to the one behind `end` others: by two, since a short frame's samples are waited for longer
// than they are gone through.
fn of_frames(file: &[u8], t: Track, n: u64, end: u64) -> Extremes
    requires { FramesThere (length file.now) t n end }
    ensures { result ≡ extremes_of (frames_numbers file.now t n (end - n)) }
{
    let mut x = of_frame(file, t, n);
    for i in 0..(end - n - 1) / 2 {
        let y = of_two_frames(file, t, n + 1 + 2 * i);
        x = of_both(x, y);
    }
    let left = (end - n) % 2 == 0;
    if left {
        let y = of_frame(file, t, end - 1);
        x = of_both(x, y);
    }
    x
}

// The samples of an epoch, if it has any.
fn epoch_of(file: &[u8], t: Track, epoch: usize) -> Option<Envelope>
    requires { EpochThere (length file.now) t epoch }
    ensures { EpochIs file.now t epoch result }
{
    let second = Epoch::SECONDS * epoch as u64;
    let first = started_by(t, second);
    let end = started_by(t, second + Epoch::SECONDS);
    let place = t.first;
    if place.count == 0 {
        return None;
    }
    if end <= first {
        return None;
    }
    let x = of_frames(file, t, first, end);
    Some(Envelope {
        smallest: i64::from(x.smallest),
        largest: i64::from(x.largest),
        count: place.count * (end - first) as usize,
    })
}

// The track of a channel of whole numbers, where so many epochs from the first on are inside.
fn epochs_asked(
    file: &[u8],
    recording: usize,
    channel: usize,
    first: usize,
    number: usize,
) -> Result<Track, Refusal>
    ensures { EpochsFoundAs file.now recording channel first number result }
{
    let t = questions::track(file, recording, channel)?;
    if !is_whole(t.format) {
        return Err(Refusal(Reason::Range, 0));
    }
    if !is_inside(t, first, number) {
        return Err(Refusal(Reason::Range, 0));
    }
    Ok(t)
}

// The overview of one epoch of a channel, if it has samples.
pub fn overview(
    file: &[u8],
    recording: usize,
    channel: usize,
    epoch: usize,
) -> Result<Option<Envelope>, Refusal>
    ensures { OverviewAnswer file.now recording channel epoch result }
{
    let t = epochs_asked(file, recording, channel, epoch, 1)?;
    Ok(epoch_of(file, t, epoch))
}

// The three numbers of an epoch, from index `at` on.
fn put(x: Envelope, out: &mut [i64], at: usize)
    requires { Puts x out.old at }
    ensures { out.new ≡ sets out.old at (numbers_of x) }
{
    let smallest = x.smallest;
    let largest = x.largest;
    let count = x.count as i64;
    out[at] = smallest;
    out[at + 1] = largest;
    out[at + 2] = count;
}

// The numbers of so many epochs from the first on.
fn put_all(file: &[u8], t: Track, first: usize, number: usize, out: &mut [i64])
    requires { EpochsThere (length file.now) t first number out.old }
    ensures { out.new ≡ epochs_numbers file.now t first number ++ drop (3 * number) out.old }
{
    for q in 0..number {
        let x = epoch_of(file, t, first + q).unwrap_or(Envelope::EMPTY);
        put(x, out, Epoch::NUMBERS * q);
    }
}

// The overview of several epochs of a channel, and how many were written: three numbers each, 0 0 0 where one is empty.
pub fn overview_range(
    file: &[u8],
    recording: usize,
    channel: usize,
    first: usize,
    number: usize,
    out: &mut [i64],
) -> Result<usize, Refusal>
    ensures { RangeAnswer file.now recording channel first number out.old out.new result }
{
    let t = epochs_asked(file, recording, channel, first, number)?;
    let need = Epoch::NUMBERS * number;
    if out.len() < need {
        return Err(Refusal(Reason::Room, need));
    }
    put_all(file, t, first, number, out);
    Ok(number)
}

// What C and Rust call, by crate `overview_c`: the refusal and its position, or 0 and 0; then the values, which are 0 for a refusal and for an empty epoch.
#[repr(C)]
#[derive(Clone, Copy)]
pub struct Overviewed {
    pub refusal: u32,
    pub position: u64,
    pub smallest: i64,
    pub largest: i64,
    pub count: u64,
}

// How many epochs.
#[repr(C)]
#[derive(Clone, Copy)]
pub struct Counted {
    pub refusal: u32,
    pub position: u64,
    pub count: u64,
}

impl From<Result<Option<Envelope>, Refusal>> for Overviewed {
    ghost from_gives = { λ a x. x ≡ flat_overview (meaning a) };

    fn from(a: Result<Option<Envelope>, Refusal>) -> Overviewed {
        match a {
            Ok(found) => {
                let x = found.unwrap_or(Envelope::EMPTY);
                Overviewed {
                    refusal: 0,
                    position: 0,
                    smallest: x.smallest,
                    largest: x.largest,
                    count: x.count as u64,
                }
            }
            Err(r) => Overviewed {
                refusal: r.0.number(),
                position: r.1 as u64,
                smallest: 0,
                largest: 0,
                count: 0,
            },
        }
    }
}

impl From<Result<usize, Refusal>> for Counted {
    ghost from_gives = { λ a x. x ≡ flat_counted (meaning a) };

    fn from(a: Result<usize, Refusal>) -> Counted {
        match a {
            Ok(n) => Counted {
                refusal: 0,
                position: 0,
                count: n as u64,
            },
            Err(r) => Counted {
                refusal: r.0.number(),
                position: r.1 as u64,
                count: 0,
            },
        }
    }
}

// The overview of one epoch.
pub fn psg_overview(file: &[u8], recording: usize, channel: usize, epoch: usize) -> Overviewed
    ensures { OverviewAnswers file.now recording channel epoch result }
{
    overview(file, recording, channel, epoch).into()
}

// The overview of several epochs: how many were written.
pub fn psg_overview_range(
    file: &[u8],
    recording: usize,
    channel: usize,
    first: usize,
    number: usize,
    out: &mut [i64],
) -> Counted
    ensures { RangeAnswers file.now recording channel first number out.old out.new result }
{
    overview_range(file, recording, channel, first, number, out).into()
}
