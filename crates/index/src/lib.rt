// The index of night events: where the code changes in a channel of events, five signed numbers an entry. The same walk counts entries and writes them.
#![tactic(auto)]

ghost use Rattle.std.specs.Prelude.{◌≡◌, [], ◌∷◌, ◌+◌, ◌*◌, ◌<◌, ◌≤◌, length};
ghost use Rattle.words.specs.Lent.{Wrote};
ghost use Rattle.words.specs.declared.Order.TheVariants.{Little};
ghost use Rattle.rules.specs.Rules as R;
ghost use Rattle.recordings.specs.Recordings.{recording_of};
ghost use Rattle.index.specs.Events.{sample_entries};
ghost use Rattle.index.specs.Index.{numbers, entries_of, Indexes};
ghost use Rattle.index.specs.Listing.{entry_at, of_change, pair_of, words_at, samples_of, Ahead, SamePairs, Samples, Same, Repeated, SamplesAhead};
ghost use Rattle.index.specs.Listing.{SubsIn, events_at, FirstEvents, BehindEvents, Behind, code_behind};
ghost use Rattle.index.specs.Listing.{of_frame, of_recording, ChannelAhead, ChannelListed, FrameAhead, RecordingAhead, FileAhead};

use bulk::word_of_8;
use descriptions::Places;
use judge::recording::recording_again;
use records::channels::{sample_bytes, samples_in, width};
use rules::{Channel, Channels, FileHeader, Frame, Frames, Label, Reason, Refusal};
use samples::{Place, part};
use words::{Order, number};

// A channel in a frame of a recording, each from 1.
#[derive(Clone, Copy)]
struct Spot {
    recording: u32,
    frame: u32,
    channel: u32,
}

// Where the samples of the next channel stand, and where its first entry goes.
#[derive(Clone, Copy)]
struct Passed {
    at: usize,
    k: usize,
}

// The channels of events lie from the first of them, from 0, up to the end; the samples of those before the first take so many bytes of a frame.
#[derive(Clone, Copy)]
struct Stretch {
    first: u32,
    end: u32,
    before: usize,
}

// One entry, if it is to be written and there is room for it.
fn put(out: &mut [i64], k: usize, write: bool, spot: Spot, place: usize, code: u32) -> usize
    requires { Ahead k 1 place }
    ensures { Wrote numbers 5 write out.old out.new k result (entry_at spot place code ∷ []) }
{
    let end = k + 5;
    if !write {
        return end;
    }
    if out.len() < end {
        return end;
    }
    out[k] = spot.recording as i64;
    out[k + 1] = spot.frame as i64;
    out[k + 2] = spot.channel as i64;
    out[k + 3] = place as i64;
    out[k + 4] = code as i64;
    end
}

// The entry of a sample whose code is not the one before it: none for code 0.
fn changed(out: &mut [i64], k: usize, write: bool, spot: Spot, place: usize, code: u32) -> usize
    requires { Ahead k 1 place }
    ensures { Wrote numbers 5 write out.old out.new k result (of_change spot place code) }
{
    if code == 0 {
        return k;
    }
    put(out, k, write, spot, place, code)
}

// The two bytes of a code in this order, as a number whose least byte comes first.
fn pair_of(o: Order, code: u32) -> u16
    requires { code < 65536 }
    ensures { result ≡ pair_of o code }
{
    let pair = code as u16;
    match o {
        Order::Little => pair,
        Order::Big => pair.swap_bytes(),
    }
}

// Whether eight samples are this pair of bytes each, two words at a time.
fn eight_same(s: &[u8; 16], pair: u16) -> bool
    ensures { SamePairs s.now pair result }
{
    let four = u64::from(pair) * 0x0001_0001_0001_0001;
    if word_of_8(&s[0..8]) != four {
        return false;
    }
    word_of_8(&s[8..16]) == four
}

// From sample p on, eights of samples that are all this pair of bytes: where they end.
fn same_eights(s: &[u8], p: usize, pair: u16) -> usize
    requires { p ≤ samples_of s.now }
    ensures { Same Little s.now p pair result }
{
    let eights = s[2 * p..].as_chunks::<16>().0;
    let other = eights.iter().position(|eight| !eight_same(eight, pair));
    p + 8 * other.unwrap_or(eights.len())
}

// From sample p on, the first that is not this code; their number where there is none.
fn repeated(o: Order, s: &[u8], p: usize, code: u32) -> usize
    requires { Samples s.now p code }
    ensures { Repeated o s.now p code result }
{
    let n = s.len() / 2;
    for i in same_eights(s, p, pair_of(o, code))..n {
        if number::<2>(o, s, 2 * i) != code {
            return i;
        }
    }
    n
}

// The entries of the samples of a channel in a frame, behind a code. A `while`, since it goes on from each change to the next.
fn sample_entries(
    o: Order,
    s: &[u8],
    before: u32,
    spot: Spot,
    out: &mut [i64],
    k: usize,
    write: bool,
) -> usize
    requires { SamplesAhead s.now before k }
    ensures { Wrote numbers 5 write out.old out.new k result
        (sample_entries spot.recording spot.frame spot.channel 0 before (words_at o s.now 0 (samples_of s.now))) }
{
    let mut next = k;
    let mut code = before;
    let mut p = repeated(o, s, 0, code);
    while p < s.len() / 2 {
        code = number::<2>(o, s, 2 * p);
        next = changed(out, next, write, spot, p, code);
        p = repeated(o, s, p + 1, code);
    }
    next
}

// Whether the sub at byte p of s is that of a channel of events.
fn events_at(o: Order, s: &[u8], p: usize) -> bool
    requires { p + 256 ≤ length s.now }
    ensures { result ≡ events_at o s.now p }
{
    if number::<4>(o, s, p + Channel::TYPE) != Channel::EVENTS {
        return false;
    }
    number::<4>(o, s, p + Channel::FORMAT) == Channel::SHORTS
}

// The first channel of events, from 0, of the m whose subs stand from byte `subs` on; m where there is none.
fn first_events(o: Order, s: &[u8], subs: usize, m: u32) -> u32
    requires { SubsIn (length s.now) subs m }
    ensures { FirstEvents o s.now subs m result }
{
    for c in 0..m {
        if events_at(o, s, subs + Channel::LENGTH * c as usize) {
            return c;
        }
    }
    m
}

// The channel behind the last of them; 0 where there is none.
fn behind_events(o: Order, s: &[u8], subs: usize, m: u32) -> u32
    requires { SubsIn (length s.now) subs m }
    ensures { BehindEvents o s.now subs m result }
{
    for c in (0..m).rev() {
        if events_at(o, s, subs + Channel::LENGTH * c as usize) {
            return c + 1;
        }
    }
    0
}

// The code before n samples at byte `at` of a frame: the last that stands in the frame before, which is `size` bytes long, or 0 in the first.
fn code_before(o: Order, s: &[u8], frame: u32, at: usize, n: usize, size: usize) -> u32
    requires { Behind (length s.now) frame at n size }
    ensures { (result ≡ code_behind o s.now frame at n size) × (result < 65536) }
{
    if frame == 1 {
        return 0;
    }
    number::<2>(o, s, at - size + 2 * (n - 1))
}

// The entries of channel c, from 0, whose samples in a frame stand at byte `at`.
fn channel_entries(
    o: Order,
    file: &[u8],
    q: Places,
    c: u32,
    at: usize,
    spot: Spot,
    out: &mut [i64],
    k: usize,
    write: bool,
) -> Passed
    requires { ChannelAhead o file.now q spot c at k }
    ensures { ChannelListed file.now spot c at write out.old out.new k result }
{
    let p = q.channels + Channels::SUBS + Channel::LENGTH * c as usize;
    let flags = number::<4>(o, file, p + Channel::FLAGS);
    let format = number::<4>(o, file, p + Channel::FORMAT);
    let rate = number::<4>(o, file, p + Channel::RATE);
    let n = samples_in(q.seconds, flags, rate);
    let wide = width(format);
    let end = at + wide * n;
    if n == 0 {
        return Passed { at: end, k };
    }
    if !events_at(o, file, p) {
        return Passed { at: end, k };
    }
    let before = code_before(o, file, spot.frame, at, n, q.frame);
    let place = Place {
        position: at,
        width: wide,
        count: n,
    };
    let next = sample_entries(o, part(file, place), before, spot, out, k, write);
    Passed { at: end, k: next }
}

// The entries of a frame: only the stretch of channels is looked at in which those of events lie.
fn frame_entries(
    o: Order,
    file: &[u8],
    q: Places,
    e: Stretch,
    recording: u32,
    frame: u32,
    out: &mut [i64],
    k: usize,
    write: bool,
) -> usize
    requires { FrameAhead o file.now q e recording frame k }
    ensures { Wrote numbers 5 write out.old out.new k result
        (of_frame file.now recording frame (recording_of file.now recording)) }
{
    let start = q.frames + Frames::FIRST + q.frame * (frame - 1) as usize;
    let mut at = start + Frame::SAMPLES + e.before;
    let mut next = k;
    for c in e.first..e.end {
        let spot = Spot {
            recording,
            frame,
            channel: c + 1,
        };
        let passed = channel_entries(o, file, q, c, at, spot, out, next, write);
        at = passed.at;
        next = passed.k;
    }
    next
}

// The entries of a recording. Where no channel is of events, no frame is looked at.
fn recording_entries(
    o: Order,
    file: &[u8],
    q: Places,
    recording: u32,
    out: &mut [i64],
    k: usize,
    write: bool,
) -> usize
    requires { RecordingAhead o file.now q recording k }
    ensures { Wrote numbers 5 write out.old out.new k result
        (of_recording file.now recording (recording_of file.now recording)) }
{
    let subs = q.channels + Channels::SUBS;
    let first = first_events(o, file, subs, q.count);
    let end = behind_events(o, file, subs, q.count);
    if end <= first {
        return k;
    }
    let before = sample_bytes(o, file, subs, first, q.seconds);
    let e = Stretch { first, end, before };
    let mut next = k;
    for j in 0..q.total {
        next = frame_entries(o, file, q, e, recording, j + 1, out, next, write);
    }
    next
}

// The entries of all recordings of an accepted file, of which none is refused again: how many numbers they take.
fn file_entries(
    o: Order,
    label: Label,
    file: &[u8],
    count: u32,
    out: &mut [i64],
    write: bool,
) -> usize
    requires { FileAhead o label file.now count }
    ensures { Wrote numbers 5 write out.old out.new 0 result
        (entries_of file.now (R.judge file.now)) }
{
    let mut at = FileHeader::LENGTH;
    let mut before = None;
    let mut k = 0;
    for i in 0..count {
        let Ok(q) = recording_again(o, label, file, at, before) else {
            return k;
        };
        k = recording_entries(o, file, q, i + 1, out, k, write);
        at = q.end;
        before = Some(q);
    }
    k
}

// Judges the file, then writes its night events into `out`: recording, frame, channel, place in the frame and code of each.
pub fn index(file: &[u8], out: &mut [i64]) -> Result<usize, Refusal>
    ensures { Indexes file.now out.old out.new result }
{
    let h = judge::judge(file)?;
    let label = h.heading.label;
    let need = file_entries(h.order, label, file, h.count, out, false);
    if out.len() < need {
        return Err(Refusal(Reason::Room, need));
    }
    Ok(file_entries(h.order, label, file, h.count, out, true) / 5)
}
