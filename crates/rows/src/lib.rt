// The rows of a file, counted or written: the same walk does both, so that a row is counted exactly where it is written.
// Every function is safe for any bytes; that the rows are the file's is said of what was accepted.
#![tactic(auto)]

ghost use Rattle.std.specs.Prelude.{◌≡◌, ◌&&◌, [], ◌∷◌, ◌+◌, ◌-◌, ◌*◌, ◌<◌, leb, length};
ghost use Rattle.judge.specs.Recorded.{HeaderIn};
ghost use Rattle.rows.specs.Listing.{series_rows, channel_rows, frame_rows, held_rows, ChannelsFit, FramesFit, HasRoom};
ghost use Rattle.rows.specs.Listing.{Wrote, WroteUpTo, WroteIf, Ahead, SeriesAhead, RecordAhead, BodyAhead, RecordingAhead};
ghost use Rattle.rows.specs.Listing.{BodyListed, RecordingListed, FileListed};

use records::channels::{is_group, sub_code};
use rules::{Channel, Channels, Delimiter, FileHeader, Frame, Frames, Head};
use words::{Order, number, signed};

// Where the next recording starts, and where its first row goes.
#[derive(Clone, Copy)]
pub struct Ended {
    pub at: usize,
    pub k: usize,
}

// One row, if it is to be written and there is room for it.
fn put(
    out: &mut [i64],
    k: usize,
    write: bool,
    start: usize,
    size: usize,
    code: u32,
    serial: u32,
) -> usize
    requires { Ahead k start size }
    ensures { Wrote write out.old out.new k result
        (record { start = start; size = size; code = code; serial = serial } ∷ []) }
{
    let end = k + 4;
    if !write {
        return end;
    }
    if out.len() < end {
        return end;
    }
    out[k] = start as i64;
    out[k + 1] = size as i64;
    out[k + 2] = code as i64;
    out[k + 3] = signed::<4>(serial) as i64;
    end
}

// The rows of `count` records of one length, one after the other, with serials from 1 on.
fn series_rows(
    out: &mut [i64],
    k: usize,
    write: bool,
    start: usize,
    step: usize,
    code: u32,
    count: u32,
) -> usize
    requires { SeriesAhead k start step count }
    ensures { WroteUpTo (start + step * count) write out.old out.new k result
        (series_rows count 1 start step code) }
{
    let mut at = start;
    let mut next = k;
    for i in 0..count {
        next = put(out, next, write, at, step, code, i + 1);
        at += step;
    }
    next
}

// The rows of the subs of the record with this code at byte p of the part s, which ends at byte `end`.
fn channels_rows(
    o: Order,
    code: u32,
    s: &[u8],
    base: usize,
    p: usize,
    end: usize,
    out: &mut [i64],
    k: usize,
    write: bool,
) -> usize
    requires { RecordAhead base s.now p end k 16 }
    ensures { WroteIf (ChannelsFit o s.now p end) (base + end) write out.old out.new k result
        (channel_rows o base s.now p code) }
{
    if end - p < Channels::SUBS {
        return k;
    }
    let count = number::<4>(o, s, p + Channels::COUNT);
    if end - p != Channels::SUBS + Channel::LENGTH * count as usize {
        return k;
    }
    let subs = base + p + Channels::SUBS;
    series_rows(out, k, write, subs, Channel::LENGTH, sub_code(code), count)
}

// The rows of the frames of the 140 at byte p of the part s, which ends at byte `end`.
fn frames_rows(
    o: Order,
    s: &[u8],
    base: usize,
    p: usize,
    end: usize,
    out: &mut [i64],
    k: usize,
    write: bool,
) -> usize
    requires { RecordAhead base s.now p end k 16 }
    ensures { WroteIf (FramesFit o s.now p end) (base + end) write out.old out.new k result
        (frame_rows o base s.now p) }
{
    if end - p < Frames::FIRST {
        return k;
    }
    let size = number::<4>(o, s, p + Frames::FRAME_LENGTH) as usize;
    let count = number::<4>(o, s, p + Frames::COUNT);
    if !fits(size, count, end - p) {
        return k;
    }
    let frames = base + p + Frames::FIRST;
    series_rows(out, k, write, frames, size, Frame::CODE, count)
}

// The rows of the record with the head h, which ends at byte `end` of the part: its own, and those of the records that it holds.
fn record_rows(
    o: Order,
    s: &[u8],
    base: usize,
    h: Head,
    end: usize,
    out: &mut [i64],
    k: usize,
    write: bool,
) -> usize
    requires { RecordAhead base s.now h.at end k 0 }
    ensures { WroteIf (HasRoom o s.now h.at end h.code) (base + end) write out.old out.new k result
        (record { start = base + h.at; size = end - h.at; code = h.code; serial = h.serial }
        ∷ held_rows o base s.now h.at h.code) }
{
    let p = h.at;
    let code = h.code;
    let next = put(out, k, write, base + p, end - p, code, h.serial);
    if is_group(code) {
        return channels_rows(o, code, s, base, p, end, out, next, write);
    }
    if code == Frames::CODE {
        return frames_rows(o, s, base, p, end, out, next, write);
    }
    next
}

// So many frames of this size have room in a 140 of this length.
fn fits(size: usize, count: u32, length: usize) -> bool
    requires { size < 4294967296 }
    ensures { result ≡ leb 24 size && leb (32 + size * count) length }
{
    if size < Frame::SAMPLES {
        return false;
    }
    Frames::FIRST + size * count as usize <= length
}

// The rows of a recording's body, which stands at `base`.
fn body_rows(o: Order, s: &[u8], base: usize, out: &mut [i64], k: usize, write: bool) -> usize
    requires { BodyAhead base s.now k }
    ensures { BodyListed o base s.now write out.old out.new k result }
{
    let mut p: usize = 0;
    let mut next = k;
    while let Some((h, end)) = children::record_at(o, s, base, p) {
        next = record_rows(o, s, base, h, end, out, next, write);
        p = end;
    }
    if s.len() < p + Delimiter::LENGTH {
        return next;
    }
    put(
        out,
        next,
        write,
        base + p,
        Delimiter::LENGTH,
        Delimiter::CODE,
        0,
    )
}

// The rows of the recording at byte p of the file.
fn recording_rows(o: Order, file: &[u8], p: usize, out: &mut [i64], k: usize, write: bool) -> Ended
    requires { RecordingAhead file.now p k }
    ensures { RecordingListed o file.now p result.at write out.old out.new k result.k }
{
    let Some((h, end)) = children::record_at(o, file, 0, p) else {
        return Ended { at: p, k };
    };
    let first = put(out, k, write, p, end - p, h.code, h.serial);
    let base = p + Head::LENGTH;
    let next = body_rows(o, &file[base..end], base, out, first, write);
    Ended { at: end, k: next }
}

// The rows of all recordings: how many numbers they take.
pub fn file_rows(o: Order, file: &[u8], count: u32, out: &mut [i64], write: bool) -> usize
    requires { HeaderIn (length file.now) }
    ensures { FileListed o file.now count write out.old out.new result }
{
    let mut at = FileHeader::LENGTH;
    let mut k = 0;
    for _i in 0..count {
        let e = recording_rows(o, file, at, out, k, write);
        at = e.at;
        k = e.k;
    }
    k
}
