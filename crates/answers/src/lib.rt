// Answers taken apart into numbers: first document 01's refusal and its position, or 0 and 0; then the values, which are 0 for a refusal.
#![tactic(auto)]

ghost use Rattle.std.specs.Prelude.{◌≡◌};
ghost use Rattle.words.specs.Floats.{bits_of};
ghost use Rattle.words.specs.Numbers.{letter_of};
ghost use Rattle.words.specs.Values.{unsigned};
ghost use Rattle.rules.specs.Reasons.{number_of};
ghost use Rattle.recordings.specs.Answers.{value, refusal, meaning};
ghost use Rattle.answers.specs.Flat.{counted, stopped, CountedAs, headed, unheaded};
ghost use Rattle.answers.specs.Flat.{spelling_number, flat_heading, flat_facts, patterns_of, flat_channel, flat_montage};
ghost use Rattle.answers.specs.Flat.{flat_item, flat_clock, flat_count, flat_place, flat_track, flat_part, flat_sample};
ghost use Rattle.answers.specs.Flat.{kind_number, flat_kind};

use codes::EventKind;
use questions::channels::{Calibration, Descriptor, Wired};
use questions::headers::Header as HeaderValues;
use questions::items::Entry;
use recordings::Counts;
use rules::{FileHeader, Refusal, Spelling};
use samples::{Cut, Number, Place as PlaceValues, Time, Track as TrackValues};
use words::Order;

// How many rows, bytes, samples or channels.
#[repr(C)]
#[derive(Clone, Copy)]
pub struct Counted {
    pub refusal: u32,
    pub position: u64,
    pub count: u64,
}

// What the file header says: the letters of the byte order and of the script, and K.
#[repr(C)]
#[derive(Clone, Copy)]
pub struct Header {
    pub refusal: u32,
    pub position: u64,
    pub order: u32,
    pub script: u32,
    pub recordings: u32,
}

// All that the file header says: the spelling's number, the numbers of the version and the form, and as above.
#[repr(C)]
#[derive(Clone, Copy)]
pub struct Heading {
    pub refusal: u32,
    pub position: u64,
    pub spelling: u32,
    pub version: u32,
    pub form: u32,
    pub order: u32,
    pub script: u32,
    pub recordings: u32,
}

// M, F and T.
#[repr(C)]
#[derive(Clone, Copy)]
pub struct Facts {
    pub refusal: u32,
    pub position: u64,
    pub channels: u32,
    pub frames: u32,
    pub seconds: u32,
}

// A descriptor. The four calibration numbers are 32 bits each: a float's, or a whole number's two's complement. A text is its first byte and its length.
#[repr(C)]
#[derive(Clone, Copy)]
pub struct Channel {
    pub refusal: u32,
    pub position: u64,
    pub number: i32,
    pub flags: i32,
    pub kind: i32,
    pub format: i32,
    pub rate: i32,
    pub is_float: u32,
    pub cal: u32,
    pub cal_ad: u32,
    pub offset_ad: u32,
    pub offset_cal: u32,
    pub frequency: i32,
    pub low_cut: i32,
    pub high_cut: i32,
    pub sensitivity: i32,
    pub label: u64,
    pub label_length: u64,
    pub unit: u64,
    pub unit_length: u64,
    pub comment: u64,
    pub comment_length: u64,
}

// A montage's channel: its descriptor, with the refusal, and its two inputs.
#[repr(C)]
#[derive(Clone, Copy)]
pub struct Montage {
    pub channel: Channel,
    pub g1: i32,
    pub g2: i32,
}

#[repr(C)]
#[derive(Clone, Copy)]
pub struct Item {
    pub refusal: u32,
    pub position: u64,
    pub code: i32,
    pub text: u64,
    pub text_length: u64,
}

#[repr(C)]
#[derive(Clone, Copy)]
pub struct Clock {
    pub refusal: u32,
    pub position: u64,
    pub hour: u32,
    pub minute: u32,
    pub second: u32,
}

// A whole number, or a float's 32 bits; the other is 0.
#[repr(C)]
#[derive(Clone, Copy)]
pub struct Sample {
    pub refusal: u32,
    pub position: u64,
    pub is_float: u32,
    pub value: i32,
    pub bits: u32,
}

// What an event's code stands for: the number of its kind, in the order of `codes::EventKind` from 0.
#[repr(C)]
#[derive(Clone, Copy)]
pub struct Kind {
    pub refusal: u32,
    pub position: u64,
    pub kind: u32,
}

// Where samples stand: the first byte, the bytes of one, and how many there are.
#[repr(C)]
#[derive(Clone, Copy)]
pub struct Place {
    pub refusal: u32,
    pub position: u64,
    pub start: u64,
    pub width: u64,
    pub count: u64,
}

// Where a channel's samples stand in every frame of a recording: the letter of the byte order and the channel's format, the place in the first frame, the
// bytes from there to the same place in the next one, F and T.
#[repr(C)]
#[derive(Clone, Copy)]
pub struct Track {
    pub refusal: u32,
    pub position: u64,
    pub order: u32,
    pub format: u32,
    pub start: u64,
    pub width: u64,
    pub count: u64,
    pub step: u64,
    pub frames: u32,
    pub seconds: u32,
}

// A part of a file: its first byte and its length. It is never refused.
#[repr(C)]
#[derive(Clone, Copy)]
pub struct Part {
    pub start: u64,
    pub length: u64,
}

// Calibration numbers as 32 bits each.
#[derive(Clone, Copy)]
pub struct Patterns {
    pub is_float: u32,
    pub cal: u32,
    pub cal_ad: u32,
    pub offset_ad: u32,
    pub offset_cal: u32,
}

// The pattern of a NaN, for a float that has none of its own.
const NAN: u32 = 2143289344;

pub fn answered(count: usize) -> Counted
    ensures { result ≡ counted count }
{
    Counted {
        refusal: 0,
        position: 0,
        count: count as u64,
    }
}

pub fn refused(r: Refusal) -> Counted
    ensures { result ≡ stopped (number_of r.0) r.1 }
{
    Counted {
        refusal: r.0.number(),
        position: r.1 as u64,
        count: 0,
    }
}

// The header of an accepted file, whose order this letter names.
pub fn header_told(order: u32, h: FileHeader) -> Header
    ensures { result ≡ headed order h.heading.script h.count }
{
    Header {
        refusal: 0,
        position: 0,
        order,
        script: h.heading.script,
        recordings: h.count,
    }
}

pub fn header_refused(r: Refusal) -> Header
    ensures { result ≡ unheaded (number_of r.0) r.1 }
{
    Header {
        refusal: r.0.number(),
        position: r.1 as u64,
        order: 0,
        script: 0,
        recordings: 0,
    }
}

fn letter(order: Order) -> u32
    ensures { result ≡ letter_of order }
{
    match order {
        Order::Little => FileHeader::LITTLE,
        Order::Big => FileHeader::BIG,
    }
}

fn spelling_number(spelling: Spelling) -> u32
    ensures { result ≡ spelling_number spelling }
{
    match spelling {
        Spelling::Spg => 0,
        Spelling::Psg => 1,
    }
}

fn heading_told(x: HeaderValues) -> Heading
    ensures { result ≡ flat_heading (value x) }
{
    let spelling = x.spelling;
    let order = x.order;
    Heading {
        refusal: 0,
        position: 0,
        spelling: spelling_number(spelling),
        version: x.version,
        form: x.form,
        order: letter(order),
        script: x.script,
        recordings: x.recordings,
    }
}

impl From<Result<HeaderValues, Refusal>> for Heading {
    ghost from_gives = { λ a x. x ≡ flat_heading (meaning a) };

    fn from(a: Result<HeaderValues, Refusal>) -> Heading {
        match a {
            Ok(x) => heading_told(x),
            Err(r) => Heading {
                refusal: r.0.number(),
                position: r.1 as u64,
                spelling: 0,
                version: 0,
                form: 0,
                order: 0,
                script: 0,
                recordings: 0,
            },
        }
    }
}

// The bits of a float. `to_bits` is not defined at a NaN, which a file's float never is: its pattern is answered apart.
fn bits(v: f32) -> u32
    ensures { result ≡ bits_of v }
{
    if v != v {
        return NAN;
    }
    f32::to_bits(v)
}

// The two's complement of a whole number.
fn word(z: i32) -> u32
    ensures { result ≡ unsigned 4 z }
{
    if 0 <= z {
        return z as u32;
    }
    4294967295 - ((-1 - z) as u32)
}

impl From<Result<Counts, Refusal>> for Facts {
    ghost from_gives = { λ a x. x ≡ flat_facts (meaning a) };

    fn from(a: Result<Counts, Refusal>) -> Facts {
        match a {
            Ok(x) => Facts {
                refusal: 0,
                position: 0,
                channels: x.channels,
                frames: x.frames,
                seconds: x.seconds,
            },
            Err(r) => Facts {
                refusal: r.0.number(),
                position: r.1 as u64,
                channels: 0,
                frames: 0,
                seconds: 0,
            },
        }
    }
}

fn patterns_of(c: Calibration) -> Patterns
    ensures { result ≡ patterns_of c }
{
    match c {
        Calibration::Floats(cal, cal_ad, offset_ad, offset_cal) => Patterns {
            is_float: 1,
            cal: bits(cal),
            cal_ad: bits(cal_ad),
            offset_ad: bits(offset_ad),
            offset_cal: bits(offset_cal),
        },
        Calibration::Numbers(cal, cal_ad, offset_ad, offset_cal) => Patterns {
            is_float: 0,
            cal: word(cal),
            cal_ad: word(cal_ad),
            offset_ad: word(offset_ad),
            offset_cal: word(offset_cal),
        },
        Calibration::Patterns(cal, cal_ad, offset_ad, offset_cal) => Patterns {
            is_float: 1,
            cal,
            cal_ad,
            offset_ad,
            offset_cal,
        },
    }
}

fn channel_told(x: Descriptor) -> Channel
    ensures { result ≡ flat_channel (value x) }
{
    let calibration = x.calibration;
    let c = patterns_of(calibration);
    Channel {
        refusal: 0,
        position: 0,
        number: x.number,
        flags: x.flags,
        kind: x.kind,
        format: x.format,
        rate: x.rate,
        is_float: c.is_float,
        cal: c.cal,
        cal_ad: c.cal_ad,
        offset_ad: c.offset_ad,
        offset_cal: c.offset_cal,
        frequency: x.frequency,
        low_cut: x.low_cut,
        high_cut: x.high_cut,
        sensitivity: x.sensitivity,
        label: x.label.at as u64,
        label_length: x.label.length as u64,
        unit: x.unit.at as u64,
        unit_length: x.unit.length as u64,
        comment: x.comment.at as u64,
        comment_length: x.comment.length as u64,
    }
}

fn channel_refused(r: Refusal) -> Channel
    ensures { result ≡ flat_channel (refusal (number_of r.0) r.1) }
{
    Channel {
        refusal: r.0.number(),
        position: r.1 as u64,
        number: 0,
        flags: 0,
        kind: 0,
        format: 0,
        rate: 0,
        is_float: 0,
        cal: 0,
        cal_ad: 0,
        offset_ad: 0,
        offset_cal: 0,
        frequency: 0,
        low_cut: 0,
        high_cut: 0,
        sensitivity: 0,
        label: 0,
        label_length: 0,
        unit: 0,
        unit_length: 0,
        comment: 0,
        comment_length: 0,
    }
}

impl From<Result<Descriptor, Refusal>> for Channel {
    ghost from_gives = { λ a x. x ≡ flat_channel (meaning a) };

    fn from(a: Result<Descriptor, Refusal>) -> Channel {
        match a {
            Ok(x) => channel_told(x),
            Err(r) => channel_refused(r),
        }
    }
}

impl From<Result<u32, Refusal>> for Counted {
    ghost from_gives = { λ a x. x ≡ flat_count (meaning a) };

    fn from(a: Result<u32, Refusal>) -> Counted {
        match a {
            Ok(n) => answered(n as usize),
            Err(r) => refused(r),
        }
    }
}

fn montage_told(x: Wired) -> Montage
    ensures { result ≡ flat_montage (value x) }
{
    let channel = x.channel;
    Montage {
        channel: channel_told(channel),
        g1: x.g1,
        g2: x.g2,
    }
}

impl From<Result<Wired, Refusal>> for Montage {
    ghost from_gives = { λ a x. x ≡ flat_montage (meaning a) };

    fn from(a: Result<Wired, Refusal>) -> Montage {
        match a {
            Ok(x) => montage_told(x),
            Err(r) => Montage {
                channel: channel_refused(r),
                g1: 0,
                g2: 0,
            },
        }
    }
}

impl From<Result<Entry, Refusal>> for Item {
    ghost from_gives = { λ a x. x ≡ flat_item (meaning a) };

    fn from(a: Result<Entry, Refusal>) -> Item {
        match a {
            Ok(x) => Item {
                refusal: 0,
                position: 0,
                code: x.code,
                text: x.text.at as u64,
                text_length: x.text.length as u64,
            },
            Err(r) => Item {
                refusal: r.0.number(),
                position: r.1 as u64,
                code: 0,
                text: 0,
                text_length: 0,
            },
        }
    }
}

impl From<Result<Time, Refusal>> for Clock {
    ghost from_gives = { λ a x. x ≡ flat_clock (meaning a) };

    fn from(a: Result<Time, Refusal>) -> Clock {
        match a {
            Ok(x) => Clock {
                refusal: 0,
                position: 0,
                hour: x.hour,
                minute: x.minute,
                second: x.second,
            },
            Err(r) => Clock {
                refusal: r.0.number(),
                position: r.1 as u64,
                hour: 0,
                minute: 0,
                second: 0,
            },
        }
    }
}

// How many rows, bytes, entries or samples were written.
impl From<Result<usize, Refusal>> for Counted {
    ghost from_gives = { λ a x. CountedAs a x };

    fn from(a: Result<usize, Refusal>) -> Counted {
        match a {
            Ok(n) => answered(n),
            Err(r) => refused(r),
        }
    }
}

impl From<Result<PlaceValues, Refusal>> for Place {
    ghost from_gives = { λ a x. x ≡ flat_place (meaning a) };

    fn from(a: Result<PlaceValues, Refusal>) -> Place {
        match a {
            Ok(p) => Place {
                refusal: 0,
                position: 0,
                start: p.position as u64,
                width: p.width as u64,
                count: p.count as u64,
            },
            Err(r) => Place {
                refusal: r.0.number(),
                position: r.1 as u64,
                start: 0,
                width: 0,
                count: 0,
            },
        }
    }
}

fn track_told(x: TrackValues) -> Track
    ensures { result ≡ flat_track (value x) }
{
    let order = x.order;
    Track {
        refusal: 0,
        position: 0,
        order: letter(order),
        format: x.format,
        start: x.first.position as u64,
        width: x.first.width as u64,
        count: x.first.count as u64,
        step: x.step as u64,
        frames: x.frames,
        seconds: x.seconds,
    }
}

impl From<Result<TrackValues, Refusal>> for Track {
    ghost from_gives = { λ a x. x ≡ flat_track (meaning a) };

    fn from(a: Result<TrackValues, Refusal>) -> Track {
        match a {
            Ok(x) => track_told(x),
            Err(r) => Track {
                refusal: r.0.number(),
                position: r.1 as u64,
                order: 0,
                format: 0,
                start: 0,
                width: 0,
                count: 0,
                step: 0,
                frames: 0,
                seconds: 0,
            },
        }
    }
}

impl From<Cut> for Part {
    ghost from_gives = { λ p x. x ≡ flat_part p };

    fn from(p: Cut) -> Part {
        Part {
            start: p.start as u64,
            length: p.length as u64,
        }
    }
}

fn sample_told(x: Number) -> Sample
    ensures { result ≡ flat_sample (value x) }
{
    match x {
        Number::Whole(z) => Sample {
            refusal: 0,
            position: 0,
            is_float: 0,
            value: z,
            bits: 0,
        },
        Number::Float(v) => Sample {
            refusal: 0,
            position: 0,
            is_float: 1,
            value: 0,
            bits: bits(v),
        },
        Number::Pattern(n) => Sample {
            refusal: 0,
            position: 0,
            is_float: 1,
            value: 0,
            bits: n,
        },
    }
}

impl From<Result<Number, Refusal>> for Sample {
    ghost from_gives = { λ a x. x ≡ flat_sample (meaning a) };

    fn from(a: Result<Number, Refusal>) -> Sample {
        match a {
            Ok(x) => sample_told(x),
            Err(r) => Sample {
                refusal: r.0.number(),
                position: r.1 as u64,
                is_float: 0,
                value: 0,
                bits: 0,
            },
        }
    }
}

fn kind_number(kind: EventKind) -> u32
    ensures { result ≡ kind_number kind }
{
    match kind {
        EventKind::None => 0,
        EventKind::RecordingStart => 1,
        EventKind::RecordingEnd => 2,
        EventKind::CalibrationStart => 3,
        EventKind::CalibrationEnd => 4,
        EventKind::InstStart => 5,
        EventKind::InstEnd => 6,
        EventKind::SleepAllowed => 7,
        EventKind::WakeCall => 8,
        EventKind::LightsOut => 9,
        EventKind::LightsOn => 10,
        EventKind::MeasurementStopped => 11,
        EventKind::MeasurementResumed => 12,
        EventKind::User => 13,
        EventKind::Reserved => 14,
    }
}

impl From<Result<EventKind, Refusal>> for Kind {
    ghost from_gives = { λ a x. x ≡ flat_kind (meaning a) };

    fn from(a: Result<EventKind, Refusal>) -> Kind {
        match a {
            Ok(k) => Kind {
                refusal: 0,
                position: 0,
                kind: kind_number(k),
            },
            Err(r) => Kind {
                refusal: r.0.number(),
                position: r.1 as u64,
                kind: 0,
            },
        }
    }
}
