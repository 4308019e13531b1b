// The descriptor of a channel: record 125, 325 or 355.
ghost use Rattle.std.specs.Prelude.{◌≡◌, ◌+◌, ◌≤◌, length};
ghost use Rattle.questions.specs.Values.{some_nan, floats_of, calibration_at, FieldOf, field_in, DescriptorAt, WiredAt};
ghost use Rattle.questions.specs.Holding.{MontageInside, montage_channels};

use descriptions::Places;
use rules::{Channel, Channels, Electrode, Head};
use words::{Order, int, is_nan, number};

// A text of the file: its first byte, and how many bytes it has.
#[derive(Clone, Copy)]
pub struct Text {
    pub at: usize,
    pub length: usize,
}

// CAL, CAL AD, Offset AD and Offset CAL, by the channel's format. A NaN's pattern cannot become an f32: where one of four floats is one, all are answered as
// their 32 bits.
#[derive(Clone, Copy)]
pub enum Calibration {
    Floats(f32, f32, f32, f32),
    Numbers(i32, i32, i32, i32),
    Patterns(u32, u32, u32, u32),
}

#[derive(Clone, Copy)]
pub struct Descriptor {
    pub number: i32,
    pub flags: i32,
    pub kind: i32,
    pub format: i32,
    pub rate: i32,
    pub calibration: Calibration,
    pub frequency: i32,
    pub low_cut: i32,
    pub high_cut: i32,
    pub sensitivity: i32,
    pub label: Text,
    pub unit: Text,
    pub comment: Text,
}

// A montage's channel, with its inputs.
#[derive(Clone, Copy)]
pub struct Wired {
    pub channel: Descriptor,
    pub g1: i32,
    pub g2: i32,
}

// Whether one of the four is a NaN's pattern.
fn some_nan(cal: u32, cal_ad: u32, offset_ad: u32, offset_cal: u32) -> bool
    ensures { result ≡ some_nan cal cal_ad offset_ad offset_cal }
{
    if is_nan(cal) {
        return true;
    }
    if is_nan(cal_ad) {
        return true;
    }
    if is_nan(offset_ad) {
        return true;
    }
    is_nan(offset_cal)
}

// Calibration numbers of 32 bits each, in a channel of floats.
fn floats_of(cal: u32, cal_ad: u32, offset_ad: u32, offset_cal: u32) -> Calibration
    ensures { result ≡ floats_of cal cal_ad offset_ad offset_cal }
{
    if some_nan(cal, cal_ad, offset_ad, offset_cal) {
        return Calibration::Patterns(cal, cal_ad, offset_ad, offset_cal);
    }
    Calibration::Floats(
        f32::from_bits(cal),
        f32::from_bits(cal_ad),
        f32::from_bits(offset_ad),
        f32::from_bits(offset_cal),
    )
}

// The calibration numbers of the sub at byte p of s, in a channel of this format.
fn calibration_at(o: Order, s: &[u8], p: usize, format: u32) -> Calibration
    requires { p + 256 ≤ length s.now }
    ensures { result ≡ calibration_at o s.now p format }
{
    if format == Channel::FLOATS {
        return floats_of(
            number::<4>(o, s, p + Channel::CAL),
            number::<4>(o, s, p + Channel::CAL_AD),
            number::<4>(o, s, p + Channel::OFFSET_AD),
            number::<4>(o, s, p + Channel::OFFSET_CAL),
        );
    }
    Calibration::Numbers(
        int::<4>(o, s, p + Channel::CAL),
        int::<4>(o, s, p + Channel::CAL_AD),
        int::<4>(o, s, p + Channel::OFFSET_AD),
        int::<4>(o, s, p + Channel::OFFSET_CAL),
    )
}

// A field of the sub at byte p of s that an electrode does not have: 0 for an electrode.
fn field_if(o: Order, s: &[u8], p: usize, offset: usize) -> i32
    requires { FieldOf p offset (length s.now) }
    ensures { result ≡ field_in o s.now p offset }
{
    if number::<4>(o, s, p + Head::CODE) == Electrode::CODE {
        return 0;
    }
    int::<4>(o, s, p + offset)
}

// What the sub at byte p of s says.
pub fn descriptor_at(o: Order, s: &[u8], p: usize) -> Descriptor
    requires { p + 256 ≤ length s.now }
    ensures { DescriptorAt o s.now p result }
{
    let calibration = calibration_at(o, s, p, number::<4>(o, s, p + Channel::FORMAT));
    Descriptor {
        number: int::<4>(o, s, p + Channel::NUMBER),
        flags: int::<4>(o, s, p + Channel::FLAGS),
        kind: int::<4>(o, s, p + Channel::TYPE),
        format: int::<4>(o, s, p + Channel::FORMAT),
        rate: int::<4>(o, s, p + Channel::RATE),
        calibration,
        frequency: field_if(o, s, p, Channel::CAL_FREQUENCY),
        low_cut: int::<4>(o, s, p + Channel::LOW_CUT),
        high_cut: int::<4>(o, s, p + Channel::HIGH_CUT),
        sensitivity: field_if(o, s, p, Channel::SENSITIVITY),
        label: Text {
            at: p + Channel::LABEL,
            length: Channel::LABEL_LENGTH,
        },
        unit: Text {
            at: p + Channel::UNIT,
            length: Channel::UNIT_LENGTH,
        },
        comment: Text {
            at: p + Channel::COMMENT,
            length: Channel::COMMENT_LENGTH,
        },
    }
}

// What the record 355 at byte p of s says.
pub fn wired_at(o: Order, s: &[u8], p: usize) -> Wired
    requires { p + 256 ≤ length s.now }
    ensures { WiredAt o s.now p result }
{
    let channel = descriptor_at(o, s, p);
    Wired {
        channel,
        g1: int::<4>(o, s, p + Channel::G1),
        g2: int::<4>(o, s, p + Channel::G2),
    }
}

// How many channels the montage of the recording at q has: 0 where it has none.
#[tactic(auto, unfolding(crate::specs::Holding::montage_channels))]
pub fn montage_channels(o: Order, s: &[u8], q: Places) -> u32
    requires { MontageInside q (length s.now) }
    ensures { result ≡ montage_channels o s.now q }
{
    let Some(montage) = q.montage else {
        return 0;
    };
    number::<4>(o, s, montage + Channels::COUNT)
}
