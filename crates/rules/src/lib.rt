// Document 01's record kinds: what the code keeps of each, its code, its length and the offsets of its fields.
#![tactic(auto)]

ghost use Rattle.std.specs.Prelude.{◌≡◌};
ghost use Rattle.rules.specs.Reasons.{number_of};

use words::Order;

// Why a file or a question is refused, in the order of document 01's numbers, 1 to 19.
#[derive(Clone, Copy, Debug, PartialEq, Eq)]
pub enum Reason {
    // The file is shorter than its header.
    Short,
    // The header's fields, by their places.
    Identifier,
    Version,
    Form,
    Order,
    Script,
    Count,
    Spaces,
    // A record's head, by its fields: a code that may not stand there, a length, a multiplier, a serial.
    Code,
    Length,
    Multiplier,
    Serial,
    // A field outside its values, or one that disagrees with another.
    Value,
    Disagreement,
    // Padding that is not zero, and bytes behind the last recording.
    Padding,
    Behind,
    // Not the file's: the buffer is too short, a maker's record stands in the way, a question is outside its range.
    Room,
    Maker,
    Range,
}

impl Reason {
    // Document 01's number.
    pub fn number(self) -> u32
        ensures { result ≡ number_of self }
    {
        match self {
            Reason::Short => 1,
            Reason::Identifier => 2,
            Reason::Version => 3,
            Reason::Form => 4,
            Reason::Order => 5,
            Reason::Script => 6,
            Reason::Count => 7,
            Reason::Spaces => 8,
            Reason::Code => 9,
            Reason::Length => 10,
            Reason::Multiplier => 11,
            Reason::Serial => 12,
            Reason::Value => 13,
            Reason::Disagreement => 14,
            Reason::Padding => 15,
            Reason::Behind => 16,
            Reason::Room => 17,
            Reason::Maker => 18,
            Reason::Range => 19,
        }
    }
}

// A refusal: the reason, and the position in the file.
#[derive(Clone, Copy, Debug, PartialEq, Eq)]
pub struct Refusal(pub Reason, pub usize);

// The spelling of the format's name in the first eight bytes: the standard's, or the society's abbreviation.
#[derive(Clone, Copy)]
pub enum Spelling {
    Spg,
    Psg,
}

// The forms: of channels, 00, and of electrodes, 01.
#[derive(Clone, Copy)]
pub enum Form {
    Channels,
    Electrodes,
}

// The versions of the format: 1.00, 1.10, 2.00 and 3.00.
#[derive(Clone, Copy)]
pub enum Version {
    V100,
    V110,
    V200,
    V300,
}

// What the file header says that the rules for records go by.
#[derive(Clone, Copy)]
pub struct Label {
    pub version: Version,
    pub form: Form,
}

// What the file header says of the whole file, besides the order and K.
#[derive(Clone, Copy)]
pub struct Heading {
    pub spelling: Spelling,
    pub label: Label,
    pub script: u32,
}

// The file header, 32 bytes of ASCII.
#[derive(Clone, Copy)]
pub struct FileHeader {
    pub order: Order,
    pub heading: Heading,
    pub count: u32,
}

impl FileHeader {
    pub const LENGTH: usize = 32;

    pub const IDENTIFIER: usize = 0;

    pub const VERSION: usize = 8;

    pub const FORM: usize = 14;

    pub const ORDER: usize = 16;

    pub const SCRIPT: usize = 17;

    pub const COUNT: usize = 18;

    pub const SPACES: usize = 22;

    // The versions and the two forms, as numbers.
    pub const V100_NUMBER: u32 = 100;

    pub const V110_NUMBER: u32 = 110;

    pub const V200_NUMBER: u32 = 200;

    pub const V300_NUMBER: u32 = 300;

    pub const CHANNELS_NUMBER: u32 = 0;

    pub const ELECTRODES_NUMBER: u32 = 1;

    // The letters of the two orders, L and B.
    pub const LITTLE: u32 = 76;

    pub const BIG: u32 = 66;

    // The letters of the scripts.
    pub const SCRIPT_S: u32 = 83;

    pub const SCRIPT_J: u32 = 74;

    pub const SCRIPT_E: u32 = 69;

    pub const SCRIPT_U: u32 = 85;

    // The digits of K, and what fills its field and the last one.
    pub const ZERO: u32 = 48;

    pub const NINE: u32 = 57;

    pub const SPACE: u8 = 32;

    pub const MOST: u32 = 64;
}

// A record's first 16 bytes, and the byte where they stand in the part of the file that holds them.
#[derive(Clone, Copy)]
pub struct Head {
    pub at: usize,
    pub size: u32,
    pub code: u32,
    pub serial: u32,
    pub multiplier: u32,
}

impl Head {
    pub const LENGTH: usize = 16;

    // A record's fields are numbers of so many bytes, but for a frame's clock; a head is so many of them.
    pub const WIDTH: usize = 4;

    pub const NUMBERS: usize = 4;

    pub const CODE: usize = 4;

    pub const SERIAL: usize = 8;

    pub const MULTIPLIER: usize = 12;

    pub const MOST: u32 = 128;

    // A number below this is not negative as a signed one.
    pub const LIMIT: u32 = 2147483648;
}

// A record's kind, with what its rule asks for: the label that says how large a multiplier may be, the code where several records are of a kind,
// the serial, a frame's length and the byte where its samples end. `Any` is what every record meets but the delimiter.
#[derive(Clone, Copy)]
pub enum Kind {
    Recording(Label, u32),
    Basic,
    Channels(u32),
    Channel(u32, u32),
    Items(u32),
    Frames(Label),
    Frame(Label, usize, usize, u32),
    Maker(Label),
    Any,
}

// Record 10: a recording.
#[derive(Clone, Copy)]
pub struct Recording;

impl Recording {
    pub const CODE: u32 = 10;

    pub const LEAST: usize = 16;

    pub const CONTENT_LIMIT: usize = 137438953472;
}

// Record 100, of which the others need the counts.
#[derive(Clone, Copy)]
pub struct Basic {
    pub channels: u32,
    pub frames: u32,
}

impl Basic {
    pub const CODE: u32 = 100;

    pub const MOST_FRAMES: u32 = 1000000;

    pub const LENGTH: usize = 128;

    pub const FORM: usize = 16;

    pub const CHANNELS: usize = 20;

    pub const FRAMES: usize = 24;

    pub const RESERVE: usize = 28;

    pub const YEAR: usize = 32;

    pub const MONTH: usize = 36;

    pub const DAY: usize = 40;

    pub const HOUR: usize = 44;

    pub const MINUTE: usize = 48;

    pub const SECOND: usize = 52;

    pub const TIME: usize = 56;

    pub const TIME_LENGTH: usize = 20;

    pub const MAINS: usize = 76;

    pub const SPARE: usize = 80;

    pub const COMMENT: usize = 96;

    pub const COMMENT_LENGTH: usize = 32;

    // In the record's body; and how many numbers stand up to the reserve, in the date, and before the spare bytes.
    pub const BODY_LENGTH: usize = Basic::LENGTH - Head::LENGTH;

    pub const BODY_RESERVE: usize = Basic::RESERVE - Head::LENGTH;

    pub const BODY_YEAR: usize = Basic::YEAR - Head::LENGTH;

    pub const BODY_TIME: usize = Basic::TIME - Head::LENGTH;

    pub const BODY_MAINS: usize = Basic::MAINS - Head::LENGTH;

    pub const BODY_SPARE: usize = Basic::SPARE - Head::LENGTH;

    pub const BODY_COMMENT: usize = Basic::COMMENT - Head::LENGTH;

    pub const NUMBERS: usize = 3;

    pub const DATE_NUMBERS: usize = 6;

    pub const MAINS_NUMBERS: usize = 1;
}

// The records that hold subs: 120 and 320, in a file of this version, with as many as record 100 says, and 350 over so many electrodes.
#[derive(Clone, Copy)]
pub enum Group {
    Channels(Version, u32),
    Electrodes(Version, u32),
    Montage(u32),
}

// Which fields a sub has: the calibration frequency and the sensitivity, and the inputs G1 and G2. Those that it has not are reserve.
#[derive(Clone, Copy)]
pub struct Shape {
    pub calibrated: bool,
    pub wired: bool,
}

// Record 120, 320 or 350: where its subs start in the file, and how many there are.
#[derive(Clone, Copy)]
pub struct Channels {
    pub subs: usize,
    pub count: u32,
}

impl Channels {
    pub const CODE: u32 = 120;

    pub const MOST: u32 = 128;

    pub const LEAST: usize = 32;

    pub const COUNT: usize = 16;

    pub const SUB_SIZE: usize = 20;

    pub const RESERVE: usize = 24;

    pub const SUBS: usize = 32;

    // In the record's body; and how many numbers stand up to the reserve.
    pub const BODY_COUNT: usize = Channels::COUNT - Head::LENGTH;

    pub const BODY_RESERVE: usize = Channels::RESERVE - Head::LENGTH;

    pub const NUMBERS: usize = 2;

    pub const BODY_SUBS: usize = Channels::SUBS - Head::LENGTH;
}

// Record 320: the electrodes.
#[derive(Clone, Copy)]
pub struct Electrodes;

impl Electrodes {
    pub const CODE: u32 = 320;
}

// Record 325: an electrode.
#[derive(Clone, Copy)]
pub struct Electrode;

impl Electrode {
    pub const CODE: u32 = 325;

    // A type that only an electrode may have.
    pub const TYPE: u32 = 101;
}

// Record 350: a montage.
#[derive(Clone, Copy)]
pub struct Montage;

impl Montage {
    pub const CODE: u32 = 350;
}

// Record 355: a montage's channel.
#[derive(Clone, Copy)]
pub struct MontageChannel;

impl MontageChannel {
    pub const CODE: u32 = 355;

    // An input's high 16 bits say what it is, up to this; the low ones may name an electrode.
    pub const MOST_INPUT: u32 = 3;

    pub const INPUTS: u32 = 65536;
}

// Record 125, 325 or 355: a channel, an electrode, or a montage's channel.
#[derive(Clone, Copy)]
pub struct Channel;

impl Channel {
    pub const CODE: u32 = 125;

    pub const LENGTH: usize = 256;

    // The length, as record 120's field has it.
    pub const SIZE: u32 = Channel::LENGTH as u32;

    pub const NUMBER: usize = 16;

    pub const FLAGS: usize = 20;

    pub const TYPE: usize = 24;

    pub const FORMAT: usize = 28;

    pub const RATE: usize = 32;

    pub const CAL: usize = 36;

    pub const CAL_AD: usize = 40;

    pub const OFFSET_AD: usize = 44;

    pub const OFFSET_CAL: usize = 48;

    pub const CAL_FREQUENCY: usize = 52;

    pub const LOW_CUT: usize = 56;

    pub const HIGH_CUT: usize = 60;

    pub const SENSITIVITY: usize = 64;

    pub const RESERVE: usize = 68;

    pub const LABEL: usize = 72;

    pub const LABEL_LENGTH: usize = 16;

    pub const UNIT: usize = 88;

    pub const UNIT_LENGTH: usize = 16;

    pub const G1: usize = 104;

    pub const G2: usize = 108;

    pub const SPARE: usize = 112;

    pub const COMMENT: usize = 196;

    pub const COMMENT_LENGTH: usize = 60;

    // In Hz; and where the rate is a period, microseconds below this, of which a second has so many.
    pub const MOST_RATE: u32 = 1000000;

    pub const PERIOD_LIMIT: u32 = Head::LIMIT;

    pub const MICROSECONDS: u64 = 1000000;

    // The type of a channel of events.
    pub const EVENTS: u32 = 1;

    // The formats of samples that are not whole numbers of 32 bits: whole numbers of 16 and of 24, and floats of 32.
    pub const SHORTS: u32 = 1;

    pub const TRIPLES: u32 = 2;

    pub const FLOATS: u32 = 4;

    // The bytes of a sample.
    pub const SHORT_WIDTH: usize = 2;

    pub const TRIPLE_WIDTH: usize = 3;

    pub const LONG_WIDTH: usize = 4;

    // How many numbers stand up to the calibration frequency, with the head's; and behind it.
    pub const NUMBERS: usize = 13;

    pub const CUTS: usize = 2;
}

// Record 130: the patient's items.
#[derive(Clone, Copy)]
pub struct Patient;

impl Patient {
    pub const CODE: u32 = 130;
}

// Record 200: the event items.
#[derive(Clone, Copy)]
pub struct Events;

impl Events {
    pub const CODE: u32 = 200;
}

// What 130 and 200 share.
#[derive(Clone, Copy)]
pub struct Items;

impl Items {
    pub const LEAST: usize = 24;

    pub const COUNT: usize = 16;

    pub const RESERVE: usize = 20;

    pub const MOST: u32 = 256;

    pub const FIRST: usize = 24;

    // In the record's body; and how many numbers stand up to the reserve.
    pub const BODY_COUNT: usize = Items::COUNT - Head::LENGTH;

    pub const BODY_RESERVE: usize = Items::RESERVE - Head::LENGTH;

    pub const NUMBERS: usize = 1;

    pub const BODY_FIRST: usize = Items::FIRST - Head::LENGTH;
}

// An item of 130 or 200.
#[derive(Clone, Copy)]
pub struct Item;

impl Item {
    pub const LEAST: usize = 8;

    pub const LIMIT: usize = Head::LIMIT as usize;

    pub const CODE: usize = 4;

    pub const TEXT: usize = 8;

    // How many numbers stand up to the text.
    pub const NUMBERS: usize = 2;
}

// Record 140: T, the frame length, and how many bytes of padding it has.
#[derive(Clone, Copy)]
pub struct Frames {
    pub seconds: u32,
    pub size: usize,
    pub padded: usize,
}

impl Frames {
    pub const CODE: u32 = 140;

    pub const MOST_SECONDS: u32 = 3600;

    pub const LEAST: usize = 32;

    pub const SECONDS: usize = 16;

    pub const FRAME_LENGTH: usize = 20;

    pub const COUNT: usize = 24;

    pub const RESERVE: usize = 28;

    pub const FIRST: usize = 32;

    // In the record's body; and how many numbers stand up to the reserve.
    pub const BODY_FRAME_LENGTH: usize = Frames::FRAME_LENGTH - Head::LENGTH;

    pub const BODY_COUNT: usize = Frames::COUNT - Head::LENGTH;

    pub const BODY_RESERVE: usize = Frames::RESERVE - Head::LENGTH;

    pub const NUMBERS: usize = 3;

    pub const BODY_FIRST: usize = Frames::FIRST - Head::LENGTH;
}

// Record 145: a frame.
#[derive(Clone, Copy)]
pub struct Frame;

impl Frame {
    pub const CODE: u32 = 145;

    pub const HOUR: usize = 16;

    pub const MINUTE: usize = 18;

    pub const SECOND: usize = 20;

    pub const RESERVE: usize = 22;

    pub const SAMPLES: usize = 24;

    // Padding is shorter than the largest multiplier.
    pub const MOST_PADDING: usize = Head::MOST as usize - 1;

    pub const LIMIT: usize = Head::LIMIT as usize;

    // In the record's body; and the numbers of its clock.
    pub const BODY_RESERVE: usize = Frame::RESERVE - Head::LENGTH;

    pub const CLOCK_NUMBERS: usize = 3;

    pub const CLOCK_WIDTH: usize = 2;

    pub const BODY_SAMPLES: usize = Frame::SAMPLES - Head::LENGTH;
}

// The delimiter behind a recording's records.
#[derive(Clone, Copy)]
pub struct Delimiter;

impl Delimiter {
    pub const CODE: u32 = 0;

    pub const LENGTH: usize = 16;
}

// A maker's own record.
#[derive(Clone, Copy)]
pub struct Maker;

impl Maker {
    pub const FIRST_CODE: u32 = 1024;

    pub const LEAST: usize = 16;
}
