// What C and Rust call, by crate `psg_c`: each call takes a proved answer apart into a struct of numbers, and adds nothing.
#![tactic(auto)]

ghost use Rattle.psg.specs.Calls.{JudgeAnswers, TableAnswers, TurnAnswers, RewriteAnswers, RoomAnswers};
ghost use Rattle.psg.specs.Calls.{HeaderAnswers, FactsAnswers, ChannelAnswers, MontageCountAnswers, MontageAnswers};
ghost use Rattle.psg.specs.Calls.{PatientItemAnswers, EventItemAnswers, ClockAnswers};
ghost use Rattle.psg.specs.Calls.{PlaceAnswers, TrackAnswers, PartAnswers, SampleAnswers, RunAnswers, IndexAnswers};
ghost use Rattle.psg.specs.Calls.{KindAnswers};
ghost use Rattle.runs.specs.declared.Sibling.TheVariants as Sibling;

use answers::{
    Channel, Clock, Counted, Facts, Header, Heading, Item, Kind, Montage, Part, Place, Sample,
    Track,
};
use rules::FileHeader;
use words::byte;

// The verdict on a file: what its header says, or the refusal.
pub fn psg_judge(file: &[u8]) -> Header
    ensures { JudgeAnswers file.now result }
{
    match judge::judge(file) {
        Ok(h) => answers::header_told(byte(file, FileHeader::ORDER), h),
        Err(r) => answers::header_refused(r),
    }
}

// The table: how many rows of four numbers were written.
pub fn psg_table(file: &[u8], rows: &mut [i64]) -> Counted
    ensures { TableAnswers file.now rows.old rows.new result }
{
    table::table(file, rows).into()
}

// The file in the other byte order: how many bytes were written.
pub fn psg_turn(file: &[u8], out: &mut [u8]) -> Counted
    ensures { TurnAnswers file.now out.old out.new result }
{
    turn::turn(file, out).into()
}

// The canonical form of the file, in the order that a letter names: how many bytes were written.
pub fn psg_rewrite(file: &[u8], order: u8, out: &mut [u8]) -> Counted
    ensures { RewriteAnswers file.now order out.old out.new result }
{
    rewrite::rewrite(file, order, out).into()
}

// Room that is enough for the canonical form of the file, in either order: so many bytes.
pub fn psg_rewrite_room(file: &[u8]) -> Counted
    ensures { RoomAnswers file.now result }
{
    room::room(file).into()
}

// The questions, in the order of crate `questions`.
pub fn psg_header(file: &[u8]) -> Heading
    ensures { HeaderAnswers file.now result }
{
    questions::header(file).into()
}

pub fn psg_facts(file: &[u8], recording: usize) -> Facts
    ensures { FactsAnswers file.now recording result }
{
    questions::facts(file, recording).into()
}

pub fn psg_channel(file: &[u8], recording: usize, channel: usize) -> Channel
    ensures { ChannelAnswers file.now recording channel result }
{
    questions::channel(file, recording, channel).into()
}

pub fn psg_montage_count(file: &[u8], recording: usize) -> Counted
    ensures { MontageCountAnswers file.now recording result }
{
    questions::montage_count(file, recording).into()
}

pub fn psg_montage(file: &[u8], recording: usize, channel: usize) -> Montage
    ensures { MontageAnswers file.now recording channel result }
{
    questions::montage(file, recording, channel).into()
}

pub fn psg_patient_item(file: &[u8], recording: usize, item: usize) -> Item
    ensures { PatientItemAnswers file.now recording item result }
{
    questions::patient_item(file, recording, item).into()
}

pub fn psg_event_item(file: &[u8], recording: usize, item: usize) -> Item
    ensures { EventItemAnswers file.now recording item result }
{
    questions::event_item(file, recording, item).into()
}

pub fn psg_clock(file: &[u8], recording: usize, frame: usize) -> Clock
    ensures { ClockAnswers file.now recording frame result }
{
    questions::clock(file, recording, frame).into()
}

pub fn psg_place(file: &[u8], recording: usize, frame: usize, channel: usize) -> Place
    ensures { PlaceAnswers file.now recording frame channel result }
{
    questions::place(file, recording, frame, channel).into()
}

pub fn psg_track(file: &[u8], recording: usize, channel: usize) -> Track
    ensures { TrackAnswers file.now recording channel result }
{
    questions::track(file, recording, channel).into()
}

// The part of a file of so many bytes that `samples::part` cuts by a place. It needs no file.
pub fn psg_part(bytes: usize, position: usize, width: usize, count: usize) -> Part
    ensures { PartAnswers bytes position width count result }
{
    let place = samples::Place {
        position,
        width,
        count,
    };
    samples::part_in(bytes, place).into()
}

pub fn psg_sample(
    file: &[u8],
    recording: usize,
    frame: usize,
    channel: usize,
    sample: usize,
) -> Sample
    ensures { SampleAnswers file.now recording frame channel sample result }
{
    questions::sample(file, recording, frame, channel, sample).into()
}

// A run of samples: so many whole numbers, or the 32 bits of so many floats.
pub fn psg_run(
    file: &[u8],
    recording: usize,
    frame: usize,
    channel: usize,
    first: usize,
    number: usize,
    samples: &mut [i64],
) -> Counted
    ensures { RunAnswers Sibling.Whole file.now recording frame channel first number samples.old samples.new result }
{
    runs::run(file, recording, frame, channel, first, number, samples).into()
}

pub fn psg_run_floats(
    file: &[u8],
    recording: usize,
    frame: usize,
    channel: usize,
    first: usize,
    number: usize,
    bits: &mut [u32],
) -> Counted
    ensures { RunAnswers Sibling.Floats file.now recording frame channel first number bits.old bits.new result }
{
    runs::run_floats(file, recording, frame, channel, first, number, bits).into()
}

// The night events: how many entries of five numbers were written.
pub fn psg_index(file: &[u8], entries: &mut [i64]) -> Counted
    ensures { IndexAnswers file.now entries.old entries.new result }
{
    index::index(file, entries).into()
}

// The kind of an event's code. It needs no file.
pub fn psg_event_kind(code: u64) -> Kind
    ensures { KindAnswers code result }
{
    codes::event_kind(code).into()
}
