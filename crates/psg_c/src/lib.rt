// The calls of libpsg.a, which C and Rust link, as include/psg.h declares them: each is the call of crate `psg` of its name, and promises the same.
#![tactic(auto)]

ghost use Rattle.psg.specs.Calls.{JudgeAnswers, TableAnswers, TurnAnswers, RewriteAnswers, RoomAnswers};
ghost use Rattle.psg.specs.Calls.{HeaderAnswers, FactsAnswers, ChannelAnswers, MontageCountAnswers, MontageAnswers};
ghost use Rattle.psg.specs.Calls.{PatientItemAnswers, EventItemAnswers, ClockAnswers};
ghost use Rattle.psg.specs.Calls.{PlaceAnswers, TrackAnswers, PartAnswers, SampleAnswers, RunAnswers, IndexAnswers};
ghost use Rattle.psg.specs.Calls.{KindAnswers};
ghost use Rattle.runs.specs.declared.Sibling.TheVariants as Sibling;

use answers::{
    Channel, Clock, Counted, Facts, Header, Heading, Item, Kind, Montage, Part, Place, Sample,
    Track,
};

// The verdict on a file: what its header says, or the refusal.
#[unsafe(no_mangle)]
pub extern "C" fn psg_judge(file: &[u8]) -> Header
    ensures { JudgeAnswers file.now result }
{
    psg::psg_judge(file)
}

// The table: how many rows of four numbers were written.
#[unsafe(no_mangle)]
pub extern "C" fn psg_table(file: &[u8], rows: &mut [i64]) -> Counted
    ensures { TableAnswers file.now rows.old rows.new result }
{
    psg::psg_table(file, rows)
}

// The file in the other byte order: how many bytes were written.
#[unsafe(no_mangle)]
pub extern "C" fn psg_turn(file: &[u8], out: &mut [u8]) -> Counted
    ensures { TurnAnswers file.now out.old out.new result }
{
    psg::psg_turn(file, out)
}

// The canonical form of the file, in the order that a letter names: how many bytes were written.
#[unsafe(no_mangle)]
pub extern "C" fn psg_rewrite(file: &[u8], order: u8, out: &mut [u8]) -> Counted
    ensures { RewriteAnswers file.now order out.old out.new result }
{
    psg::psg_rewrite(file, order, out)
}

// Room that is enough for the canonical form of the file, in either order: so many bytes.
#[unsafe(no_mangle)]
pub extern "C" fn psg_rewrite_room(file: &[u8]) -> Counted
    ensures { RoomAnswers file.now result }
{
    psg::psg_rewrite_room(file)
}

// The questions, in the order of crate `questions`.
#[unsafe(no_mangle)]
pub extern "C" fn psg_header(file: &[u8]) -> Heading
    ensures { HeaderAnswers file.now result }
{
    psg::psg_header(file)
}

#[unsafe(no_mangle)]
pub extern "C" fn psg_facts(file: &[u8], recording: usize) -> Facts
    ensures { FactsAnswers file.now recording result }
{
    psg::psg_facts(file, recording)
}

#[unsafe(no_mangle)]
pub extern "C" fn psg_channel(file: &[u8], recording: usize, channel: usize) -> Channel
    ensures { ChannelAnswers file.now recording channel result }
{
    psg::psg_channel(file, recording, channel)
}

#[unsafe(no_mangle)]
pub extern "C" fn psg_montage_count(file: &[u8], recording: usize) -> Counted
    ensures { MontageCountAnswers file.now recording result }
{
    psg::psg_montage_count(file, recording)
}

#[unsafe(no_mangle)]
pub extern "C" fn psg_montage(file: &[u8], recording: usize, channel: usize) -> Montage
    ensures { MontageAnswers file.now recording channel result }
{
    psg::psg_montage(file, recording, channel)
}

#[unsafe(no_mangle)]
pub extern "C" fn psg_patient_item(file: &[u8], recording: usize, item: usize) -> Item
    ensures { PatientItemAnswers file.now recording item result }
{
    psg::psg_patient_item(file, recording, item)
}

#[unsafe(no_mangle)]
pub extern "C" fn psg_event_item(file: &[u8], recording: usize, item: usize) -> Item
    ensures { EventItemAnswers file.now recording item result }
{
    psg::psg_event_item(file, recording, item)
}

#[unsafe(no_mangle)]
pub extern "C" fn psg_clock(file: &[u8], recording: usize, frame: usize) -> Clock
    ensures { ClockAnswers file.now recording frame result }
{
    psg::psg_clock(file, recording, frame)
}

#[unsafe(no_mangle)]
pub extern "C" fn psg_place(file: &[u8], recording: usize, frame: usize, channel: usize) -> Place
    ensures { PlaceAnswers file.now recording frame channel result }
{
    psg::psg_place(file, recording, frame, channel)
}

#[unsafe(no_mangle)]
pub extern "C" fn psg_track(file: &[u8], recording: usize, channel: usize) -> Track
    ensures { TrackAnswers file.now recording channel result }
{
    psg::psg_track(file, recording, channel)
}

// The part of a file of so many bytes that `samples::part` cuts by a place. It needs no file.
#[unsafe(no_mangle)]
pub extern "C" fn psg_part(bytes: usize, position: usize, width: usize, count: usize) -> Part
    ensures { PartAnswers bytes position width count result }
{
    psg::psg_part(bytes, position, width, count)
}

#[unsafe(no_mangle)]
pub extern "C" fn psg_sample(
    file: &[u8],
    recording: usize,
    frame: usize,
    channel: usize,
    sample: usize,
) -> Sample
    ensures { SampleAnswers file.now recording frame channel sample result }
{
    psg::psg_sample(file, recording, frame, channel, sample)
}

// A run of samples: so many whole numbers, or the 32 bits of so many floats.
#[unsafe(no_mangle)]
pub extern "C" fn psg_run(
    file: &[u8],
    recording: usize,
    frame: usize,
    channel: usize,
    first: usize,
    number: usize,
    samples: &mut [i64],
) -> Counted
    ensures { RunAnswers Sibling.Whole file.now recording frame channel first number samples.old samples.new result }
{
    psg::psg_run(file, recording, frame, channel, first, number, samples)
}

#[unsafe(no_mangle)]
pub extern "C" fn psg_run_floats(
    file: &[u8],
    recording: usize,
    frame: usize,
    channel: usize,
    first: usize,
    number: usize,
    bits: &mut [u32],
) -> Counted
    ensures { RunAnswers Sibling.Floats file.now recording frame channel first number bits.old bits.new result }
{
    psg::psg_run_floats(file, recording, frame, channel, first, number, bits)
}

// The night events: how many entries of five numbers were written.
#[unsafe(no_mangle)]
pub extern "C" fn psg_index(file: &[u8], entries: &mut [i64]) -> Counted
    ensures { IndexAnswers file.now entries.old entries.new result }
{
    psg::psg_index(file, entries)
}

// The kind of an event's code. It needs no file.
#[unsafe(no_mangle)]
pub extern "C" fn psg_event_kind(code: u64) -> Kind
    ensures { KindAnswers code result }
{
    psg::psg_event_kind(code)
}
