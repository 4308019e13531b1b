// Questions about a file: each judges the file itself, and answers values or the refusal.
// Recordings, channels, items and frames are asked for from 1, samples from 0.
#![tactic(auto)]

pub mod channels;
pub mod headers;
pub mod items;

ghost use Rattle.std.specs.Prelude.{◌≡◌};
ghost use Rattle.questions.specs.Promised.{HeaderAnswer, FactsAnswer, ChannelAnswer, MontageCountAnswer, MontageAnswer};
ghost use Rattle.questions.specs.Promised.{PatientItemAnswer, EventItemAnswer};
ghost use Rattle.questions.specs.Promised.{ClockAnswer, PlaceAnswer, TrackAnswer, SampleAnswer};
ghost use Rattle.questions.specs.Questions.{version_number, form_number};

use crate::channels::{Descriptor, Wired};
use crate::headers::Header;
use crate::items::Entry;
use recordings::Counts;
use records::items::Holder;
use rules::{Channel, Channels, FileHeader, Form, Label, Reason, Refusal, Version};
use samples::{Number, Place, Time, Track};

// The number of the form's digits.
fn form_number(label: Label) -> u32
    ensures { result ≡ form_number label }
{
    match label.form {
        Form::Channels => FileHeader::CHANNELS_NUMBER,
        Form::Electrodes => FileHeader::ELECTRODES_NUMBER,
    }
}

// The number of a version's digits.
fn version_number(label: Label) -> u32
    ensures { result ≡ version_number label }
{
    match label.version {
        Version::V100 => FileHeader::V100_NUMBER,
        Version::V110 => FileHeader::V110_NUMBER,
        Version::V200 => FileHeader::V200_NUMBER,
        Version::V300 => FileHeader::V300_NUMBER,
    }
}

// What the file header says.
pub fn header(file: &[u8]) -> Result<Header, Refusal>
    ensures { HeaderAnswer file.now result }
{
    let h = judge::judge(file)?;
    let label = h.heading.label;
    Ok(Header {
        spelling: h.heading.spelling,
        version: version_number(label),
        form: form_number(label),
        order: h.order,
        script: h.heading.script,
        recordings: h.count,
    })
}

// How many channels and frames a recording has, and the seconds of a frame: M, F and T.
pub fn facts(file: &[u8], recording: usize) -> Result<Counts, Refusal>
    ensures { FactsAnswer file.now recording result }
{
    let (_, q) = recordings::recording_asked(file, recording)?;
    Ok(recordings::facts_of(q))
}

// The descriptor of a channel that holds for a recording.
pub fn channel(file: &[u8], recording: usize, channel: usize) -> Result<Descriptor, Refusal>
    ensures { ChannelAnswer file.now recording channel result }
{
    let (order, q) = recordings::recording_asked(file, recording)?;
    if !recordings::within(channel, q.count) {
        return Err(Refusal(Reason::Range, 0));
    }
    let at = q.channels + Channels::SUBS + Channel::LENGTH * (channel - 1);
    Ok(channels::descriptor_at(order, file, at))
}

// How many channels the montage of a recording has: 0 where it has none.
pub fn montage_count(file: &[u8], recording: usize) -> Result<u32, Refusal>
    ensures { MontageCountAnswer file.now recording result }
{
    let (order, q) = recordings::recording_asked(file, recording)?;
    Ok(channels::montage_channels(order, file, q))
}

// A channel of a recording's own montage.
pub fn montage(file: &[u8], recording: usize, channel: usize) -> Result<Wired, Refusal>
    ensures { MontageAnswer file.now recording channel result }
{
    let (order, q) = recordings::recording_asked(file, recording)?;
    let first = q.montage.ok_or(Refusal(Reason::Range, 0))?;
    let count = channels::montage_channels(order, file, q);
    if !recordings::within(channel, count) {
        return Err(Refusal(Reason::Range, 0));
    }
    let at = first + Channels::SUBS + Channel::LENGTH * (channel - 1);
    Ok(channels::wired_at(order, file, at))
}

// An item of the record 130 that holds for a recording.
pub fn patient_item(file: &[u8], recording: usize, item: usize) -> Result<Entry, Refusal>
    ensures { PatientItemAnswer file.now recording item result }
{
    items::item_asked(file, Holder::Patient, recording, item)
}

// An item of a recording's own record 200.
pub fn event_item(file: &[u8], recording: usize, item: usize) -> Result<Entry, Refusal>
    ensures { EventItemAnswer file.now recording item result }
{
    items::item_asked(file, Holder::Event, recording, item)
}

// The clock time of a frame.
pub fn clock(file: &[u8], recording: usize, frame: usize) -> Result<Time, Refusal>
    ensures { ClockAnswer file.now recording frame result }
{
    let (order, _, at) = samples::frame_asked(file, recording, frame)?;
    Ok(samples::time_at(order, file, at))
}

// Where the samples of a channel in a frame stand; where there are none, the place that they would take.
pub fn place(file: &[u8], recording: usize, frame: usize, channel: usize) -> Result<Place, Refusal>
    ensures { PlaceAnswer file.now recording frame channel result }
{
    let (_, _, run) = samples::samples_asked(file, recording, frame, channel)?;
    Ok(run.place)
}

// Where the samples of a channel stand in every frame of a recording.
pub fn track(file: &[u8], recording: usize, channel: usize) -> Result<Track, Refusal>
    ensures { TrackAnswer file.now recording channel result }
{
    let (order, q, run) = samples::samples_asked(file, recording, 1, channel)?;
    Ok(samples::track_of(order, q, run))
}

// One sample of a channel in a frame.
pub fn sample(
    file: &[u8],
    recording: usize,
    frame: usize,
    channel: usize,
    sample: usize,
) -> Result<Number, Refusal>
    ensures { SampleAnswer file.now recording frame channel sample result }
{
    let (order, _, run) = samples::samples_asked(file, recording, frame, channel)?;
    let place = run.place;
    if place.count <= sample {
        return Err(Refusal(Reason::Range, 0));
    }
    let at = place.position + place.width * sample;
    Ok(samples::number_at(order, file, at, run.format))
}
