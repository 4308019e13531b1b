// A run of samples in one call: so many from a first one on, of one channel in one frame, into a lent buffer.
#![tactic(auto)]

ghost use Rattle.std.specs.Prelude.{◌≡◌, length};
ghost use Rattle.runs.specs.Found.{RunInside, RunFoundAs};
ghost use Rattle.runs.specs.Runs.{serves, place_from, RunAnswer};
ghost use Rattle.runs.specs.declared.Sibling.TheVariants as Sibling;

use rules::{Channel, Reason, Refusal};
use samples::{Place, part};
use words::Order;

// The two calls: signed numbers of formats 1 to 3, and the 32 bits of floats, format 4.
#[derive(Clone, Copy)]
pub enum Sibling {
    Whole,
    Floats,
}

// Whether a channel of this format is asked for by this call.
fn format_served(b: Sibling, format: u32) -> bool
    ensures { result ≡ serves b format }
{
    match b {
        Sibling::Whole => format != Channel::FLOATS,
        Sibling::Floats => format == Channel::FLOATS,
    }
}

// The place of n samples from the first on, of those at a place in a file of so many bytes.
fn place_from(bytes: usize, place: Place, first: usize, n: usize) -> Place
    requires { RunInside bytes first n place }
    ensures { result ≡ place_from first n place }
{
    Place {
        position: place.position + place.width * first,
        width: place.width,
        count: n,
    }
}

// The run asked for, into a buffer with room for so many numbers.
fn run_asked(
    file: &[u8],
    b: Sibling,
    recording: usize,
    frame: usize,
    channel: usize,
    first: usize,
    number: usize,
    room: usize,
) -> Result<(Order, u32, Place), Refusal>
    ensures { RunFoundAs b file.now recording frame channel first number room result }
{
    let (order, _, run) = samples::samples_asked(file, recording, frame, channel)?;
    if !format_served(b, run.format) {
        return Err(Refusal(Reason::Range, 0));
    }
    let place = run.place;
    if !samples::fits(place.count, first, number) {
        return Err(Refusal(Reason::Range, 0));
    }
    if room < number {
        return Err(Refusal(Reason::Room, number));
    }
    let from = place_from(file.len(), place, first, number);
    Ok((order, run.format, from))
}

// A run of whole numbers, of a channel of format 1, 2 or 3. It and `run_floats` keep their own three lines behind what they share: one function for both
// would take a trait of the two elements, with a law of each method, and still be called by these two names.
pub fn run(
    file: &[u8],
    recording: usize,
    frame: usize,
    channel: usize,
    first: usize,
    number: usize,
    out: &mut [i64],
) -> Result<usize, Refusal>
    ensures { RunAnswer Sibling.Whole file.now recording frame channel first number out.old out.new result }
{
    let room = out.len();
    let b = Sibling::Whole;
    let (order, format, place) = run_asked(
        file, b, recording, frame, channel, first, number, room,
    )?;
    decode::numbers(order, format, part(file, place), &mut out[..number]);
    Ok(number)
}

// A run of floats, of a channel of format 4: the 32 bits of each, since a NaN's pattern cannot become an f32.
pub fn run_floats(
    file: &[u8],
    recording: usize,
    frame: usize,
    channel: usize,
    first: usize,
    number: usize,
    out: &mut [u32],
) -> Result<usize, Refusal>
    ensures { RunAnswer Sibling.Floats file.now recording frame channel first number out.old out.new result }
{
    let room = out.len();
    let b = Sibling::Floats;
    let (order, _, place) = run_asked(file, b, recording, frame, channel, first, number, room)?;
    decode::patterns(order, part(file, place), &mut out[..number]);
    Ok(number)
}
