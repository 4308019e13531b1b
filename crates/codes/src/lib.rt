// What an event's code stands for. It is asked of the code alone, and needs no file.
#![tactic(auto)]

ghost use Rattle.std.specs.Prelude.{◌≡◌};
ghost use Rattle.codes.specs.Codes.{kind_of, KindAnswer};

use rules::{Reason, Refusal};

// The kinds that the standard publishes, in its order; then a user's own, and reserved for all other codes.
#[derive(Clone, Copy, Debug, PartialEq, Eq)]
pub enum EventKind {
    None,
    RecordingStart,
    RecordingEnd,
    CalibrationStart,
    CalibrationEnd,
    InstStart,
    InstEnd,
    SleepAllowed,
    WakeCall,
    LightsOut,
    LightsOn,
    MeasurementStopped,
    MeasurementResumed,
    User,
    Reserved,
}

// The largest code: it has 16 bits.
const MOST: u64 = 65535;

// Bit 12, which marks a user's own.
const USER: u64 = 4096;

// By the standard's hexadecimal column: its decimal one has 8 for the end of INST. A code that is not published is a user's own, or reserved.
#[tactic(auto, unfolding(crate::specs::Codes::published, crate::specs::Codes::kind_in))]
fn kind_by_standard(code: u64) -> EventKind
    ensures { result ≡ kind_of code }
{
    match code {
        0x0000 => EventKind::None,
        0x0003 => EventKind::RecordingStart,
        0x0002 => EventKind::RecordingEnd,
        0x0005 => EventKind::CalibrationStart,
        0x0004 => EventKind::CalibrationEnd,
        0x0007 => EventKind::InstStart,
        0x0006 => EventKind::InstEnd,
        0x0102 => EventKind::SleepAllowed,
        0x0104 => EventKind::WakeCall,
        0x0106 => EventKind::LightsOut,
        0x0108 => EventKind::LightsOn,
        0x010a => EventKind::MeasurementStopped,
        0x010c => EventKind::MeasurementResumed,
        _ if code / USER % 2 == 1 => EventKind::User,
        _ => EventKind::Reserved,
    }
}

pub fn event_kind(code: u64) -> Result<EventKind, Refusal>
    ensures { KindAnswer code result }
{
    if MOST < code {
        return Err(Refusal(Reason::Range, 0));
    }
    Ok(kind_by_standard(code))
}
