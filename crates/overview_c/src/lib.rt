// The calls of liboverview.a, which C and Rust link, as include/overview.h declares them: each is the call of crate `overview` of its name, and promises the same.
#![tactic(auto)]

ghost use Rattle.overview.specs.Flat.{OverviewAnswers, RangeAnswers};

use overview::{Counted, Overviewed};

// The overview of one epoch.
#[unsafe(no_mangle)]
pub extern "C" fn psg_overview(
    file: &[u8],
    recording: usize,
    channel: usize,
    epoch: usize,
) -> Overviewed
    ensures { OverviewAnswers file.now recording channel epoch result }
{
    overview::psg_overview(file, recording, channel, epoch)
}

// The overview of several epochs: how many were written.
#[unsafe(no_mangle)]
pub extern "C" fn psg_overview_range(
    file: &[u8],
    recording: usize,
    channel: usize,
    first: usize,
    number: usize,
    out: &mut [i64],
) -> Counted
    ensures { RangeAnswers file.now recording channel first number out.old out.new result }
{
    overview::psg_overview_range(file, recording, channel, first, number, out)
}
