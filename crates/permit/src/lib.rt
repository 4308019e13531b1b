// Leave to write: no maker's record stands in the way, and there is room.
#![tactic(auto)]

ghost use Rattle.std.specs.Prelude.{◌≡◌};
ghost use Rattle.makers.specs.Search.{found};
ghost use Rattle.permit.specs.Permit.{meaning, barring, within, permitted};

use rules::{Reason, Refusal};

// 18 where a maker's record was found.
fn barred(made: Option<usize>, need: usize) -> Result<usize, Refusal>
    ensures { meaning result ≡ barring (found made) need }
{
    match made {
        Some(place) => Err(Refusal(Reason::Maker, place)),
        None => Ok(need),
    }
}

// 17 where the room is too small.
fn short(need: usize, room: usize) -> Result<usize, Refusal>
    ensures { meaning result ≡ within need room }
{
    if room < need {
        return Err(Refusal(Reason::Room, need));
    }
    Ok(need)
}

// The bytes that may be written, or the first refusal of 18 and 17.
pub fn permit(made: Option<usize>, need: usize, room: usize) -> Result<usize, Refusal>
    ensures { meaning result ≡ permitted (found made) need room }
{
    let maker = barred(made, need);
    let space = short(need, room);
    maker.and(space)
}
