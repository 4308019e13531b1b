// What each version of the format allows.
#![tactic(auto, unfolding(rules::specs::Rules::allows))]

ghost use Rattle.std.specs.Prelude.{◌≡◌};
ghost use Rattle.rules.specs.Rules as R;
ghost use Rattle.versions.specs.Allowed.{allows_of};

use rules::{Channel, Head, Label, Version};

// Form 01; script U; the largest multiplier; type 20; the largest format; a recording without an event table of its own.
#[derive(Clone, Copy, Debug, PartialEq, Eq)]
pub struct Allowed {
    pub electrodes: bool,
    pub unicode: bool,
    pub multiplier: u32,
    pub twenty: bool,
    pub format: u32,
    pub eventless: bool,
}

// What 000100 allows; the two after it allow one or three things more, and 000300 all.
const OLDEST: Allowed = Allowed {
    electrodes: false,
    unicode: false,
    multiplier: 0,
    twenty: false,
    format: Channel::SHORTS,
    eventless: false,
};

pub fn allows(v: Version) -> Allowed
    ensures { allows_of result ≡ R.allows v }
{
    match v {
        Version::V100 => OLDEST,
        Version::V110 => Allowed {
            twenty: true,
            ..OLDEST
        },
        Version::V200 => Allowed {
            electrodes: true,
            twenty: true,
            eventless: true,
            ..OLDEST
        },
        Version::V300 => Allowed {
            electrodes: true,
            unicode: true,
            multiplier: Head::MOST,
            twenty: true,
            format: Channel::FLOATS,
            eventless: true,
        },
    }
}

// The largest multiplier of a record in a file with this label.
pub fn most_of(label: Label) -> u32
    ensures { result ≡ R.most_of label }
{
    allows(label.version).multiplier
}
