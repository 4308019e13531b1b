// A record's head, written.
ghost use Rattle.std.specs.Prelude.{◌≡◌, length};
ghost use Rattle.walk.specs.Walk.{render};
ghost use Rattle.rules.specs.Canonical.{numerals};

use rules::Head;
use words::{Order, put};

// A record's first 16 bytes, which `head_at` reads.
pub fn put_head(to: Order, size: u32, code: u32, serial: u32, multiplier: u32, d: &mut [u8])
    requires { length d.old ≡ 16 }
    ensures { d.new ≡ render to (numerals (record { size = size; code = code; serial = serial; multiplier = multiplier })) }
{
    put::<4>(to, size, &mut d[..Head::CODE]);
    put::<4>(to, code, &mut d[Head::CODE..Head::SERIAL]);
    put::<4>(to, serial, &mut d[Head::SERIAL..Head::MULTIPLIER]);
    put::<4>(to, multiplier, &mut d[Head::MULTIPLIER..]);
}
