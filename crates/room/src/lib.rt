// How much room to reserve for a rewrite, before its length is known.
#![tactic(auto)]

ghost use Rattle.room.specs.Room.{RoomAnswer};

use rules::Refusal;

// What is reserved for each recording beyond the file's length, in bytes: 127 for its own padding and 127 for its 140's.
pub const RESERVE: usize = 254;

// As many bytes as `rewrite` can need of this file, in either order; or the file's refusal.
pub fn room(file: &[u8]) -> Result<usize, Refusal>
    ensures { RoomAnswer file.now result }
{
    let h = judge::judge(file)?;
    Ok(file.len() + RESERVE * h.count as usize)
}
