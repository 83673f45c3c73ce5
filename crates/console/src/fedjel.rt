// What the programs that take a FEDJEL hold: the message, the file of the day's cover requests, and the clearing day (02 #103).
use crate::{put_number, read_file, say};
use std::rt::Files;

// The most items that the two counts of a foot, four digits each, can be right for (002 12.2).
pub const ITEMS: usize = 19998;

// The length of a FEDJEL with so many: head, items and foot, each with its ending (002 12.1 to 12.4).
pub const LONGEST: usize = 34 + 72 * ITEMS + 44;

// The space for a message: one byte more, so that a longer one shows.
pub const MESSAGE: usize = LONGEST + 1;

// The space for the file `requests`: 10,000 of 65 bytes, and one byte more. So much of a longer file isn't whole requests: refusal 11.
pub const REQUESTS: usize = 65 * 10000 + 1;

// The clearing day that the file `day` says, where it says one. Nine bytes are no date, so more of the file isn't read.
pub fn day(rt: &impl Files) -> Option<u32> {
    let mut space = [0u8; 9];
    let n = read_file(rt, "day", &mut space);
    files::day(&space[..n])
}

// Of a longer message nothing is judged, since its front alone would be another message: on standard error, after the program's name.
pub fn too_long(rt: &HostRuntime, name: &[u8]) {
    say(rt, name);
    say(rt, b": over ");
    put_number(&rt.stderr(), LONGEST as u64);
    say(rt, b" bytes, the length of ");
    put_number(&rt.stderr(), ITEMS as u64);
    say(
        rt,
        b" items, the most that a FEDJEL's foot can count; nothing is judged\n",
    );
}
