// A rehearsal fed byte by byte, as standard input brings them.
ghost use Rattle.std.specs.Prelude.{◌≤◌, vec_len, vec_capacity};

use crate::rehearsal::Rehearsal;

pub mod feeding;

// The line that is being read is held as far as one byte past the longest, which tells that it is too
// long. Room for it is made once. The allocator is given with each call and not kept. What a session means,
// `session_of`, is a definition and no `impl Model`: it holds the functions of a setup, and a view's value has to
// be data.
#[derive(Drop)]
pub struct Session {
    rehearsal: Rehearsal,
    line: Vec<u8>,
    ghost room: { 4097 ≤ vec_capacity line },
    ghost few: { vec_len line ≤ 4097 },
}
