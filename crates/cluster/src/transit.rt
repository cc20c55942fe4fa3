// The messages in transit.
ghost use Rattle.std.specs.Prelude.{◌≤◌, vec_len, vec_capacity};

use replica::Message;

pub mod moves;

// At most 96, as a list with places from 0. Room for them is made once, so that no event can want memory.
#[derive(Drop)]
pub struct Transit {
    messages: Vec<Message>,
    ghost room: { 96 ≤ vec_capacity messages },
    ghost few: { vec_len messages ≤ 96 },
}
