// The parts of a line, which stand one space apart.
ghost use Rattle.std.specs.Prelude.{◌≡◌, ◌==◌, position};
ghost use Rattle.rehearsal.specs.Parts.{after_space, before_space};

// What stands before the first space, and after it; where there is none, nothing stands after it.
pub(crate) fn split_at_space(bytes: &[u8]) -> (&[u8], &[u8])
    ensures before { result.0.now ≡ before_space bytes.now }
    ensures after { result.1.now ≡ after_space bytes.now }
{
    match first_space(bytes) {
        Some(i) => (&bytes[..i], &bytes[i + 1..]),
        None => (bytes, &[]),
    }
}

// Where the first space stands, if there is one.
fn first_space(bytes: &[u8]) -> Option<usize>
    ensures { result ≡ position (λ b. b == 32) bytes.now }
{
    bytes.iter().position(|byte| *byte == b' ')
}
