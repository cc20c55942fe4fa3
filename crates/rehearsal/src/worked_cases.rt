// The worked cases: examples in numbers, proved of the definitions that the contracts cite.
ghost use Rattle.std.specs.Prelude.{◌≡◌, length};
ghost use Rattle.rehearsal.specs.WorkedCases.{Holds, cases};
ghost use Rattle.std.specs.List.{All};

// How many worked cases there are; each of them holds. One is a script, which is computed, and those of
// entries and quorums were proved by the crate below.
pub fn worked_cases() -> usize
    ensures count { result ≡ length cases }
    ensures hold { All Holds cases }
{
    storage::worked_cases::worked_cases() + 1
}
