// The worked cases: examples in numbers, proved of the definitions that the contracts cite.
ghost use Rattle.std.specs.Prelude.{◌≡◌, length};
ghost use Rattle.std.specs.List.{All};
ghost use Rattle.storage.specs.WorkedCases.{Holds, cases};

// How many worked cases there are; each of them is computed, and holds.
pub fn worked_cases() -> usize
    ensures count { result ≡ length cases }
    ensures hold { All Holds cases }
{
    14
}
