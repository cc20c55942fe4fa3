// Where the parts of a file lie.
ghost use Rattle.std.specs.Prelude.{◌≡◌, ◌<◌, ◌≤◌, true, false, MatchOption};
ghost use Rattle.storage.specs.Files.{file_length, place};
ghost use Rattle.storage.specs.Memories.{count_fits};

// The parts of a file of so many replicas. The bytes are in no struct with it: some calls lend them to be read,
// and some to be written.
#[derive(Clone, Copy)]
pub(crate) struct Layout {
    pub(crate) count: usize,
    ghost least: { 1 ≤ count },
    ghost most: { count ≤ 15 },
}

impl Layout {
    // A file has 1 to 15 replicas.
    pub(crate) fn of(count: usize) -> Option<Layout>
        ensures { MatchOption result (count_fits count ≡ false) (λ l. (l.count ≡ count) × (count_fits count ≡ true)) }
    {
        if (1..=15).contains(&count) {
            Some(Layout { count })
        } else {
            None
        }
    }

    // How long the file is.
    pub(crate) fn length(self) -> usize
        ensures { result ≡ file_length self.count }
    {
        4 + 44 * self.count
    }

    // Where the record of replica i begins.
    pub(crate) fn place(self, i: usize) -> usize
        requires { i < self.count }
        ensures { result ≡ place self.count i }
    {
        4 + 8 * self.count + 36 * i
    }
}
