// Where a replica stands.
use storage::Page;

// A replica's number, and the page that storage has for it.
#[derive(Clone, Copy, PartialEq, Eq, Debug)]
pub struct Site {
    pub own: u32,
    pub page: Page,
}
