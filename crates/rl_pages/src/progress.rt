ghost use Rattle.std.specs.Prelude.{◌≡◌};
ghost use Rattle.rl_pages.specs.State as state;

use rl_ids::Place;

/// How far the pages of one kind have come.
#[derive(Clone, Copy)]
pub(crate) struct Progress {
    /// Whether they were asked for.
    pub(crate) asked: bool,
    /// How many came. It stays at 2^64 - 1 once it is there.
    pub(crate) count: u64,
    /// No page is wanted any more: the last one came, or none was asked for.
    pub(crate) done: bool,
    /// The greatest head at which they were made, or 0.
    pub(crate) head: Place,
}

impl Progress {
    pub(crate) fn new(asked: bool) -> Progress
        ensures { result ≡ state.started asked }
    {
        Progress {
            asked,
            count: 0,
            done: !asked,
            head: Place(0),
        }
    }

    // The number of the next page, from 1.
    pub(crate) fn next_number(&self) -> u64
        ensures { result ≡ state.next_number self.now }
    {
        self.count.saturating_add(1)
    }

    // One more page came.
    pub(crate) fn add_page(&mut self, last: bool, head: Place)
        ensures { self.new ≡ state.with_page last head self.old }
    {
        self.count = self.next_number();
        self.done = self.done || last;
        self.head = self.head.max(head);
    }
}
