//! What a reader keeps of the items that it has given.

ghost use Rattle.std.specs.Prelude.{◌≡◌, ◌≤◌};
ghost use Rattle.trace_format.specs.Flat.{stage_in};
ghost use Rattle.trace_format.specs.Taking.{next_stage};

use crate::item::Item;
use crate::trace::{Header, SEQ_LIMIT};

/// What a reader keeps of the items that it has given.
#[derive(Clone, Copy)]
pub struct Kept {
    /// The header, once it was taken.
    pub header: Option<Header>,
    /// The number of events that were taken.
    pub count: u32,
    /// The least sequence number that may come next.
    pub least: u32,
    /// Whether the end mark was taken.
    pub over: bool,
}

impl Kept {
    /// The item was given.
    pub fn count_in(&mut self, item: &Item)
        requires count { (next_stage (stage_in self.old) item.now).count ≤ SEQ_LIMIT }
        requires least { (next_stage (stage_in self.old) item.now).least ≤ SEQ_LIMIT }
        ensures { stage_in self.new ≡ next_stage (stage_in self.old) item.now }
    {
        match item {
            Item::More => {}
            Item::Header(header) => self.header = Some(*header),
            Item::Event(event) => {
                self.count += 1;
                self.least = event.seq + 1;
            }
            Item::End(_) => self.over = true,
        }
    }
}
