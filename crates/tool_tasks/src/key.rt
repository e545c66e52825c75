//! What an event gives, and a later one takes.

ghost use Rattle.std.specs.Prelude.{◌≡◌};
ghost use Rattle.tool_tasks.specs.Holding.{IsShortKey, number_in, number_of};

/// What an event gives, and a later one takes. The first leads to the later one where they have a key in common.
#[derive(Clone, Copy)]
pub enum Key {
    /// The event of this task with this number, counted from 0.
    Next(u32, u32),
    /// This region has begun.
    Begun(u32),
    /// An implicit task of this region has ended.
    Left(u32),
    /// This task is created.
    Created(u32),
    /// A child of this task is complete.
    Child(u32),
    /// A task of this region is complete.
    Ended(u32),
    /// A task of this region has begun its wait at a barrier with this number, counted from 0.
    Wait(u32, u32),
}

impl Key {
    /// A number for each key.
    pub fn number(self) -> u128
        ensures number { result ≡ number_of self }
        ensures short { IsShortKey self }
    {
        match self {
            Key::Next(task, count) => number(0, task, count),
            Key::Begun(region) => number(1, region, 0),
            Key::Left(region) => number(2, region, 0),
            Key::Created(task) => number(3, task, 0),
            Key::Child(parent) => number(4, parent, 0),
            Key::Ended(region) => number(5, region, 0),
            Key::Wait(region, count) => number(6, region, count),
        }
    }
}

/// Three numbers as one.
fn number(family: u8, first: u32, second: u32) -> u128
    ensures { result ≡ number_in family first second }
{
    (u128::from(family) * 0x1_0000_0000 + u128::from(first)) * 0x1_0000_0000 + u128::from(second)
}
