//! The parts of a run that are guests.

ghost use Rattle.std.specs.Prelude.{◌≡◌, ◌≤◌, ◌+◌, ◌++◌, ◌∷◌, [], reverse, length, IfOk, vec_len, vec_capacity};
ghost use Rattle.ompt_cli.specs.Guests.{HandOut, guests_of};

use ompt_calls::{Call, Snapshot};
use std::alloc::Global;
use tool_api::{GuestTool, Handed, Memory, Quiet, Registrar, Response, ToolPart};

/// Guests, in their order.
pub(crate) type Guests = Vec<Box<dyn GuestTool>>;

/// The part of a thread: that of a guest, or none.
pub(crate) type Part = Handed<GuestPart>;

/// A part that hands each call on to a guest, and stands for what the guest stands for. It is a type of this crate, since
/// what a function of another crate does with a box isn't seen here: the box that comes back could be any other.
#[derive(Drop)]
pub(crate) struct GuestPart(pub Box<dyn GuestTool>);

impl ToolPart for GuestPart {
    ghost stands_for = { λ guest h. (GuestTool-box guest.0).stands_for guest.0.value h };

    ghost use Rattle.std.specs.Prelude.{◌≡◌};
    ghost use Rattle.std.proofs.Common.{refl, ◌∙◌};

    ghost same = { λ guest other. guest.0.vtable ≡ other.0.vtable };

    ghost same_itself = { λ guest. refl };

    ghost same_onward = { λ first second third one other. one ∙ other };

    fn initialize(&mut self, registrar: &mut Registrar) -> u32 {
        self.0.initialize(registrar)
    }

    fn callback(&mut self, seq: u32, thread: u8, call: &Call, snapshot: &Snapshot) -> Response {
        self.0.callback(seq, thread, call, snapshot)
    }

    fn finalize(&mut self) {
        self.0.finalize();
    }
}

/// The parts of the threads, and the guests that are left, the next one last. There is room for all the guests to wait again.
#[derive(Drop)]
pub(crate) struct Handing {
    pub parts: Vec<Part>,
    pub waiting: Guests,
}

/// A part for each thread: guest t for thread t, and none for threads past the guests.
pub(crate) fn hand_out_all(alloc: Global, threads: u8, guests: Guests) -> Result<Handing, Memory>
    ensures handed { IfOk result (λ handing.
        HandOut (λ guest. guest.0) guests.items handing.parts.items (reverse handing.waiting.items)) }
    ensures each { IfOk result (λ handing. length handing.parts.items ≡ threads) }
    ensures room { IfOk result (λ handing. vec_len handing.waiting + threads ≤ vec_capacity handing.waiting) }
{
    let mut waiting = guests;
    waiting.reverse();
    let mut parts = Vec::new(alloc);
    for _thread in 0..threads {
        parts.push(next_part(&mut waiting))?;
    }
    waiting.reserve(threads as usize)?;
    Ok(Handing { parts, waiting })
}

/// The guests that these parts hold, and behind them those that are left.
pub(crate) fn take_back_all(parts: Vec<Part>, waiting: Guests) -> Guests
    requires { vec_len waiting + length parts.items ≤ vec_capacity waiting }
    ensures { result.items ≡ guests_of (λ guest. guest.0) parts.items ++ reverse waiting.items }
{
    let (mut parts, mut waiting) = (parts, waiting);
    while let Some(part) = parts.pop() {
        wait_again(part, &mut waiting);
    }
    waiting.reverse();
    waiting
}

/// The part of the next thread: the guest that waits next, which is the last one of the list, or none where no more wait.
fn next_part(waiting: &mut Guests) -> Part
    ensures { HandOut (λ guest. guest.0) (reverse waiting.old.items) (result ∷ []) (reverse waiting.new.items) }
{
    match waiting.pop() {
        Some(guest) => Handed::Guest(GuestPart(guest)),
        None => Handed::Quiet(Quiet),
    }
}

/// The guest that the part holds, if it holds one, waits as the next one.
fn wait_again(part: Part, waiting: &mut Guests)
    requires { vec_len waiting.old + 1 ≤ vec_capacity waiting.old }
    ensures waits { reverse waiting.new.items ≡ guests_of (λ guest. guest.0) (part ∷ []) ++ reverse waiting.old.items }
    ensures len { vec_len waiting.new ≤ vec_len waiting.old + 1 }
    ensures capacity { vec_capacity waiting.old ≤ vec_capacity waiting.new }
{
    match part {
        Handed::Guest(guest) => waiting.push(guest.0).unwrap(),
        Handed::Quiet(_) => {}
    }
}
