//! What a control's stack holds.

ghost use Rattle.std.specs.Prelude.{◌∷◌, []};
ghost use Rattle.c_steps.specs.FrontFrame.{BeginsAs};
ghost use Rattle.c_steps.specs.Ready.{CanBegin};
ghost use Rattle.c_steps.specs.Trying.{IsBegunFrame};

use crate::item::Item;
use crate::listed::ListedPlace;
use c_model::Target;
use c_syntax::ReductionOp;

/// A part of what stands next in a task's code. Names count without those of the file.
#[derive(Clone, Copy)]
pub(crate) enum Frame {
    /// One item.
    One(Item),
    /// The parts of a block from a child on, of which so many declarators are past, and the block's end, behind which so many names stay.
    Parts {
        block: u32,
        place: u32,
        at: u32,
        names: usize,
    },
    /// The reductions of a construct from a place in its clauses on, with the variables among the first so many names.
    Combining {
        construct: u32,
        from: ListedPlace,
        names: usize,
    },
    /// The same, with one reduction before those.
    Combines {
        operator: ReductionOp,
        name: u32,
        construct: u32,
        from: ListedPlace,
        names: usize,
    },
    /// Below it stands what the function that called has left. Its names begin there, and the value goes to a target.
    Caller {
        base: usize,
        to: Target,
    },
}

impl Frame {
    /// The item begins that stands next by it. Answers whether the frame stays.
    #[inline(always)]
    pub(crate) fn begin(&mut self) -> bool
        requires { CanBegin (self.old ∷ []) }
        ensures { IsBegunFrame self.old result self.new }
    {
        match self {
            Frame::One(_) => return false,
            Frame::Parts { at, .. } => *at += 1,
            Frame::Combines {
                construct,
                from,
                names,
                ..
            } => {
                *self = Frame::Combining {
                    construct: *construct,
                    from: *from,
                    names: *names,
                };
            }
            Frame::Combining { .. } | Frame::Caller { .. } => {}
        }
        true
    }

    /// The frame when the item has begun that stands next by it. `None` where nothing is left of it.
    #[inline(always)]
    pub(crate) fn begun(mut self) -> Option<Frame>
        requires { CanBegin (self ∷ []) }
        ensures { BeginsAs self result }
    {
        if self.begin() { Some(self) } else { None }
    }
}
