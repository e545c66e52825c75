//! How a task's code goes on behind an event.

ghost use Rattle.std.specs.Prelude.{◌≡◌, ◌<◌, ◌++◌, [], ◌∷◌, length, IfSome};
ghost use Rattle.c_syntax.specs.language.Numbered.{TreeView, tree_at};
ghost use Rattle.c_model.specs.Clauses.{construct_statement};
ghost use Rattle.c_model.specs.Copies.{makes_cells};
ghost use Rattle.c_model.specs.AfterEvents as after_events;
ghost use Rattle.c_model.specs.Task.Item.{EndMasked, Start};
ghost use Rattle.c_steps.specs.declared.item.Item.TheVariants as item;
ghost use Rattle.c_steps.specs.ControlView.{env_at, task_at};
ghost use Rattle.c_steps.specs.Items.{item_at, items_if, loop_at, with_file};
ghost use Rattle.c_steps.specs.OfProgram.{IsMadeFor};
ghost use Rattle.c_steps.specs.Moves.{asking};
ghost use Rattle.c_steps.specs.NodeTrees.{tree_of};
ghost use Rattle.c_steps.specs.Passing.{IsAfterEvent, IsEventOf, IsEventOfNext, IsPassed, names_behind_asking, names_behind_work, replaced, stages_at};
ghost use Rattle.c_steps.specs.Forms.{IsPassedBy};
ghost use Rattle.c_steps.specs.Rooming.{IsEntry};
ghost use Rattle.c_steps.specs.Ready.{AreFrames, AreLoopNumbers, AreWorkNumbers, IsItem, IsLoop, IsPassing};

use crate::clauses::{has_nowait, statement};
use crate::code::Code;
use crate::control::Control;
use crate::control::giving::MEMBER_0;
use crate::item::{Item, Loop};
use crate::listed::has_own_cells;
use crate::loops::loop_nodes;
use crate::node::Node;
use c_model::{Entry, MutexKind, Point, SyncKind, SyncStage, Target, Work, WorkKind};

impl Control {
    /// Goes past the event that the last advance answered, at this node, when what comes of it takes hold. `executes` counts at the begin
    /// of a `single` alone, and says whether the task executes it. It takes no memory.
    #[tactic(auto, using(crate::proofs::Passing::event_none, crate::proofs::Passing::event_found))]
    pub fn passed(&mut self, code: &Code, point: Point, node: u32, executes: bool)
        requires made { IsMadeFor code.now self.old }
        requires event { IsEventOfNext code.now point node (task_at code.now self.old).todo }
        requires passes { 0 < self.old.passes }
        ensures went { task_at code.now self.new ≡
            after_events.settled_after_event point executes (task_at code.now self.old) }
        ensures after { IsAfterEvent self.old self.new }
        ensures made { IsMadeFor code.now self.new }
    {
        let Some(item) = self.settle(code, MEMBER_0) else {
            return;
        };
        self.go_past(code, item, point, node, executes);
    }

    /// Goes past an event of this item.
    fn go_past(&mut self, code: &Code, item: Item, point: Point, node: u32, executes: bool)
        requires ready { IsPassing code.now self.old }
        requires item { IsItem code.now item }
        requires event { IsEventOf code.now point node (item_at code.now item) }
        ensures { IsPassed code.now self.old self.new
            (after_events.items_after point executes (length (env_at code.now self.old)) (item_at code.now item))
            (after_events.names_after point (item_at code.now item) (env_at code.now self.old)) }
    {
        let at = Node { code, number: node };
        match point {
            Point::ParallelBegin { .. } => self.put_instead(code, Some(Item::Forked(node))),
            Point::WorkBegin { work, .. } => self.begin_work(at, work, executes),
            Point::WorkEnd { .. } => self.end_own_names(item, at),
            Point::MaskedBegin { .. } => self.begin_masked(at),
            Point::Sync { kind, stage, .. } => {
                self.put_instead(code, next_stage(node, kind, stage))
            }
            Point::MutexAcquire {
                wait_id,
                kind,
                to,
                ..
            } => self.ask_for(item, at, wait_id, kind, to),
            Point::ParallelEnd { .. }
            | Point::TaskCreate { .. }
            | Point::MaskedEnd { .. }
            | Point::MutexAcquired { .. }
            | Point::MutexReleased { .. }
            | Point::LockInit { .. }
            | Point::LockDestroy { .. } => self.put_instead(code, None),
        }
    }

    /// At most one item stands in place of the event.
    #[inline(always)]
    #[tactic(auto, using(crate::proofs::Passing::pass_then_if))]
    fn put_instead(&mut self, code: &Code, item: Option<Item>)
        requires ready { IsPassing code.now self.old }
        requires item { IfSome item (IsItem code.now) }
        ensures { IsPassed code.now self.old self.new (items_if code.now item) (env_at code.now self.old) }
    {
        self.pass();
        self.then_if(item);
    }

    /// The statement of a `masked` construct stands next, and then its end.
    #[tactic(auto, using(crate::proofs::Passing::pass_then_two))]
    fn begin_masked(&mut self, node: Node)
        requires { IsPassing node.code.now self.old }
        ensures { IsPassedBy (λ construct. Start (construct_statement construct) ∷ EndMasked construct ∷ [])
            node.entry self.old self.new }
    {
        let part = statement(node);
        self.pass();
        self.then(Item::EndMasked(node.number));
        self.then(Item::Start(part));
    }

    /// The stages of a worksharing construct behind its begin.
    #[tactic(auto, using(crate::proofs::Passing::pass_work, crate::proofs::Frames::all_names))]
    fn begin_work(&mut self, node: Node, work: Work, executes: bool)
        requires ready { IsPassing node.code.now self.old }
        requires work { AreWorkNumbers work }
        ensures { let count = length (env_at node.entry.code.now self.old) in
            IsPassedBy (λ construct. makes_cells construct ++ after_events.work_items work construct count executes)
            node.entry self.old self.new }
    {
        let (first, last) = work_stages(node, self.own_names(), work, executes);
        let cells = own_cells(node);
        self.pass();
        self.then(last);
        self.then_if(first);
        self.then_if(cells);
    }

    /// The names of a worksharing construct end with its work, and its barrier stands next unless it has none.
    #[tactic(auto, using(crate::proofs::Passing::pass_cut, crate::proofs::Passing::pass_then_if))]
    fn end_own_names(&mut self, item: Item, node: Node)
        requires { IsPassing node.code.now self.old }
        ensures { let program = node.entry.code.now in
            IsPassed program self.old self.new (after_events.barrier_items (tree_of node.entry))
            (names_behind_work program item (env_at program self.old)) }
    {
        let barrier = barrier_of(node);
        self.pass();
        match item {
            Item::EndWork { names, .. } => {
                self.cut(names);
                self.then_if(barrier);
            }
            _ => self.then_if(barrier),
        }
    }

    /// A lock or critical is asked for. The variable of a declarator that tests a lock comes into scope.
    fn ask_for(&mut self, item: Item, node: Node, id: u32, kind: MutexKind, to: Target)
        requires ready { IsPassing node.code.now self.old }
        requires item { IsItem node.code.now item }
        ensures { let program = node.entry.code.now in
            IsPassed program self.old self.new (after_events.mutex_items kind (tree_of node.entry) id to)
            (names_behind_asking item (env_at program self.old)) }
    {
        match item {
            Item::Initialise { entry, .. } => self.ask_with(entry, node, id, kind, to),
            _ => self.ask_alone(node, id, kind, to),
        }
    }

    /// A lock or critical is asked for.
    #[tactic(auto, using(crate::proofs::Passing::pass_asks))]
    fn ask_alone(&mut self, node: Node, id: u32, kind: MutexKind, to: Target)
        requires { IsPassing node.code.now self.old }
        ensures task { task_at node.entry.code.now self.new ≡
            replaced node.entry.code.now (after_events.mutex_items kind (tree_of node.entry) id to) self.old }
        ensures after { IsAfterEvent self.old self.new }
        ensures frames { AreFrames node.entry.code.now self.new.frames }
    {
        let part = statement(node);
        self.pass();
        self.ask(kind, node.number, part, id, to);
    }

    /// A lock is asked for, and a name more is in scope.
    #[tactic(auto, using(crate::proofs::Passing::pass_asks_with))]
    fn ask_with(&mut self, entry: Entry, node: Node, id: u32, kind: MutexKind, to: Target)
        requires ready { IsPassing node.code.now self.old }
        requires entry { IsEntry entry }
        ensures task { task_at node.entry.code.now self.new ≡
            record (replaced node.entry.code.now (after_events.mutex_items kind (tree_of node.entry) id to) self.old)
            { env = env_at node.entry.code.now self.old ++ entry ∷ [] } }
        ensures after { IsAfterEvent self.old self.new }
        ensures frames { AreFrames node.entry.code.now self.new.frames }
    {
        let part = statement(node);
        self.pass();
        self.bind(entry);
        self.ask(kind, node.number, part, id, to);
    }

    /// A lock or critical is asked for, and this part of the program stands next behind it, where it is a critical.
    fn ask(&mut self, kind: MutexKind, node: u32, part: Option<u32>, id: u32, to: Target)
        requires { 2 < self.old.frames_now }
        ensures { self.new ≡ asking kind node part id to self.old }
    {
        match kind {
            MutexKind::Lock => self.then(Item::Acquire { node, kind, id }),
            MutexKind::TestLock => self.then(Item::TestLock { node, id, to }),
            MutexKind::Critical => {
                self.then(Item::Release { node, id });
                self.then(Item::Start(part));
                self.then(Item::Acquire { node, kind, id });
            }
        }
    }
}

/// The event of a barrier or taskwait behind another one, if there is one.
fn next_stage(node: u32, kind: SyncKind, stage: SyncStage) -> Option<Item>
    ensures stage { (program : TreeView) →
        items_if program result ≡ after_events.next_stage (tree_at program.trees node) kind stage }
    ensures item { (program : TreeView) → node < length program.trees → IfSome result (IsItem program) }
{
    let stage = match stage {
        SyncStage::RegionBegin => SyncStage::WaitBegin,
        SyncStage::WaitBegin => SyncStage::WaitEnd,
        SyncStage::WaitEnd => SyncStage::RegionEnd,
        SyncStage::RegionEnd => return None,
    };
    Some(Item::Sync { node, kind, stage })
}

/// The barrier behind a worksharing construct, if it has one.
fn barrier_of(node: Node) -> Option<Item>
    ensures barrier { items_if node.entry.code.now result ≡ after_events.barrier_items (tree_of node.entry) }
    ensures item { IfSome result (IsItem node.entry.code.now) }
{
    if has_nowait(node) {
        None
    } else {
        Some(Item::Sync {
            node: node.number,
            kind: SyncKind::Worksharing,
            stage: SyncStage::RegionBegin,
        })
    }
}

/// The making of a construct's own cells, if it has any.
pub(super) fn own_cells(node: Node) -> Option<Item>
    ensures cells { items_if node.entry.code.now result ≡ makes_cells (tree_of node.entry) }
    ensures item { IfSome result (IsItem node.entry.code.now) }
{
    if has_own_cells(node) {
        Some(Item::MakeCells(node.number))
    } else {
        None
    }
}

/// The stages of a worksharing construct behind its begin: the statement of a `single` that the task executes, and then what is asked for
/// first, or the end of its work.
fn work_stages(node: Node, names: usize, work: Work, executes: bool) -> (Option<Item>, Item)
    requires { AreWorkNumbers work }
    ensures stages { stages_at node.entry.code.now result ≡
        after_events.work_items work (tree_of node.entry) (with_file node.entry.code.now names) executes }
    ensures first { IfSome result.0 (IsItem node.entry.code.now) }
    ensures last { IsItem node.entry.code.now result.1 }
{
    match work {
        Work::Loop {
            start,
            count,
            step,
            ..
        } => {
            let shared = shared(node, start, step, count, names);
            (None, Item::NextChunk(shared))
        }
        Work::Sections(_) => {
            let node = node.number;
            (None, Item::NextSection { node, names })
        }
        Work::Single => single_stages(node, names, executes),
    }
}

/// The stages of a `single`: its statement, where the task executes it, and the end of its work.
fn single_stages(node: Node, names: usize, executes: bool) -> (Option<Item>, Item)
    ensures stages { stages_at node.entry.code.now result ≡
        after_events.single_items (tree_of node.entry) (with_file node.entry.code.now names) executes }
    ensures first { IfSome result.0 (IsItem node.entry.code.now) }
    ensures last { IsItem node.entry.code.now result.1 }
{
    let number = node.number;
    if executes {
        let part = statement(node);
        (
            Some(Item::Start(part)),
            end_of_single(number, WorkKind::SingleExecutor, names),
        )
    } else {
        (None, end_of_single(number, WorkKind::SingleOther, names))
    }
}

/// The end of the work of a `single`, which has one statement.
fn end_of_single(node: u32, kind: WorkKind, names: usize) -> Item
    ensures { result ≡ item.EndWork node kind 1 names }
{
    Item::EndWork {
        node,
        kind,
        count: 1,
        names,
    }
}

/// What is kept of the loop that a construct shares out.
fn shared(construct: Node, start: i64, step: i64, count: u64, names: usize) -> Loop
    requires { AreLoopNumbers start count step }
    ensures shared { loop_at construct.entry.code.now result ≡ record {
      construct = tree_of construct.entry;
      start = start;
      step = step;
      count = count;
      names = with_file construct.entry.code.now names;
    } }
    ensures is_loop { IsLoop construct.entry.code.now result }
{
    let parts = loop_nodes(construct);
    Loop {
        construct: construct.number,
        variable: construct.code.name(parts.variable),
        body: parts.body,
        start,
        step,
        count,
        names,
    }
}
