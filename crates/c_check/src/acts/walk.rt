//! The acts of a program, one after another.
//!
//! What is left is a list of tasks, so the walk doesn't call itself, however deep a tree is. A task on a node is replaced by tasks on
//! its children.

ghost use Rattle.std.specs.Prelude.{◌≡◌, ◌<◌, ◌≤◌, ◌+◌, [], ◌∷◌, ◌++◌, List, length, if◌then◌else◌, IfOk, IfSome, OnOk, MatchOption};
ghost use Rattle.c_syntax.specs.language.Tree.{Tree as Spelled, child_of, children_of, kind_of, name_of, spot_of, text_of};
ghost use Rattle.c_syntax.specs.language.Numbered.{root_tree, tree_at};
ghost use Rattle.c_check.specs.Acts as texts;
ghost use Rattle.c_check.specs.Clauses as clauses;
ghost use Rattle.c_check.specs.NameLists as lists;
ghost use Rattle.c_check.specs.Printed as printed;
ghost use Rattle.c_check.specs.Statements as statements;
ghost use Rattle.c_check.specs.Usages as usages;
ghost use Rattle.c_check.specs.Tasks.{AreThere, IsThere, children_left, left_of, told_by};
ghost use Rattle.c_check.specs.Weights.{weight_among, weight_below, weight_if};
ghost use Rattle.c_check.specs.Steps.{Puts, outside_by, part_of, standalone_acts, told_if, weight_by, weight_in};

use crate::acts::act::{Act, DataClause, Single, Thing, Usage};
use crate::acts::child_places::{count, next_place};
use crate::acts::directive::{
    chunk_of, clause_of, critical_name, data_of, has_odd_loop, is_head, role_with, shared_loop_name,
};
use crate::acts::node_acts::{
    as_many, named, number_at, numbers_in, passes_on, place_usage, returned_of, value_of,
};
use crate::acts::role::{Naming, Role};
use c_syntax::{Directive, NodeKind, Returns, Standalone, Tree};
use c_tokens::Spot;
use std::alloc::{AllocError, Global};

/// What is left to be told.
#[derive(Clone, Copy)]
enum Task {
    /// This act.
    Tell(Act),
    /// What a node does.
    Visit(Role, u32),
    /// What the children of a node do, from a place on.
    Each(Role, u32, u32),
    /// What names do, which are the children of a node, from a place on.
    Names(Naming, u32, u32),
    /// What the clauses of a construct compute and mention, from a place on.
    Outside(u32, u32),
    /// What the clauses of a construct say of it, from a place on.
    Inside(u32, u32),
    /// What the statement of a construct does, from a place on.
    Statements(Role, u32, u32),
}

/// A walk through a program.
#[derive(Drop)]
pub struct Walk {
    /// What is left, the next one last.
    tasks: Vec<Task>,
}

impl Walk {
    /// The walk through a program from its beginning. An error means that memory ran out.
    pub fn new(alloc: Global, tree: &Tree) -> Result<Walk, AllocError>
        ensures left { IfOk result (λ walk.
            left_of tree.now.trees walk ≡ texts.acts (Role.Plain) (root_tree tree.now) ++ Act.Finish tree.now.end ∷
            []) }
        ensures there { IfOk result (λ walk. AreThere tree.now.trees walk) }
    {
        let mut tasks = Vec::new(alloc);
        tasks.push(Task::Tell(Act::Finish { spot: tree.end() }))?;
        tasks.push(Task::Visit(Role::Plain, tree.root()))?;
        Ok(Walk { tasks })
    }

    /// The next act, or `None` at the end. The tree is the one that the walk was made for. An error means that memory ran out; acts
    /// may be lost then.
    pub fn next(&mut self, alloc: Global, tree: &Tree) -> Result<Option<Act>, AllocError>
        requires { AreThere tree.now.trees self.old }
        ensures next { IfOk result (λ act. MatchOption act ((left_of tree.now.trees self.old ≡ []) ×
            (left_of tree.now.trees self.new ≡ [])) (λ one.
            left_of tree.now.trees self.old ≡ one ∷ left_of tree.now.trees self.new)) }
        ensures there { OnOk result (AreThere tree.now.trees self.new) }
    {
        while let Some(task) = self.tasks.pop() {
            if let Task::Tell(act) = task {
                return Ok(Some(act));
            }
            self.begin(alloc, tree, task)?;
        }
        Ok(None)
    }

    /// Puts what a task consists of in its place.
    fn begin(&mut self, alloc: Global, tree: &Tree, task: Task) -> Result<(), AllocError>
        requires task { IsThere tree.now.trees task }
        requires there { AreThere tree.now.trees self.old }
        ensures { OnOk result (Puts tree.now.trees (told_by tree.now.trees task)
            (weight_in tree.now.trees task) self.old self.new) }
    {
        match task {
            Task::Tell(act) => self.then(Task::Tell(act)),
            Task::Visit(role, node) => self.visit(alloc, tree, role, node),
            Task::Each(role, node, place) => self.each(tree, role, node, place),
            Task::Names(why, node, place) => self.names(tree, why, node, place),
            Task::Outside(node, place) => self.outside(tree, node, place),
            Task::Inside(node, place) => self.inside(tree, node, place),
            Task::Statements(role, node, place) => self.statements(tree, role, node, place),
        }
    }

    /// A task that comes before all others.
    fn then(&mut self, task: Task) -> Result<(), AllocError>
        ensures { OnOk result ((trees : List Spelled) → IsThere trees task → AreThere trees self.old →
            Puts trees (told_by trees task) (weight_by trees task) self.old self.new) }
    {
        self.tasks.push(task)?;
        Ok(())
    }

    /// What a node does.
    fn visit(&mut self, alloc: Global, tree: &Tree, role: Role, node: u32) -> Result<(), AllocError>
        requires node { node < length tree.now.trees }
        requires there { AreThere tree.now.trees self.old }
        ensures { OnOk result (Puts tree.now.trees (texts.acts role (tree_at tree.now.trees node))
            (weight_below (tree_at tree.now.trees node)) self.old self.new) }
    {
        let (name, spot) = (tree.name(node), tree.spot(node));
        match tree.kind(node) {
            NodeKind::Function(returns) => self.function(tree, returns, node),
            NodeKind::GlobalVar | NodeKind::GlobalSet(_) | NodeKind::LocalVar => {
                self.declare(name, spot, Thing::Int)
            }
            NodeKind::GlobalArray | NodeKind::LocalArray => {
                self.declare(name, spot, Thing::Array(number_at(tree, node)))
            }
            NodeKind::LocalSet => {
                self.declare(name, spot, Thing::Int)?;
                self.then(Task::Each(Role::Used, node, 0))
            }
            NodeKind::Locks => self.then(Task::Names(Naming::Locks, node, 0)),
            NodeKind::Block => self.block(node),
            NodeKind::For => self.parts(tree, role, node),
            NodeKind::Init => self.init(tree, node),
            NodeKind::Return => self.return_(tree, node, spot),
            NodeKind::SetCall => self.target(tree, Role::Used, node),
            NodeKind::Assign(_) | NodeKind::Bump(_, _) => self.target(tree, Role::Plain, node),
            NodeKind::Print => self.print(tree, node, spot),
            NodeKind::LockCall(_) | NodeKind::TestLock => {
                self.then(Task::Names(Naming::Locked, node, 0))
            }
            NodeKind::Place => self.place(tree, role, node),
            NodeKind::Call => self.call(tree, role, node),
            NodeKind::Standalone(standalone) => self.standalone(standalone, spot),
            NodeKind::Construct(directive) => self.construct(alloc, tree, directive, node),
            kind if passes_on(kind) => self.then(Task::Each(Role::Plain, node, 0)),
            _ => Ok(()),
        }
    }

    /// A name is declared.
    fn declare(&mut self, name: u32, spot: Spot, thing: Thing) -> Result<(), AllocError>
        ensures { OnOk result ((trees : List Spelled) → AreThere trees self.old →
            Puts trees (Act.Declare name spot thing ∷ []) 0 self.old self.new) }
    {
        self.then(Task::Tell(Act::Declare { name, spot, thing }))
    }

    /// A directive without a statement.
    fn standalone(&mut self, standalone: Standalone, spot: Spot) -> Result<(), AllocError>
        ensures { OnOk result ((trees : List Spelled) → AreThere trees self.old →
            Puts trees (standalone_acts standalone spot) 0 self.old self.new) }
    {
        match standalone {
            Standalone::Barrier => self.then(Task::Tell(Act::Barrier { spot })),
            Standalone::Taskwait => Ok(()),
        }
    }

    /// A scope, with the children of a node in it.
    fn block(&mut self, node: u32) -> Result<(), AllocError>
        ensures { OnOk result ((trees : List Spelled) → node < length trees → AreThere trees self.old →
            Puts trees (Act.Open ∷ texts.each (Role.Plain) (children_of (tree_at trees node)) ++ Act.Close ∷ [])
            (weight_below (tree_at trees node)) self.old self.new) }
    {
        self.then(Task::Tell(Act::Close))?;
        self.then(Task::Each(Role::Plain, node, 0))?;
        self.then(Task::Tell(Act::Open))
    }

    /// A function: its name, its parameters, and what is in its block.
    fn function(&mut self, tree: &Tree, returns: Returns, node: u32) -> Result<(), AllocError>
        requires node { node < length tree.now.trees }
        requires there { AreThere tree.now.trees self.old }
        ensures { OnOk result (Puts tree.now.trees (texts.function returns (children_of (tree_at tree.now.trees node)))
            (weight_below (tree_at tree.now.trees node)) self.old self.new) }
    {
        let Some(name) = tree.child(node, 0) else {
            return Ok(());
        };
        let Some(params) = tree.child(node, 1) else {
            return Ok(());
        };
        let Some(block) = tree.child(node, 2) else {
            return Ok(());
        };
        let begin = Act::Begin {
            name: tree.name(name),
            spot: tree.spot(name),
            returns,
            parameters: count(tree, params)?,
        };
        self.then(Task::Tell(Act::End))?;
        self.then(Task::Each(Role::Plain, block, 0))?;
        self.then(Task::Names(Naming::Parameters, params, 0))?;
        self.then(Task::Tell(begin))
    }

    /// A `for`, of which each part may be absent.
    fn parts(&mut self, tree: &Tree, role: Role, node: u32) -> Result<(), AllocError>
        requires node { node < length tree.now.trees }
        requires there { AreThere tree.now.trees self.old }
        ensures { OnOk result (Puts tree.now.trees (Act.Open ∷
            texts.first_part (statements.looped role) (children_of (tree_at tree.now.trees node)) ++ Act.Close ∷ [])
            (weight_below (tree_at tree.now.trees node)) self.old self.new) }
    {
        self.then(Task::Tell(Act::Close))?;
        self.then(Task::Each(Role::Plain, node, 3))?;
        self.looped(role)?;
        self.part(tree, node, 2)?;
        self.part(tree, node, 1)?;
        self.part(tree, node, 0)?;
        self.then(Task::Tell(Act::Open))
    }

    /// The body of a loop that a directive shares out begins, if it is that of one.
    fn looped(&mut self, role: Role) -> Result<(), AllocError>
        ensures { OnOk result ((trees : List Spelled) → AreThere trees self.old →
            Puts trees (statements.looped role) 0 self.old self.new) }
    {
        match role {
            Role::Looped(name) => self.then(Task::Tell(Act::Loop { name })),
            _ => Ok(()),
        }
    }

    /// A part of a `for`, if it is there.
    fn part(&mut self, tree: &Tree, node: u32, place: u32) -> Result<(), AllocError>
        requires node { node < length tree.now.trees }
        requires there { AreThere tree.now.trees self.old }
        ensures { OnOk result (Puts tree.now.trees (part_of (child_of (tree_at tree.now.trees node) place))
            (weight_if (child_of (tree_at tree.now.trees node) place)) self.old self.new) }
    {
        match tree.child(node, place) {
            Some(part) => self.then(Task::Visit(Role::Plain, part)),
            None => Ok(()),
        }
    }

    /// A variable that a loop declares.
    fn init(&mut self, tree: &Tree, node: u32) -> Result<(), AllocError>
        requires node { node < length tree.now.trees }
        requires there { AreThere tree.now.trees self.old }
        ensures { OnOk result (Puts tree.now.trees (texts.init (children_of (tree_at tree.now.trees node)))
            (weight_below (tree_at tree.now.trees node)) self.old self.new) }
    {
        let Some(name) = tree.child(node, 0) else {
            return Ok(());
        };
        self.declare(tree.name(name), tree.spot(name), Thing::Int)?;
        self.then(Task::Each(Role::Plain, node, 1))
    }

    /// A `return`, with what it returns.
    fn return_(&mut self, tree: &Tree, node: u32, spot: Spot) -> Result<(), AllocError>
        requires node { node < length tree.now.trees }
        requires there { AreThere tree.now.trees self.old }
        ensures { OnOk result (Puts tree.now.trees
            (texts.each (Role.Used) (children_of (tree_at tree.now.trees node)) ++
            Act.Return spot (usages.returned_of (children_of (tree_at tree.now.trees node))) ∷ [])
            (weight_below (tree_at tree.now.trees node)) self.old self.new) }
    {
        let returned = returned_of(tree, node);
        self.then(Task::Tell(Act::Return { spot, returned }))?;
        self.then(Task::Each(Role::Used, node, 0))
    }

    /// A `printf`, with its arguments.
    fn print(&mut self, tree: &Tree, node: u32, spot: Spot) -> Result<(), AllocError>
        requires node { node < length tree.now.trees }
        requires there { AreThere tree.now.trees self.old }
        ensures { OnOk result (Puts tree.now.trees
            (texts.each (Role.Plain) (children_of (tree_at tree.now.trees node)) ++
            Act.Print spot (printed.as_many (printed.numbers_in (text_of (tree_at tree.now.trees node)))
            (lists.child_count (children_of (tree_at tree.now.trees node)))) ∷ [])
            (weight_below (tree_at tree.now.trees node)) self.old self.new) }
    {
        let printed = as_many(numbers_in(tree.text(node)), count(tree, node)?);
        self.then(Task::Tell(Act::Print { spot, printed }))?;
        self.then(Task::Each(Role::Plain, node, 0))
    }

    /// A place that is assigned, and what it is set to.
    fn target(&mut self, tree: &Tree, role: Role, node: u32) -> Result<(), AllocError>
        requires node { node < length tree.now.trees }
        requires there { AreThere tree.now.trees self.old }
        ensures { OnOk result (Puts tree.now.trees (texts.target role (children_of (tree_at tree.now.trees node)))
            (weight_below (tree_at tree.now.trees node)) self.old self.new) }
    {
        let Some(place) = tree.child(node, 0) else {
            return Ok(());
        };
        self.then(Task::Each(role, node, 1))?;
        self.then(Task::Visit(Role::Target, place))
    }

    /// A variable, with its index.
    fn place(&mut self, tree: &Tree, role: Role, node: u32) -> Result<(), AllocError>
        requires node { node < length tree.now.trees }
        requires there { AreThere tree.now.trees self.old }
        ensures { OnOk result (Puts tree.now.trees (Act.Use (name_of (tree_at tree.now.trees node))
            (spot_of (tree_at tree.now.trees node)) (usages.place_usage (children_of (tree_at tree.now.trees node))) ∷
            usages.assigned role (usages.place_usage (children_of (tree_at tree.now.trees node)))
            (name_of (tree_at tree.now.trees node)) ++
            texts.each (Role.Plain) (children_of (tree_at tree.now.trees node)))
            (weight_below (tree_at tree.now.trees node)) self.old self.new) }
    {
        let (name, spot) = (tree.name(node), tree.spot(node));
        let usage = place_usage(tree, node);
        self.then(Task::Each(Role::Plain, node, 0))?;
        self.assigned(role, usage, name)?;
        self.then(Task::Tell(Act::Use { name, spot, usage }))
    }

    /// A variable is assigned, if it is what an assignment sets.
    fn assigned(&mut self, role: Role, usage: Usage, name: u32) -> Result<(), AllocError>
        ensures { OnOk result ((trees : List Spelled) → AreThere trees self.old →
            Puts trees (usages.assigned role usage name) 0 self.old self.new) }
    {
        match (role, usage) {
            (Role::Target, Usage::Plain) => self.then(Task::Tell(Act::Assign { name })),
            _ => Ok(()),
        }
    }

    /// A call, with its arguments.
    fn call(&mut self, tree: &Tree, role: Role, node: u32) -> Result<(), AllocError>
        requires node { node < length tree.now.trees }
        requires there { AreThere tree.now.trees self.old }
        ensures { OnOk result (Puts tree.now.trees (Act.Use (name_of (tree_at tree.now.trees node))
            (spot_of (tree_at tree.now.trees node))
            (Usage.Called (lists.child_count (children_of (tree_at tree.now.trees node))) (usages.call_value role)) ∷
            texts.each (Role.Plain) (children_of (tree_at tree.now.trees node)))
            (weight_below (tree_at tree.now.trees node)) self.old self.new) }
    {
        let usage = Usage::Called(count(tree, node)?, value_of(role));
        let (name, spot) = (tree.name(node), tree.spot(node));
        self.then(Task::Each(Role::Plain, node, 0))?;
        self.then(Task::Tell(Act::Use { name, spot, usage }))
    }

    /// A construct, with its clauses and its statement.
    fn construct(
        &mut self,
        alloc: Global,
        tree: &Tree,
        directive: Directive,
        node: u32,
    ) -> Result<(), AllocError>
        requires node { node < length tree.now.trees }
        requires there { AreThere tree.now.trees self.old }
        ensures { OnOk result (Puts tree.now.trees (texts.outside_acts (children_of (tree_at tree.now.trees node)) ++
            Act.Enter (spot_of (tree_at tree.now.trees node)) directive
            (statements.name_of_critical (children_of (tree_at tree.now.trees node))) ∷
            clauses.inside_acts (children_of (tree_at tree.now.trees node)) ++
            statements.odd_loop directive (children_of (tree_at tree.now.trees node)) ++
            texts.statements (statements.statement_role directive (children_of (tree_at tree.now.trees node)))
            (children_of (tree_at tree.now.trees node)) ++ Act.Leave ∷ [])
            (weight_below (tree_at tree.now.trees node)) self.old self.new) }
    {
        let name = shared_loop_name(tree, directive, node);
        let odd = has_odd_loop(alloc, tree, directive, node)?;
        self.then(Task::Tell(Act::Leave))?;
        self.then(Task::Statements(role_with(name), node, 0))?;
        self.odd_loop(odd)?;
        self.then(Task::Inside(node, 0))?;
        self.then(Task::Tell(Act::Enter {
            spot: tree.spot(node),
            directive,
            critical: critical_name(tree, node),
        }))?;
        self.then(Task::Outside(node, 0))
    }

    /// The statement of a construct isn't a loop of the form, if it should be and isn't.
    fn odd_loop(&mut self, odd: bool) -> Result<(), AllocError>
        ensures { OnOk result ((trees : List Spelled) → AreThere trees self.old →
            Puts trees (if odd then Act.OddLoop ∷ [] else []) 0 self.old self.new) }
    {
        if odd {
            self.then(Task::Tell(Act::OddLoop))
        } else {
            Ok(())
        }
    }

    /// The children of a node, from a place on.
    fn each(&mut self, tree: &Tree, role: Role, node: u32, place: u32) -> Result<(), AllocError>
        requires node { node < length tree.now.trees }
        requires there { AreThere tree.now.trees self.old }
        ensures { OnOk result (Puts tree.now.trees (texts.each role (children_left tree.now.trees node place))
            (weight_among (children_left tree.now.trees node place)) self.old self.new) }
    {
        let Some(child) = tree.child(node, place) else {
            return Ok(());
        };
        self.then(Task::Each(role, node, next_place(place)?))?;
        self.then(Task::Visit(role, child))
    }

    /// The names of a list, from a place on.
    fn names(&mut self, tree: &Tree, why: Naming, node: u32, place: u32) -> Result<(), AllocError>
        requires node { node < length tree.now.trees }
        requires there { AreThere tree.now.trees self.old }
        ensures { OnOk result (Puts tree.now.trees (lists.names why (children_left tree.now.trees node place))
            (weight_among (children_left tree.now.trees node place)) self.old self.new) }
    {
        let Some(child) = tree.child(node, place) else {
            return Ok(());
        };
        self.then(Task::Names(why, node, next_place(place)?))?;
        self.then(Task::Tell(named(tree, why, child)))
    }

    /// What the clauses of a construct compute and mention, from a place on.
    fn outside(&mut self, tree: &Tree, node: u32, place: u32) -> Result<(), AllocError>
        requires node { node < length tree.now.trees }
        requires there { AreThere tree.now.trees self.old }
        ensures { OnOk result (Puts tree.now.trees (texts.outside_acts (children_left tree.now.trees node place))
            (weight_among (children_left tree.now.trees node place)) self.old self.new) }
    {
        let Some(child) = tree.child(node, place) else {
            return Ok(());
        };
        self.then(Task::Outside(node, next_place(place)?))?;
        let Some(clause) = clause_of(tree, child) else {
            return Ok(());
        };
        match outside_of(tree, clause) {
            Some(task) => self.then(task),
            None => Ok(()),
        }
    }

    /// What the clauses of a construct say of it, from a place on.
    fn inside(&mut self, tree: &Tree, node: u32, place: u32) -> Result<(), AllocError>
        requires node { node < length tree.now.trees }
        requires there { AreThere tree.now.trees self.old }
        ensures { OnOk result (Puts tree.now.trees (clauses.inside_acts (children_left tree.now.trees node place))
            (weight_among (children_left tree.now.trees node place)) self.old self.new) }
    {
        let Some(child) = tree.child(node, place) else {
            return Ok(());
        };
        self.then(Task::Inside(node, next_place(place)?))?;
        let Some(clause) = clause_of(tree, child) else {
            return Ok(());
        };
        match inside_of(tree, clause) {
            Some(task) => self.then(task),
            None => Ok(()),
        }
    }

    /// What the statement of a construct does, from a place on.
    fn statements(
        &mut self,
        tree: &Tree,
        role: Role,
        node: u32,
        place: u32,
    ) -> Result<(), AllocError>
        requires node { node < length tree.now.trees }
        requires there { AreThere tree.now.trees self.old }
        ensures { OnOk result (Puts tree.now.trees (texts.statements role (children_left tree.now.trees node place))
            (weight_among (children_left tree.now.trees node place)) self.old self.new) }
    {
        let Some(child) = tree.child(node, place) else {
            return Ok(());
        };
        self.then(Task::Statements(role, node, next_place(place)?))?;
        if is_head(tree.kind(child)) {
            return Ok(());
        }
        self.then(Task::Visit(role, child))
    }
}

/// What a clause computes and mentions.
#[tactic(auto, unfolding(crate::specs::Tasks::from_place))]
fn outside_of(tree: &Tree, clause: u32) -> Option<Task>
    requires { clause < length tree.now.trees }
    ensures told { told_if tree.now.trees result ≡ outside_by (kind_of (tree_at tree.now.trees clause))
        (children_of (tree_at tree.now.trees clause)) }
    ensures task { IfSome result (λ task. IsThere tree.now.trees task ×
        weight_by tree.now.trees task ≤ weight_among (children_of (tree_at tree.now.trees clause)) + 1) }
{
    match tree.kind(clause) {
        NodeKind::NumThreads | NodeKind::IfClause => Some(Task::Each(Role::Plain, clause, 0)),
        NodeKind::Data(which) => Some(Task::Names(Naming::Mentioned(data_of(which)), clause, 0)),
        NodeKind::Reduction(_) => {
            Some(Task::Names(Naming::Mentioned(DataClause::Reduced), clause, 0))
        }
        _ => None,
    }
}

/// What a clause says of the construct.
#[tactic(auto, unfolding(crate::specs::Tasks::from_place))]
fn inside_of(tree: &Tree, clause: u32) -> Option<Task>
    requires { clause < length tree.now.trees }
    ensures told { told_if tree.now.trees result ≡ clauses.clause_inside (kind_of (tree_at tree.now.trees clause))
        (children_of (tree_at tree.now.trees clause)) }
    ensures task { IfSome result (λ task. IsThere tree.now.trees task ×
        weight_by tree.now.trees task ≤ weight_among (children_of (tree_at tree.now.trees clause)) + 1) }
{
    let single = match tree.kind(clause) {
        NodeKind::NumThreads => Single::NumThreads,
        NodeKind::Default(word) => Single::Default(word),
        NodeKind::Schedule(_) => Single::Schedule(chunk_of(tree, clause)),
        NodeKind::Nowait => Single::Nowait,
        NodeKind::IfClause => Single::If,
        NodeKind::Data(which) => {
            return Some(Task::Names(Naming::Listed(data_of(which)), clause, 0));
        }
        NodeKind::Reduction(_) => {
            return Some(Task::Names(Naming::Listed(DataClause::Reduced), clause, 0));
        }
        _ => return None,
    };
    Some(Task::Tell(Act::Clause(single)))
}
