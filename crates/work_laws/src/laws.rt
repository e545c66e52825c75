//! What follows from the definitions alone: each law is the contract of a function with an empty body.

ghost use Rattle.std.specs.Prelude.{ℕ, ℤ, ◌≡◌, ◌≤◌, nat_lt, if◌then◌else◌, List, length, Some, None};
ghost use Rattle.c_syntax.specs.language.Numbered.{TreeView, root_tree};
ghost use Rattle.c_syntax.specs.language.Texts.{Spells};
ghost use Rattle.c_syntax.specs.language.Tree.{Tree as Part};
ghost use Rattle.c_check.specs.Checked.{Checked};
ghost use Rattle.c_model.specs.declared.point.Point.TheVariants.{WorkBegin};
ghost use Rattle.c_model.specs.declared.point.Schedule.{Schedule as Written};
ghost use Rattle.c_model.specs.declared.point.Work.TheVariants.{Loop as LoopWork};
ghost use Rattle.c_model.specs.declared.question.Answer.TheVariants as answer;
ghost use Rattle.c_model.specs.declared.question.Ask.TheVariants as ask;
ghost use Rattle.c_model.specs.Asked.{sections_asked};
ghost use Rattle.c_model.specs.Formed.{IsProgramFormed};
ghost use Rattle.c_model.specs.Step.{silent};
ghost use Rattle.c_model.specs.Task.Outcome.{Asks, Occurs};
ghost use Rattle.team_parts.specs.declared.meeting.Meeting.TheVariants.{Loop, Sections};
ghost use Rattle.team_parts.specs.declared.meeting.Schedule.{Schedule};
ghost use Rattle.team_parts.specs.Dealing.{one_if, times_dealt};
ghost use Rattle.team_parts.specs.Team.{last_number};
ghost use Rattle.omp_model.specs.declared.event.Arrival.TheVariants.{Steps};
ghost use Rattle.omp_model.specs.declared.history.Entry.{Entry};
ghost use Rattle.omp_model.specs.Gates.{arrival};
ghost use Rattle.omp_model.specs.EventEffects.{dealt_by, told};
ghost use Rattle.omp_model.specs.Legal.{Legal, after};
ghost use Rattle.omp_model.specs.Members.{current_index, current_region, current_team, moment_of, view_of};
ghost use Rattle.omp_model.specs.Silent.{answer_to, items_asking};
ghost use Rattle.omp_model.specs.State.{Run, region_at};
ghost use Rattle.omp_model.specs.Turn.{walk};
ghost use Rattle.work_laws.specs.Sections.{HaveOwnPlaces, IsConstructOf, section_places, sections_met};
ghost use Rattle.work_laws.specs.Sizes.{as_written};
ghost use Rattle.work_laws.specs.Told.{HaveEnded, meeting_of, told_of};

/// This is of a meeting of a region's team, after a legal history, at which each member has ended its work. Where it is a loop,
/// each iteration is in exactly one of the chunks that were told, and no chunk has anything else. Where it is sections, as many
/// were told as the construct has. Meetings are counted from 0. The run has 1 to 16 threads. Its program breaks no rule and has the
/// form of a tree of a text.
pub fn each_iteration_once_in_a_run()
    ensures iterations { (run : Run) (history : List Entry) (r n at count iteration : ℕ) (start step : ℤ)
        (how : Schedule) →
        1 ≤ run.threads → run.threads ≤ 16 → Checked run.program → IsProgramFormed run.program → Legal run history →
        let team = (region_at (after run history).world r).team in
        let told = told_of run history r n in
        meeting_of team n ≡ Loop at start count step how → HaveEnded team told →
        times_dealt told.chunks iteration ≡ one_if (nat_lt iteration count) }
    ensures sections { (run : Run) (history : List Entry) (r n at count : ℕ) → 1 ≤ run.threads → run.threads ≤ 16 →
        Checked run.program → IsProgramFormed run.program → Legal run history →
        let team = (region_at (after run history).world r).team in
        let told = told_of run history r n in
        meeting_of team n ≡ Sections at count → HaveEnded team told → length told.sections ≡ count }
{}

/// This is of a meeting of a region's team at a sections construct, after a legal history, at which each member has ended its work.
/// The sections that were told are those of the construct, each once, in the order of the text. The run has 1 to 16 threads. Its
/// program breaks no rule, has the form of a tree of a text, and has no two constructs at one place.
pub fn each_section_once_in_a_run()
    ensures { (run : Run) (history : List Entry) (r n : ℕ) (construct : Part) → 1 ≤ run.threads → run.threads ≤ 16 →
        Checked run.program →
        IsProgramFormed run.program → Legal run history → HaveOwnPlaces run.program →
        IsConstructOf run.program construct →
        let team = (region_at (after run history).world r).team in
        let told = told_of run history r n in
        meeting_of team n ≡ sections_met construct → HaveEnded team told → told.sections ≡ section_places construct }
{}

/// In a program whose text has at most 65,536 bytes no two constructs have one place.
pub fn each_construct_has_its_own_place()
    ensures { (text : List ℕ) (program : TreeView) → length text ≤ 65536 → Spells text (root_tree program) →
        HaveOwnPlaces program }
{}

/// The next silent step of a thread asks for a section, after a legal history and any number of silent steps that the thread
/// makes then. It is answered the section whose number is how many were told before of its member's last meeting. Where as many
/// were told as the construct has, it is answered that none is left. The run has 1 to 16 threads. Its program breaks no rule and has
/// the form of a tree of a text.
pub fn sections_are_told_in_order()
    ensures { (run : Run) (history : List Entry) (t steps : ℕ) (construct : Part) → 1 ≤ run.threads → run.threads ≤ 16 →
        Checked run.program → IsProgramFormed run.program → Legal run history →
        let W = (walk run steps 0 (after run history) t).state.world in
        arrival W t ≡ Steps → silent run.program (view_of W t) (moment_of W t) ≡ Asks ask.Section construct →
        let newest = last_number (current_team W t) (current_index W t) in
        let before = length (told_of run history (current_region W t) newest).sections in
        answer_to W t ask.Section
        ≡ answer.Section (if nat_lt before (sections_asked (items_asking W t)) then Some before else None) }
{}

/// Where a thread comes to the begin of a loop, after any entries and any number of its silent steps, the team deals iterations
/// by the schedule as it is written. So a size of a dynamic or guided one is at least 1, and none is raised. The program breaks no rule
/// and has the form of a tree of a text.
pub fn chunks_have_a_size()
    ensures { (run : Run) (history : List Entry) (t steps codeptr count : ℕ) (start step : ℤ) (how : Written)
        (construct : Part) → Checked run.program → IsProgramFormed run.program →
        let W = (walk run steps 0 (after run history) t).state.world in
        silent run.program (view_of W t) (told W t) ≡
        Occurs (WorkBegin codeptr (LoopWork start count step how)) construct →
        dealt_by how ≡ as_written how }
{}
