//! What follows from the definitions alone: each law is the contract of a function with an empty body.

ghost use Rattle.std.specs.Prelude.{◌≡◌, ℕ, ℤ, nat_lt, List, IsTrue};
ghost use Rattle.team_parts.specs.declared.meeting.Schedule.{Schedule};
ghost use Rattle.team_parts.specs.declared.meeting.Meeting.{Meeting};
ghost use Rattle.team_parts.specs.declared.meeting.Meeting.TheVariants.{Loop};
ghost use Rattle.team_parts.specs.Meetings.{is_same};
ghost use Rattle.team_parts.specs.Dealing.{IsDealtOut, chunks_dealt, times_dealt, one_if};

/// Whichever members ask for the chunks of a loop in whichever order, until nothing is left for any of them: each
/// iteration is in one chunk, and no chunk has anything else.
pub fn each_iteration_once()
    ensures { (at : ℕ) (start : ℤ) (count : ℕ) (step : ℤ) (schedule : Schedule) (size : ℕ) (order : List ℕ) →
        let loop_met = Loop at start count step schedule in
        IsDealtOut loop_met size order → (iteration : ℕ) →
        times_dealt (chunks_dealt loop_met size order) iteration ≡ one_if (nat_lt iteration count) }
{}

/// Meetings are the same where all of them is the same.
pub fn same_is_equal()
    ensures equal { (first second : Meeting) → IsTrue (is_same first second) → first ≡ second }
    ensures same { (meeting : Meeting) → IsTrue (is_same meeting meeting) }
{}
