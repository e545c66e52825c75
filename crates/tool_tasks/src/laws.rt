//! What follows from the definitions alone: a law is the contract of a function with an empty body.

ghost use Rattle.std.specs.Prelude.{◌≡◌, List};
ghost use Rattle.ompt_calls.specs.declared.event.EventRecord.{EventRecord};
ghost use Rattle.tool_tasks.specs.Keys.{leads_by_keys};
ghost use Rattle.tool_tasks.specs.Leads.{leads};

/// One event leads to a later one, by the eight cases, exactly where it gives a key that the later one takes.
pub fn leads_by_keys()
    ensures { (before past : List EventRecord) (event later : EventRecord) →
        leads before event past later ≡ leads_by_keys before event past later }
{}
