//! Each law is the contract of a function without a body: it is proved where that contract is.
ghost use Rattle.job_laws.specs.Laws.{DropRunsApart, LowestIsReached, NoCauseNoEntry, RuleIsFree, RuleIsWithin, RulePasses, RunsAreClear};

/// The level rule gives no level below the lowest.
pub fn rule_is_within()
    ensures { RuleIsWithin }
{}

/// No level from 0 to that of the rule stops the walk.
pub fn rule_passes()
    ensures { RulePasses }
{}

/// No run at a level of the rule above 0 meets the file.
pub fn rule_is_free()
    ensures { RuleIsFree }
{}

/// Without a cause no level has an entry in the range.
pub fn no_cause_no_entry()
    ensures { NoCauseNoEntry }
{}

/// Without a cause a lowest level that is free is the rule's.
pub fn lowest_is_reached()
    ensures { LowestIsReached }
{}

/// No lower range meets a range in which a compaction may drop tombstones.
pub fn runs_are_clear()
    ensures { RunsAreClear }
{}

/// The ranges in which a compaction may drop tombstones stand by key.
pub fn drop_runs_apart()
    ensures { DropRunsApart }
{}
