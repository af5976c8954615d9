//! Each law is the contract of a function without a body: it is proved where that contract is.
ghost use Rattle.core_model.specs.Run.{StepRefines, EveryRunRefines};
ghost use Rattle.core_laws.specs.Laws.{CompactionCanBeInstalled, DraftIsRefused, EventDoesSomething, FlushCanBeInstalled, FlushOutputCanBeInstalled, LevelsStandByKey, NewCoreRepresents, OutputsCanBeInstalled, PickedIsWellPicked, PickingSeesRanges, RequestIsDrafted, RowsAreSorted, SortedAreRows, SureIsOfPart};
ghost use Rattle.core_laws.specs.Claims.{PickedRuns, CompactionExists, CompactionIsOne};
ghost use Rattle.core_laws.specs.Underway.{FileKeepsUnderway, CommitStands};
ghost use Rattle.core_model.specs.Bounded.{CrashEndsBounded, NewCoreIsBounded, StepKeepsBounds, StepKeepsCapacity};
ghost use Rattle.core_model.specs.StatePicture.{CoreRepresentsState, StateHasContents, StateIsOpened};

/// Each event is a step of the list model: its reply is the model's, and the core after it stands for the model's
/// next state.
pub fn step_refines()
    ensures { StepRefines }
{}

/// So is every list of events, from a new core on.
pub fn every_run_refines()
    ensures { EveryRunRefines }
{}

/// A new core stands for a new store.
pub fn new_core_represents()
    ensures { NewCoreRepresents }
{}

/// An event that holds has a reply and a core after it.
pub fn event_does_something()
    ensures { EventDoesSomething }
{}

/// The compaction of a noted job, cut at any target, under fresh file numbers can be installed; each noted compaction
/// has such outputs.
pub fn compaction_can_be_installed()
    ensures own { OutputsCanBeInstalled }
    ensures some { CompactionCanBeInstalled }
{}

/// The compaction of a noted flush, as one table under a fresh file number can be installed; each noted flush has such
/// an output.
pub fn flush_can_be_installed()
    ensures own { FlushOutputCanBeInstalled }
    ensures some { FlushCanBeInstalled }
{}

/// What is picked of a family's tables is what is picked of the file, the range and the charge that each has.
pub fn picking_sees_ranges()
    ensures { PickingSeesRanges }
{}

/// What is picked is in place, near, clear and free.
pub fn picked_is_well_picked()
    ensures { PickedIsWellPicked }
{}

/// What is picked runs beside the jobs that run, and keeps reads.
pub fn picked_runs()
    ensures { PickedRuns }
{}

/// Columns that don't rise have a compaction.
pub fn compaction_exists()
    ensures { CompactionExists }
{}

/// Inputs have at most one compaction.
pub fn compaction_is_one()
    ensures { CompactionIsOne }
{}

/// A request under way stays so with each file that is placed.
pub fn file_keeps_underway()
    ensures { FileKeepsUnderway }
{}

/// A commit that nothing refuses leaves a core that stands for the model with the request.
pub fn commit_stands()
    ensures { CommitStands }
{}

/// What a core stands for, its state stands for at the core's place: what is published of the core answers reads as
/// the model does. Its contents are those of each state that it stands for, and with its keys they tell the state after
/// a stop and an opening.
pub fn represents_state()
    ensures reads { CoreRepresentsState }
    ensures contents { StateHasContents }
    ensures opened { StateIsOpened }
{}

/// The rows of a memtable or a table are a sorted run, as representation asks; a sorted run whose numbers have 64
/// bits is rows.
pub fn rows_are_sorted_runs()
    ensures sorted { RowsAreSorted }
    ensures rows { SortedAreRows }
{}

/// Numbers, ids, snapshots and memtables stay within their limits with each event; a new core's are, and so are those of
/// a core after a crash. The capacity stays.
pub fn step_keeps_bounds()
    ensures step { StepKeepsBounds }
    ensures base { NewCoreIsBounded }
    ensures crash { CrashEndsBounded }
    ensures capacity { StepKeepsCapacity }
{}

/// A request drafted file by file, the core only read, is its plan; its first refusal is that of six tests in a row,
/// and the cause that is sure of an argument doesn't depend on its place.
pub fn request_is_drafted()
    ensures plan { RequestIsDrafted }
    ensures refused { DraftIsRefused }
    ensures sure { SureIsOfPart }
{}

/// The tables of each level from 1 on, as runs, stand by key, as a search by halves over them asks.
pub fn levels_stand_by_key()
    ensures { LevelsStandByKey }
{}
