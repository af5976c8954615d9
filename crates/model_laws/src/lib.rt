//! Laws of the list model: they say that its definitions mean what they are to mean. The top call's proof uses one, that a
//! legal run grows by a right answer.
//!
//! Each law is the contract of a function without a body. The worked rows stand in `proofs/`, as transcripts: each is legal,
//! and isn't with one place, number, level, value or refusal changed.
#![tactic(auto)]

ghost use Rattle.model_laws.specs.Claims.{AcceptsIngestion, AcceptsWrite, AnswersAtPlaces, AnswersInTurn, AsksRightly};
ghost use Rattle.model_laws.specs.Claims.{BeginsLegally, CausesGrow, FollowsHistory, GrowsLegally, KeepsKnown};
ghost use Rattle.model_laws.specs.Claims.{NeedsNoSequence, NewIsSound, OpensKnown, ReadsAfterWrite, RefusesForFaults, StandsGrow};

/// A read after one more write gives what was written to its key, and at any other key what was read before.
pub fn a_write_is_read()
    ensures { ReadsAfterWrite }
{}

/// A write of families that are there, with numbers, a place and room left, is accepted.
pub fn a_write_is_accepted()
    ensures { AcceptsWrite }
{}

/// A request of the right shape with default options, over families that are there and tables with entries, with
/// numbers, a place and room left, is accepted: some levels and numbers are allowed for its files, and no refusal is
/// but for a fault of the inputs or of the disk.
pub fn an_ingestion_is_accepted()
    ensures some { AcceptsIngestion }
    ensures only { RefusesForFaults }
{}

/// A file isn't refused as one that needs a number where no files of its argument meet, no live snapshot is to be kept
/// from it, and either no known key is at most its last key or none is at least its first.
pub fn a_free_file_needs_no_number()
    ensures { NeedsNoSequence }
{}

/// A new store has what a state keeps by itself.
pub fn a_new_store_is_sound()
    ensures { NewIsSound }
{}

/// Each key that has a write or a mark is known: in a new store, after every change, and in an opened store where the
/// keys that it is told to be known hold those of its marks. So a request of the second law's kind is accepted in all of
/// these.
pub fn keys_stay_known()
    ensures kept { KeepsKnown }
    ensures opened { OpensKnown }
{}

/// The calls that are made of a client's commands and answers ask rightly, where files are seen rightly.
pub fn commands_ask_rightly()
    ensures { AsksRightly }
{}

/// In a legal run the state at each place is that after so many changes of the history; and the two parts of a legal run
/// that speak of replies say that each is the model's: that of a change at the state before it, any other at the state
/// of its place.
pub fn a_legal_run_follows_its_history()
    ensures history { FollowsHistory }
    ensures at_places { AnswersAtPlaces }
    ensures in_turn { AnswersInTurn }
{}

/// Transcripts of clients who haven't called yet are a legal run. A legal run of any number of clients stays one when the
/// store gives one of them one more answer, at a state of the run, if the refusals for faults have causes; the states so
/// far stay, and the state after the call is the one at its place. The causes grow with the counts.
pub fn a_legal_run_grows()
    ensures begins { BeginsLegally }
    ensures legal { GrowsLegally }
    ensures stands { StandsGrow }
    ensures causes { CausesGrow }
{}
