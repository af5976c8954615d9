ghost use Rattle.view_laws.specs.Laws.{ScansAreTheModels, ScansReadTheWalk};
ghost use Rattle.view_laws.specs.Writes.{WritesFillMemtables};

/// A scan over the merged walk of a family gives the pairs of the model's scan, at the last number and at each live one, where
/// the picture stands for the model's state. The family alone suffices where it reads as the model does at that number.
pub fn scans_are_the_models()
    ensures family { ScansReadTheWalk }
    ensures state { ScansAreTheModels }
{}

/// A write of the core puts the operations of each family into that family's memtable, one after the other in their order, under
/// the numbers that they take; the families stay as they are otherwise.
pub fn writes_fill_memtables()
    ensures { WritesFillMemtables }
{}
