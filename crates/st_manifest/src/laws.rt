//! A law is the contract of a function without a body: it is proved where that contract is.
ghost use Rattle.st_manifest.specs.Laws.{GroupIsAtomic, ReplayedNameThat};

/// A group is atomic: a manifest with some of its records more has the edits from before it, or these and all of the
/// group's. By `Manifest::append_group` each image of a crash within it is such a manifest.
pub fn group_is_atomic()
    ensures { GroupIsAtomic }
{}

/// What the edits that `Manifest::replay` gives name, taken in order from nothing, is what the laws of images say that
/// the manifest's records name.
pub fn replayed_name_that()
    ensures { ReplayedNameThat }
{}
