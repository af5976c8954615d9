//! Each law is the contract of a function without a body: it is proved where that contract is.
ghost use Rattle.image_bytes.specs.Laws.{GroupIsSomeMore, WriteIsAllOrNone, WriteIsMore};

/// A log that reads as before a write, or with it, has its operations more to the laws of images, all or none.
pub fn write_is_all_or_none()
    ensures { WriteIsAllOrNone }
{}

/// A log that reads with a write has its operations more.
pub fn write_is_more()
    ensures { WriteIsMore }
{}

/// An image in which the manifest alone has changed, by some of a group's records more, has some more to the laws of
/// images.
pub fn group_is_some_more()
    ensures { GroupIsSomeMore }
{}
