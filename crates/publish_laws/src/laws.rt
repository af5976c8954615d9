ghost use Rattle.publish_laws.specs.Claims.{AcceptedApplies, BeginsOpened, ContentsAreTheModels, CoreStands};
ghost use Rattle.publish_laws.specs.Claims.{PlaceCounts, StandingIsPicture};

/// A state stands for a history exactly where it is a picture of the model after its changes; its place is their
/// number, and its contents are the model's.
pub fn standing_is_a_picture()
    ensures picture { StandingIsPicture }
    ensures place { PlaceCounts }
    ensures contents { ContentsAreTheModels }
{}

/// Each accepted change is one more of the model, and a history begins with what the model is after a stop and an
/// opening.
pub fn history_is_the_models()
    ensures accepted { AcceptedApplies }
    ensures opened { BeginsOpened }
{}

/// The state of a core stands for a history wherever the core stands for the model after it.
pub fn core_stands_in_history()
    ensures { CoreStands }
{}
