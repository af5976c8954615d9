ghost use Rattle.std.specs.Prelude.{◌≡◌, ◌∷◌, [], drop};
ghost use mathlib.Core.List.{IsPrefix};
ghost use Rattle.left_right.specs.Sides.{view};

use crate::prefix::Prefix;
use crate::published::{Published, Rises, Sees};
use left_right::writer::Writer;
use std::sync::Wait;

pub(crate) type PublishedWriter = Writer<Published, Published, Prefix, Rises>;

// Hands the writer what comes next. It tries again where there is no memory.
fn append<R: Wait>(rt: &R, writer: &mut PublishedWriter, next: Published)
    requires { drop writer.old.behind writer.old.log.items ≡ [] }
    ensures desk { writer.new.desk ≡ writer.old.desk }
    ensures pending { drop writer.new.behind writer.new.log.items ≡ next ∷ [] }
{
    let mut next = next;
    for _ in rt.forever() {
        match writer.append(next) {
            Ok(()) => return,
            Err(back) => next = back,
        }
    }
}

/// Shows readers the state that comes next. It waits for those that still read.
pub(crate) fn show<R: Wait>(rt: &R, writer: PublishedWriter, next: Published) -> PublishedWriter
    requires empty { drop writer.behind writer.log.items ≡ [] }
    requires later { (writer.desk.shown.value.1.book ≡ next.1.book)
        × IsPrefix writer.desk.shown.value.1.list next.1.list }
    ensures shown { result.desk.shown.value ≡ next }
    ensures empty { drop result.behind result.log.items ≡ [] }
    ensures view { view result.desk.place ≡ next.1 }
{
    let mut writer = writer;
    append(rt, &mut writer, next);
    for _ in rt.forever() {
        let (back, done) = writer.publish_as::<Sees, R>(rt);
        writer = back;
        match done {
            Ok(()) => return writer,
            Err(_) => {}
        }
    }
    unreachable!()
}

/// The writer, which is absent only within a publishing.
pub(crate) struct Showing {
    pub(crate) writer: Option<PublishedWriter>,
}
