ghost use Rattle.std.specs.Prelude.{◌≡◌, ◌<◌, ◌∷◌, [], length, None, IfOk, All, vec_len};
ghost use Rattle.std.specs.Arc.{arc_value};
ghost use Rattle.left_right.specs.Sides.{view};
ghost use Rattle.st_publish.specs.declared.entry.HistoryEntry.TheVariants.{Opened};
ghost use Rattle.st_publish.specs.History.{StandsIn};

use crate::entry::TableState;
use crate::length_word::BlankHistory;
use crate::naming::{Begin, HistoryName};
use crate::published::{Greets, Published};
use crate::publisher::{Publisher, begun};
use crate::showing::{PublishedWriter, show};
use crate::told::Told;
use crate::viewer::Viewer;
use left_right::writer::Writer;
use std::alloc::{AllocError, Global};
use std::snapshot::Snapshot;
use std::sync::{Arc, Wait};

// A viewer of what the writer shows.
fn viewer_of<J: HistoryName>(
    writer: &mut PublishedWriter,
    told: &Told<J>,
) -> Result<Viewer<J>, AllocError>
    requires view { ((view writer.old.desk.place).book ≡ J.book) × (0 < length (view writer.old.desk.place).list) }
    ensures viewer { IfOk result (λ v. v ≡ told.now) }
    ensures view { view writer.new.desk.place ≡ view writer.old.desk.place }
    ensures kept { (writer.new.desk.shown ≡ writer.old.desk.shown) × (writer.new.log ≡ writer.old.log)
        × (writer.new.behind ≡ writer.old.behind) }
{
    let mut reader = writer.factory().reader()?;
    reader.learn::<Greets>(writer.tell::<Greets>());
    Ok(Viewer::new(reader, told.again()))
}

// Viewers of what the writer shows, one for each seat.
fn viewers_of<J: HistoryName>(
    alloc: Global,
    writer: &mut PublishedWriter,
    told: &Told<J>,
    seats: u32,
) -> Result<Vec<Viewer<J>>, AllocError>
    requires view { ((view writer.old.desk.place).book ≡ J.book) × (0 < length (view writer.old.desk.place).list) }
    ensures seats { IfOk result (λ all. vec_len all ≡ seats) }
    ensures told { IfOk result (λ all. All (λ v. v ≡ told.now) all.items) }
    ensures kept { (writer.new.desk.shown ≡ writer.old.desk.shown) × (writer.new.log ≡ writer.old.log)
        × (writer.new.behind ≡ writer.old.behind) }
{
    let mut all = Vec::new(alloc);
    for _i in 0..seats {
        let viewer = viewer_of(writer, told)?;
        all.push(viewer)?;
    }
    Ok(all)
}

/// The publisher of a history that begins with this state at the place 0, and a viewer for each of so many seats. An
/// error says that memory ran out, or that `left_right` has no place for so many readers.
pub fn open_history<J: HistoryName, R: Wait + Drop>(
    rt: R,
    alloc: Global,
    blank: BlankHistory,
    state: Arc<TableState>,
    seats: u32,
) -> Result<(Publisher<J, R>, Vec<Viewer<J>>), AllocError>
    requires name { blank.seen.book ≡ J.book }
    requires stands { StandsIn (Opened (arc_value state) ∷ []) (arc_value state, 0) }
    requires seats { 0 < seats }
    ensures publisher { IfOk result (λ r. (r.0.list ≡ Opened (arc_value state) ∷ [])
        × (r.0.state ≡ (arc_value state, 0)) × (r.0.next ≡ None)) }
    ensures viewers { IfOk result (λ r. (vec_len r.1 ≡ seats)
        × All (λ v. v ≡ Opened (arc_value state) ∷ []) r.1.items) }
{
    let third = Arc::try_clone(&state)?;
    let (word, mut prefix) = blank.named::<J>();
    word.note::<Snapshot<TableState>, Begin, R>(&rt, &mut prefix, &Snapshot::of(&*state), 0);
    let told: Told<J> = Told::of(prefix.again());
    let first = Published {
        state,
        place: 0,
        prefix: prefix.again(),
    };
    let second = first.again()?;
    let writer = Writer::new(alloc, first, second, seats as usize)?;
    let mut writer = show(
        &rt,
        writer,
        Published {
            state: third,
            place: 0,
            prefix,
        },
    );
    match viewers_of(alloc, &mut writer, &told, seats) {
        Ok(all) => Ok((begun(rt, writer, word, told), all)),
        Err(error) => {
            drop(writer.take(&rt));
            Err(error)
        }
    }
}
