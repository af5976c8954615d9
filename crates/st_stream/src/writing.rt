ghost use Rattle.std.specs.Prelude.{◌≡◌, ◌≤◌, ◌++◌, OnOk, OnErr, IsTrue};
ghost use Rattle.st_base.specs.Count.{Rose};
ghost use Rattle.st_stream.specs.Sink.{AppendsPrefix};

use crate::{Failed, Sink};

/// Writes all of the bytes. `Failed` comes only where the sink's count of faults rose in this call, or stands at its
/// end, and then some of the bytes were written, from the first on.
pub fn write_all<K: Sink>(sink: &mut K, bytes: &[u8]) -> Result<(), Failed>
    ensures ok { IsTrue (K.tells sink.old).known
        → OnOk result ((K.tells sink.new).written ≡ (K.tells sink.old).written ++ bytes.now) }
    ensures err { IsTrue (K.tells sink.old).known
        → OnErr result (AppendsPrefix (K.tells sink.old).written (K.tells sink.new).written bytes.now) }
    ensures failed { OnErr result (Rose (K.tells sink.old).faults (K.tells sink.new).faults) }
    ensures quiet { OnOk result ((K.tells sink.new).faults ≡ (K.tells sink.old).faults) }
    ensures known { (K.tells sink.new).known ≡ (K.tells sink.old).known }
    ensures faults { (K.tells sink.old).faults ≤ (K.tells sink.new).faults }
{
    let mut done = 0;
    while done < bytes.len() {
        done += sink.write(&bytes[done..])?;
    }
    Ok(())
}
