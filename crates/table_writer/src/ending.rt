ghost use Rattle.std.specs.Prelude.{◌≡◌, ◌+◌, ◌<◌, ◌≤◌, ◌^◌, List, [], ◌∷◌, ◌++◌, length, IfOk, OnOk};
ghost use Rattle.st_block.specs.Written.{HoldsPairs};
ghost use Rattle.table_writer.specs.Written.{Pair, ending, kind_pairs, metaindex_block, properties_block};
ghost use Rattle.table_writer.specs.Writer.{bytes_in};

use st_base::Bytes;
use st_block::{BlockWriter, writer_holds_what_is_added};
use st_code::push_varint;
use st_table::{
    BYTEWISE_COMPARATOR, COMPARATOR_NAME, ENTRIES_NAME, EXTERNAL_VERSION, Handle, PROPERTIES_NAME,
    SEQUENCE_NAME, TableKind, VERSION_NAME, handle_bytes, push_stored, put_footer,
};
use std::alloc::{AllocError, Global};

// Appends a value under a name.
fn add_name(writer: &mut BlockWriter, name: &[u8], value: &[u8]) -> Result<(), AllocError>
    requires { bytes_in writer.old + length name.now + length value.now ≤ 10000 }
    ensures holds { (pairs : List Pair) → HoldsPairs writer.old pairs
        → OnOk result (HoldsPairs writer.new (pairs ++ (name.now, value.now) ∷ [])) }
    ensures interval { OnOk result (writer.new.interval ≡ writer.old.interval) }
    ensures size { OnOk result (bytes_in writer.new ≤ bytes_in writer.old + length name.now + length value.now + 34) }
{
    writer_holds_what_is_added();
    writer.add(name, value)?;
    Ok(())
}

// Appends the properties that tables of this kind have.
fn add_kind(writer: &mut BlockWriter, kind: TableKind) -> Result<(), AllocError>
    requires { bytes_in writer.old ≤ 1000 }
    ensures holds { (pairs : List Pair) → HoldsPairs writer.old pairs
        → OnOk result (HoldsPairs writer.new (pairs ++ kind_pairs kind)) }
    ensures interval { OnOk result (writer.new.interval ≡ writer.old.interval) }
    ensures size { OnOk result (bytes_in writer.new ≤ bytes_in writer.old + 200) }
{
    match kind {
        TableKind::External => {
            add_name(writer, SEQUENCE_NAME, &[0, 0, 0, 0, 0, 0, 0, 0])?;
            add_name(writer, VERSION_NAME, &EXTERNAL_VERSION.to_le_bytes())
        }
        TableKind::Own => Ok(()),
    }
}

// The properties block of a table of this kind with so many entries.
fn properties_block(alloc: Global, kind: TableKind, count: u64) -> Result<Bytes, AllocError>
    ensures { IfOk result (λ bytes. bytes ≡ properties_block kind count) }
{
    let mut number = Bytes::new(alloc);
    push_varint(&mut number, count)?;
    let mut writer = BlockWriter::new(alloc, 1)?;
    add_name(&mut writer, COMPARATOR_NAME, BYTEWISE_COMPARATOR)?;
    add_kind(&mut writer, kind)?;
    add_name(&mut writer, ENTRIES_NAME, number.as_slice())?;
    let bytes = writer.finish(alloc)?;
    Ok(bytes)
}

// The metaindex block of a table whose properties lie there.
fn metaindex_block(alloc: Global, properties: Handle) -> Result<Bytes, AllocError>
    ensures { IfOk result (λ bytes. bytes ≡ metaindex_block properties) }
{
    let handle = handle_bytes(alloc, properties)?;
    let mut writer = BlockWriter::new(alloc, 1)?;
    add_name(&mut writer, PROPERTIES_NAME, handle.as_slice())?;
    let bytes = writer.finish(alloc)?;
    Ok(bytes)
}

/// What follows the index block of a table of this kind with so many entries: the properties, which begin at the
/// offset in the file, the metaindex and the footer.
pub(crate) fn ending(
    alloc: Global,
    kind: TableKind,
    count: u64,
    at: u64,
    index: Handle,
) -> Result<Bytes, AllocError>
    requires { at < 2 ^ 62 }
    ensures { IfOk result (λ bytes. bytes ≡ ending kind count at index) }
{
    let properties = properties_block(alloc, kind, count)?;
    let handle = Handle {
        offset: at,
        size: properties.len() as u64,
    };
    let metaindex = metaindex_block(alloc, handle)?;
    let mut out = Bytes::new(alloc);
    push_stored(&mut out, properties.as_slice())?;
    let metaindex_handle = Handle {
        offset: at + out.len() as u64,
        size: metaindex.len() as u64,
    };
    push_stored(&mut out, metaindex.as_slice())?;
    put_footer(alloc, &mut out, metaindex_handle, index)?;
    Ok(out)
}
