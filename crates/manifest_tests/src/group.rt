use crate::disks::reads_as;
use st_base::Family;
use st_device::UnrecordedDisk;
use st_manifest::{Edit, Group, Manifest};
use std::alloc::{AllocError, Global};
use std::test::Fail;

// The group that adds family 1.
fn family_group(alloc: Global) -> Result<Group, Fail> {
    let name = Family::new(alloc, b"f")?;
    let edits = [Edit::AddFamily { id: 1, name }, Edit::Last { number: 8 }];
    Ok(Group::new(alloc, &edits)?)
}

const FAMILY_GROUP: &[u8] = b"\0\0\0\0\x01\x01\0\0\0\x01f\x06\x08\0\0\0\0\0\0\0";

// The group of a flush of family 1.
fn flush_group(alloc: Global) -> Result<Group, AllocError> {
    let edits = [
        Edit::AddTable {
            family: 1,
            level: 0,
            file: 5,
            length: 900,
            number: 0,
        },
        Edit::Flushed {
            family: 1,
            number: 6,
        },
        Edit::DropLog { file: 3 },
        Edit::Last { number: 8 },
    ];
    Group::new(alloc, &edits)
}

const FLUSH_GROUP: &[u8] =
    b"\0\0\0\0\x03\x01\0\0\0\0\x05\0\0\0\0\0\0\0\x84\x03\0\0\0\0\0\0\0\0\0\0\0\0\0\0\x05\x01\0\0\0\x06\0\0\0\0\0\0\0\x08\x03\0\0\0\0\0\0\0\x06\x08\0\0\0\0\0\0\0";

// A group of the edits that the others don't have.
fn drop_group(alloc: Global) -> Result<Group, AllocError> {
    let edits = [
        Edit::DropTable { family: 1, file: 5 },
        Edit::AddLog { file: 9 },
        Edit::DropFamily { id: 1 },
        Edit::Last { number: 8 },
    ];
    Group::new(alloc, &edits)
}

const DROP_GROUP: &[u8] =
    b"\0\0\0\0\x04\x01\0\0\0\x05\0\0\0\0\0\0\0\x07\x09\0\0\0\0\0\0\0\x02\x01\0\0\0\x06\x08\0\0\0\0\0\0\0";

// Whether the group has one record, of these bytes.
fn has_bytes(group: &Group, want: &[u8]) -> bool {
    match group.payloads() {
        [one] => one.as_slice() == want,
        _ => false,
    }
}

#[test]
fn each_edit_has_its_bytes(rt: HostRuntime) -> Result<(), Fail> {
    let family = family_group(rt.alloc())?;
    let flush = flush_group(rt.alloc())?;
    let drop = drop_group(rt.alloc())?;
    assert!(rt; has_bytes(&family, FAMILY_GROUP));
    assert!(rt; has_bytes(&flush, FLUSH_GROUP));
    assert!(rt; has_bytes(&drop, DROP_GROUP));
    Ok(())
}

// A manifest of two groups, whose gates stand at 8, 37 and 111.
const TWO_GROUPS: &[u8] =
    b"STMANI01\x01\x14\0\0\0\xef\xd6\xf6\x5c\0\0\0\0\x01\x01\0\0\0\x01f\x06\x08\0\0\0\0\0\0\0\x01A\0\0\0\xe4\xaa8%\0\0\0\0\x03\x01\0\0\0\0\x05\0\0\0\0\0\0\0\x84\x03\0\0\0\0\0\0\0\0\0\0\0\0\0\0\x05\x01\0\0\0\x06\0\0\0\0\0\0\0\x08\x03\0\0\0\0\0\0\0\x06\x08\0\0\0\0\0\0\0\0";

// Makes a manifest of these groups in file 2.
fn write_groups(disk: &mut UnrecordedDisk, one: &Group, two: &Group) -> Result<(), Fail> {
    let mut manifest = Manifest::make(disk, 2)?;
    manifest.append_group(disk, one)?;
    manifest.append_group(disk, two)?;
    Ok(())
}

#[test]
fn a_manifest_has_its_bytes(rt: HostRuntime) -> Result<(), Fail> {
    let one = family_group(rt.alloc())?;
    let two = flush_group(rt.alloc())?;
    let mut disk = UnrecordedDisk::new(rt.alloc());
    write_groups(&mut disk, &one, &two)?;
    assert!(rt; reads_as(&mut disk, 2, TWO_GROUPS)?);
    Ok(())
}

#[test]
fn a_new_manifest_has_its_bytes(rt: HostRuntime) -> Result<(), Fail> {
    let mut disk = UnrecordedDisk::new(rt.alloc());
    let manifest = Manifest::make(&mut disk, 2)?;
    assert!(rt; manifest.length() == 9);
    assert!(rt; reads_as(&mut disk, 2, b"STMANI01\0")?);
    Ok(())
}
