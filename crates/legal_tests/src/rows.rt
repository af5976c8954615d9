// Worked rows: transcripts that are legal as they stand, and not with one place, number, level, value or refusal
// changed.

use crate::cases::{Ask, Held, How, Row, Store, count_illegal, is_legal};
use std::process::Abort;
use std::test::Fail;

pub const NEW: Store = Store {
    behind: false,
    was: None,
    capacity: 1_073_741_824,
    disk_failed: false,
};

const BEHIND: Store = Store {
    behind: true,
    was: None,
    capacity: 1_073_741_824,
    disk_failed: false,
};

const T_AB: Held = Held::Table(&[("a", Some("1")), ("b", None)]);

const T_K: Held = Held::Table(&[("k", Some("2"))]);

const T_K1: Held = Held::Table(&[("k", Some("1"))]);

const T_Z9: Held = Held::Table(&[("z", Some("9"))]);

const T_A2: Held = Held::Table(&[("a", Some("2"))]);

const T_ABC: Held = Held::Table(&[("a", Some("9")), ("b", Some("9")), ("c", Some("9"))]);

const T_C8: Held = Held::Table(&[("c", Some("8"))]);

const T_AZ: Held = Held::Table(&[("a", Some("1")), ("z", Some("1"))]);

const T_X: Held = Held::Table(&[("a", Some("1")), ("b", Some("1"))]);

const T_Y: Held = Held::Table(&[("b", Some("2"))]);

const PUT_A: Ask = Ask::Write(&[("a", Some("1"))]);

const PUT_K: Ask = Ask::Write(&[("k", Some("1"))]);

// Files that are taken in.
static FILES: [Row; 4] = [
    // A file in an empty store: its pair and its tombstone are read, and it isn't numbered.
    Row {
        store: NEW,
        clients: &[&[
            (Ask::Take(How::Plain, &[T_AB]), "1 ingested 4@6#0"),
            (Ask::Get("a"), "1 value 1"),
            (Ask::Get("b"), "1 none"),
        ]],
        changes: &[
            (0, 0, "1 ingested 4@6#1"),
            (0, 0, "1 ingested 4@7#0"),
            (0, 1, "0 value 1"),
            (0, 2, "1 value 1"),
        ],
    },
    // A file that meets a memtable: it is refused without a flush, and numbered behind the write.
    Row {
        store: NEW,
        clients: &[&[
            (PUT_K, "1 written 1"),
            (
                Ask::Take(How::Flush, &[T_K]),
                "1 refused 14 FlushNeeded 1 1 k",
            ),
            (Ask::Get("k"), "1 value 1"),
            (Ask::Take(How::Plain, &[T_K]), "2 ingested 5@0#2"),
            (Ask::Get("k"), "2 value 2"),
        ]],
        changes: &[
            (0, 1, "1 refused 14 FlushNeeded 1 1 j"),
            (0, 3, "2 ingested 5@0#3"),
            (0, 3, "2 ingested 5@6#0"),
            (0, 4, "2 value 1"),
        ],
    },
    // Two files of one argument that meet are both numbered, and the later covers the earlier.
    Row {
        store: NEW,
        clients: &[&[
            (Ask::Take(How::Plain, &[T_X, T_Y]), "1 ingested 4@6#1 5@5#2"),
            (Ask::Get("b"), "1 value 2"),
        ]],
        changes: &[
            (0, 0, "1 ingested 4@6#1 5@5#1"),
            (0, 0, "1 ingested 4@6#0 5@5#1"),
            (0, 1, "1 value 1"),
        ],
    },
    // A request over three families is one step, which another client awaits.
    Row {
        store: NEW,
        clients: &[
            &[
                (Ask::Make("p"), "1 made"),
                (Ask::Make("q"), "2 made"),
                (
                    Ask::Ingest(&[
                        ("default", How::Plain, &[T_K1]),
                        ("p", How::Plain, &[T_K1]),
                        ("q", How::Plain, &[T_K1]),
                    ]),
                    "3 ingested 4@6#0 5@6#0 6@6#0",
                ),
            ],
            &[
                (Ask::Await(1, 3), "3 await"),
                (
                    Ask::View(&[("default", "k"), ("p", "k"), ("q", "k")]),
                    "3 view =1 =1 =1",
                ),
            ],
        ],
        changes: &[
            (0, 2, "3 ingested 4@6#0 5@6#0"),
            (0, 2, "3 ingested 4@6#0 4@6#0 6@6#0"),
            (1, 0, "2 await"),
            (1, 1, "3 view =1 =1 -"),
        ],
    },
];

// Files and snapshots, a damaged file, and a compaction.
static SNAPSHOTS: [Row; 4] = [
    // A damaged file in the third argument refuses the request, and no family has its keys.
    Row {
        store: NEW,
        clients: &[&[
            (Ask::Make("p"), "1 made"),
            (Ask::Make("q"), "2 made"),
            (
                Ask::Ingest(&[
                    ("default", How::Plain, &[T_K1]),
                    ("p", How::Plain, &[T_K1]),
                    ("q", How::Plain, &[Held::Cut]),
                ]),
                "2 refused 7 BadTable 3 1 Magic",
            ),
            (
                Ask::View(&[("default", "k"), ("p", "k"), ("q", "k")]),
                "2 view - - -",
            ),
        ]],
        changes: &[
            (0, 2, "2 refused 7 BadTable 2 1 Magic"),
            (0, 2, "1 refused 7 BadTable 3 1 Magic"),
            (0, 3, "2 view =1 - -"),
        ],
    },
    // A snapshot doesn't see a file that is taken in after it.
    Row {
        store: NEW,
        clients: &[&[
            (PUT_K, "1 written 1"),
            (Ask::Snap("s"), "2 snapshot 1"),
            (Ask::Take(How::Plain, &[T_K]), "3 ingested 4@0#2"),
            (Ask::GetAt("s", "k"), "3 value 1"),
            (Ask::Get("k"), "3 value 2"),
        ]],
        changes: &[
            (0, 1, "2 snapshot 0"),
            (0, 2, "3 ingested 4@0#0"),
            (0, 3, "3 value 2"),
            (0, 4, "3 value 1"),
        ],
    },
    // It does where the argument says so; and a file of its own key is numbered while it lives.
    Row {
        store: NEW,
        clients: &[&[
            (Ask::Snap("s"), "1 snapshot 0"),
            (Ask::Take(How::Snapshots, &[T_K]), "2 ingested 4@6#0"),
            (Ask::GetAt("s", "k"), "2 value 2"),
            (Ask::Take(How::Plain, &[T_Z9]), "3 ingested 5@6#1"),
            (Ask::GetAt("s", "z"), "3 none"),
            (Ask::Get("z"), "3 value 9"),
        ]],
        changes: &[
            (0, 1, "2 ingested 4@6#1"),
            (0, 2, "2 none"),
            (0, 3, "3 ingested 5@6#0"),
            (0, 4, "3 value 9"),
        ],
    },
    // A compaction drops a tombstone, and the file of its key goes to the lowest level.
    Row {
        store: NEW,
        clients: &[&[
            (PUT_K, "1 written 1"),
            (Ask::Write(&[("k", None)]), "2 written 2"),
            (Ask::Compact, "2 compacted"),
            (Ask::Take(How::Plain, &[T_K]), "3 ingested 5@6#0"),
            (Ask::Get("k"), "3 value 2"),
        ]],
        changes: &[
            (0, 2, "3 compacted"),
            (0, 2, "2 flushed"),
            (0, 3, "3 ingested 5@6#4"),
            (0, 4, "3 value 1"),
        ],
    },
];

// Files behind.
static FILES_BEHIND: [Row; 3] = [
    // A file behind fills what no put and no tombstone covers, and no other file behind meets it.
    Row {
        store: BEHIND,
        clients: &[&[
            (PUT_A, "1 written 1"),
            (Ask::Write(&[("b", None)]), "2 written 2"),
            (Ask::Take(How::Behind, &[T_ABC]), "3 ingested 4@6#0"),
            (
                Ask::View(&[("default", "a"), ("default", "b"), ("default", "c")]),
                "3 view =1 - =9",
            ),
            (
                Ask::Take(How::Behind, &[T_C8]),
                "3 refused 15 BehindDoesNotFit 1 1 a c",
            ),
        ]],
        changes: &[
            (0, 2, "3 ingested 4@5#0"),
            (0, 2, "3 ingested 4@6#3"),
            (0, 3, "3 view =9 - =9"),
            (0, 3, "3 view =1 =9 =9"),
            (0, 4, "3 refused 15 BehindDoesNotFit 1 1 b c"),
        ],
    },
    // No file goes behind while a snapshot lives.
    Row {
        store: BEHIND,
        clients: &[&[
            (Ask::Snap("s"), "1 snapshot 0"),
            (
                Ask::Take(How::Behind, &[T_ABC]),
                "1 refused 13 SnapshotsLive 1 0",
            ),
            (Ask::Release("s"), "2 released"),
            (Ask::Take(How::Behind, &[T_ABC]), "3 ingested 5@6#0"),
        ]],
        changes: &[
            (0, 1, "1 refused 13 SnapshotsLive 1 1"),
            (0, 2, "1 released"),
            (0, 3, "3 ingested 5@6#1"),
        ],
    },
    // Files of one argument that meet don't go behind, and don't go without numbers.
    Row {
        store: BEHIND,
        clients: &[&[
            (
                Ask::Take(How::Behind, &[T_X, T_Y]),
                "0 refused 9 FilesMeet 1 1 2",
            ),
            (
                Ask::Take(How::Global, &[T_X, T_Y]),
                "0 refused 16 NeedsSequence 1 1 Files 1 2",
            ),
        ]],
        changes: &[
            (0, 0, "0 refused 9 FilesMeet 1 2 1"),
            (0, 1, "0 refused 16 NeedsSequence 1 2 Files 1 2"),
            (0, 1, "0 refused 16 NeedsSequence 1 1 Files 2 1"),
        ],
    },
];

// A disk that fails, and what is opened again.
static STOPS: [Row; 3] = [
    // The disk fails in the second write: the store stops, and reads go on.
    Row {
        store: Store {
            behind: false,
            was: None,
            capacity: 1_073_741_824,
            disk_failed: true,
        },
        clients: &[&[
            (PUT_A, "1 written 1"),
            (Ask::Write(&[("a", Some("2"))]), "1 refused 20 DiskFault"),
            (Ask::Write(&[("a", Some("3"))]), "1 refused 10 Stopped"),
            (Ask::Get("a"), "1 value 1"),
        ]],
        changes: &[
            (0, 1, "2 refused 20 DiskFault"),
            (0, 2, "2 written 2"),
            (0, 3, "1 value 2"),
        ],
    },
    // Opened again, the store has the contents before that write,
    Row {
        store: Store {
            behind: false,
            was: Some(("1", 1)),
            capacity: 1_073_741_824,
            disk_failed: false,
        },
        clients: &[&[(Ask::Get("a"), "0 value 1")]],
        changes: &[(0, 0, "0 value 2"), (0, 0, "1 value 1")],
    },
    // or those after it.
    Row {
        store: Store {
            behind: false,
            was: Some(("2", 2)),
            capacity: 1_073_741_824,
            disk_failed: false,
        },
        clients: &[&[(Ask::Get("a"), "0 value 2")]],
        changes: &[(0, 0, "0 value 1"), (0, 0, "0 none")],
    },
];

// Clients that await one another, and a second run on the same disk.
static CLIENTS: [Row; 3] = [
    // Two clients await one another's commands.
    Row {
        store: NEW,
        clients: &[
            &[
                (PUT_A, "1 written 1"),
                (Ask::Await(2, 2), "2 await"),
                (Ask::Get("b"), "2 value 2"),
            ],
            &[
                (Ask::Await(1, 1), "1 await"),
                (Ask::Write(&[("b", Some("2"))]), "2 written 2"),
            ],
        ],
        changes: &[
            (0, 1, "1 await"),
            (0, 2, "2 none"),
            (1, 0, "0 await"),
            (1, 1, "1 written 2"),
            (1, 1, "2 written 1"),
        ],
    },
    // A second run on the same disk: the key is known from the first.
    Row {
        store: Store {
            behind: false,
            was: Some(("1", 1)),
            capacity: 1_073_741_824,
            disk_failed: false,
        },
        clients: &[&[
            (Ask::Get("a"), "0 value 1"),
            (Ask::Take(How::Plain, &[T_A2]), "1 ingested 7@0#2"),
            (Ask::Get("a"), "1 value 2"),
        ]],
        changes: &[
            (0, 0, "0 none"),
            (0, 1, "1 ingested 7@0#0"),
            (0, 1, "1 ingested 7@0#1"),
            (0, 2, "1 value 1"),
        ],
    },
    // A write that would pass the capacity: each counts 34 bytes.
    Row {
        store: Store {
            behind: false,
            was: None,
            capacity: 100,
            disk_failed: false,
        },
        clients: &[&[
            (PUT_A, "1 written 1"),
            (PUT_K, "2 written 2"),
            (PUT_A, "2 refused 19 StoreFull"),
        ]],
        changes: &[(0, 1, "1 refused 19 StoreFull"), (0, 2, "3 written 3")],
    },
];

// Requests that are refused.
static REFUSED: [Row; 1] = [
    // Refusals by the shape of a request, its families and its files.
    Row {
        store: NEW,
        clients: &[&[
            (Ask::Ingest(&[]), "0 refused 1 EmptyRequest"),
            (
                Ask::Ingest(&[("p", How::Plain, &[])]),
                "0 refused 2 NoFiles 1",
            ),
            (
                Ask::Ingest(&[
                    ("default", How::Plain, &[T_K]),
                    ("default", How::Plain, &[T_K]),
                ]),
                "0 refused 3 FamilyTwice 2",
            ),
            (
                Ask::Ingest(&[("default", How::Plain, &[T_K]), ("p", How::Plain, &[T_K])]),
                "0 refused 11 UnknownFamily p",
            ),
            (
                Ask::Take(How::Plain, &[Held::Missing]),
                "0 refused 5 FileMissing 1 1",
            ),
            (
                Ask::Take(How::Behind, &[T_K]),
                "0 refused 12 BehindNotEnabled 1",
            ),
            (Ask::Get("k"), "0 none"),
        ]],
        changes: &[
            (0, 0, "0 refused 2 NoFiles 1"),
            (0, 1, "0 refused 2 NoFiles 2"),
            (0, 1, "0 refused 11 UnknownFamily p"),
            (0, 2, "0 refused 3 FamilyTwice 1"),
            (0, 3, "0 refused 11 UnknownFamily default"),
            (0, 4, "0 refused 5 FileMissing 1 2"),
            (0, 5, "1 ingested 4@6#0"),
            (0, 6, "0 value 2"),
        ],
    },
];

// Files that need a number, or the lowest level.
static NUMBERS: [Row; 3] = [
    // A file that needs a number and may take none, and one that can't go to the lowest level.
    Row {
        store: NEW,
        clients: &[&[
            (PUT_K, "1 written 1"),
            (
                Ask::Take(How::Global, &[T_K]),
                "1 refused 16 NeedsSequence 1 1 Key k",
            ),
            (
                Ask::Take(How::Bottom, &[T_K]),
                "1 refused 17 NotLastLevel 1 1 0 Key k",
            ),
        ]],
        changes: &[
            (0, 1, "1 refused 16 NeedsSequence 1 1 Key j"),
            (0, 1, "1 refused 16 NeedsSequence 1 2 Key k"),
            (0, 2, "1 refused 17 NotLastLevel 1 1 6 Key k"),
            (0, 2, "1 refused 16 NeedsSequence 1 1 Key k"),
        ],
    },
    // The same while a snapshot lives.
    Row {
        store: NEW,
        clients: &[&[
            (Ask::Snap("s"), "1 snapshot 0"),
            (
                Ask::Take(How::Global, &[T_K]),
                "1 refused 16 NeedsSequence 1 1 Snapshot 0",
            ),
        ]],
        changes: &[
            (0, 0, "1 snapshot 1"),
            (0, 1, "1 refused 16 NeedsSequence 1 1 Snapshot 1"),
            (0, 1, "1 refused 16 NeedsSequence 1 1 Key k"),
        ],
    },
    // A file that stands above another one's range, and isn't numbered.
    Row {
        store: NEW,
        clients: &[&[
            (Ask::Take(How::Plain, &[T_AZ]), "1 ingested 4@6#0"),
            (
                Ask::Take(How::Bottom, &[T_K]),
                "1 refused 17 NotLastLevel 1 1 5 Meets a z",
            ),
            (Ask::Take(How::Global, &[T_K]), "2 ingested 6@5#0"),
            (Ask::Get("k"), "2 value 2"),
        ]],
        changes: &[
            (0, 1, "1 refused 17 NotLastLevel 1 1 6 Meets a z"),
            (0, 1, "1 refused 17 NotLastLevel 1 1 5 Meets a y"),
            (0, 2, "2 ingested 6@5#1"),
            (0, 3, "2 none"),
        ],
    },
];

// Batches, scans, snapshots and families.
static OTHERS: [Row; 1] = [
    // Batches, scans, snapshots, and families that are there or aren't.
    Row {
        store: NEW,
        clients: &[&[
            (
                Ask::Write(&[("a", Some("1")), ("b", None), ("c", Some("3"))]),
                "1 written 3",
            ),
            (Ask::Scan("a", "z", 10), "1 scan a=1 c=3"),
            (Ask::Scan("a", "z", 1), "1 scan a=1"),
            (Ask::Scan("d", "z", 5), "1 scan"),
            (Ask::Snap("s"), "2 snapshot 3"),
            (Ask::Write(&[("a", None)]), "3 written 4"),
            (Ask::ScanAt("s", "a", "b", 9), "3 scan a=1"),
            (Ask::Flush, "3 flushed"),
            (Ask::GetIn("p", "a"), "3 refused 11 UnknownFamily p"),
            (Ask::Drop("default"), "3 refused 22 DefaultStays"),
            (Ask::Make("default"), "3 refused 21 FamilyExists default"),
        ]],
        changes: &[
            (0, 0, "1 written 1"),
            (0, 1, "1 scan a=1"),
            (0, 2, "1 scan a=1 c=3"),
            (0, 6, "3 scan"),
            (0, 8, "3 none"),
            (0, 9, "4 dropped"),
            (0, 10, "3 refused 21 FamilyExists p"),
        ],
    },
];

// Whether each of these rows is legal, and isn't with any of its changes.
fn are_legal_alone(rt: &(impl Abort + AllocGlobal), rows: &[Row]) -> Result<(), Fail> {
    for (index, row) in rows.iter().enumerate() {
        assert!(rt; is_legal(rt.alloc(), row, None)?, "row {index}");
        assert!(rt;
            count_illegal(rt.alloc(), row)? == row.changes.len(),
            "row {index}"
        );
    }
    Ok(())
}

fn files(rt: &(impl Abort + AllocGlobal)) -> Result<(), Fail> {
    are_legal_alone(rt, &FILES)
}

fn snapshots(rt: &(impl Abort + AllocGlobal)) -> Result<(), Fail> {
    are_legal_alone(rt, &SNAPSHOTS)
}

fn files_behind(rt: &(impl Abort + AllocGlobal)) -> Result<(), Fail> {
    are_legal_alone(rt, &FILES_BEHIND)
}

fn stops(rt: &(impl Abort + AllocGlobal)) -> Result<(), Fail> {
    are_legal_alone(rt, &STOPS)
}

fn clients(rt: &(impl Abort + AllocGlobal)) -> Result<(), Fail> {
    are_legal_alone(rt, &CLIENTS)
}

fn refused(rt: &(impl Abort + AllocGlobal)) -> Result<(), Fail> {
    are_legal_alone(rt, &REFUSED)
}

fn numbers(rt: &(impl Abort + AllocGlobal)) -> Result<(), Fail> {
    are_legal_alone(rt, &NUMBERS)
}

fn others(rt: &(impl Abort + AllocGlobal)) -> Result<(), Fail> {
    are_legal_alone(rt, &OTHERS)
}

#[test]
fn rows_are_legal(rt: HostRuntime) -> Result<(), Fail> {
    files(&rt)?;
    snapshots(&rt)?;
    files_behind(&rt)?;
    stops(&rt)?;
    clients(&rt)?;
    refused(&rt)?;
    numbers(&rt)?;
    others(&rt)
}
