// Input files of the working folder, and standard input and output.
use real_files::{FolderInputs, StdSink, StdSource};
use st_stream::{FileRead, Inputs, Source, read_file, write_all};
use std::alloc::Global;
use std::fs;
use std::test::Fail;

// Whether the file `sample` has these bytes.
fn is_read<I: Inputs>(alloc: Global, inputs: &mut I, want: &[u8]) -> bool {
    match read_file(alloc, inputs, "sample", 3) {
        Ok(FileRead::Whole(bytes)) => bytes.as_slice() == want,
        _ => false,
    }
}

// Whether the file `sample` is read whole, and from an offset on.
fn is_there<I: Inputs>(alloc: Global, inputs: &mut I) -> bool {
    is_read(alloc, inputs, b"abc") && inputs.read("sample", 2, &mut [0; 9]) == Ok(1)
}

// Whether the file `sample` has no size, and one that never was there no bytes.
fn is_gone<I: Inputs>(inputs: &mut I) -> bool {
    inputs.size("sample") == Ok(None) && inputs.read("none", 0, &mut [0; 9]) == Ok(0)
}

#[test]
fn files_are_read(rt: HostRuntime) -> Result<(), Fail> {
    let mut inputs = FolderInputs::new(&rt);
    fs::write(&rt, "sample", b"abc")?;
    assert!(rt; is_there(rt.alloc(), &mut inputs));
    fs::remove_file(&rt, "sample")?;
    assert!(rt; is_gone(&mut inputs));
    Ok(())
}

#[test]
fn standard_streams_answer(rt: HostRuntime) -> Result<(), Fail> {
    let mut sink = StdSink::new(&rt);
    assert!(rt; write_all(&mut sink, b"").is_ok());
    let mut source = StdSource::new(&rt);
    assert!(rt; source.read(&mut []).is_ok_and(|came| came == 0));
    Ok(())
}
