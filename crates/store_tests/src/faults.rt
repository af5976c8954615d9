// Each call of what a run reads and writes fails in turn.
use crate::outside::{Failing, built, converted, run_new};
use ingest_app::Status;
use std::process::Abort;
use std::test::Fail;

const ROW: &str = "put default a 1\nget default a\ndel default a\nget default a\n";

// Each call of the inputs fails in turn, and then the sink.
#[test]
fn a_run_names_its_fault(rt: HostRuntime) -> Result<(), Fail> {
    for (input, sink, status, written) in [
        (1, 0, Status::InputFault, "input one\n"),
        (2, 0, Status::InputFault, "input one\n"),
        (0, 1, Status::SinkFault, ""),
    ] {
        let failing = Failing {
            input,
            source: 0,
            sink,
        };
        let ended = run_new(rt.alloc(), "run one", ROW, failing, 0)?;
        assert!(rt; ended.is(status, written.as_bytes()), "{input} {sink}");
    }
    Ok(())
}

// Each call of the source fails in turn, and then the sink.
fn conversion_faults(
    rt: &(impl Abort + AllocGlobal),
    form: &str,
    bytes: &[u8],
) -> Result<(), Fail> {
    for (source, sink, status, written) in [
        (1, 0, Status::InputFault, "input\n"),
        (2, 0, Status::InputFault, "input\n"),
        (0, 1, Status::SinkFault, ""),
    ] {
        let failing = Failing {
            input: 0,
            source,
            sink,
        };
        let ended = converted(rt.alloc(), form, bytes, failing)?;
        assert!(rt;
            ended.is(status, written.as_bytes()),
            "{form} {source} {sink}"
        );
    }
    Ok(())
}

#[test]
fn a_conversion_names_its_fault(rt: HostRuntime) -> Result<(), Fail> {
    let table = built(&rt, b"put a 1\n")?;
    conversion_faults(&rt, "build", b"put a 1\n")?;
    conversion_faults(&rt, "show", table.as_slice())
}
