//! Loads over objects in memory.

ghost use Rattle.std.specs.Prelude.{◌≤◌};
ghost use Rattle.load_report.specs.Report.{count_limit};

use crate::reporting::report_load;
use port_io::MemSink;
use std::alloc::Global;
use std::test::Fail;

/// What is written of a load, and its status, where these writes fail.
fn reported(alloc: Global, seed: u64, count: u32, failing: &[u64]) -> Result<(u8, MemSink), Fail>
    requires { count ≤ count_limit }
{
    let mut out = MemSink::make(alloc, 100, Vec::from_slice(alloc, failing)?)?;
    let status = report_load(alloc, seed, count, &mut out);
    Ok((status, out))
}

#[test]
fn a_load_is_told_where_memory_is_ample(rt: HostRuntime) -> Result<(), Fail> {
    let alloc = rt.alloc();
    let (status, out) = reported(alloc, 0, 0, &[])?;
    assert_eq!(rt; status, 0);
    assert_eq!(rt;
        out.written(),
        b"datagrams 0\nsent 0\nnosession 0\noctets 48\n".as_slice()
    );
    let (status, out) = reported(alloc, 0, 1, &[])?;
    assert_eq!(rt; status, 0);
    assert_eq!(rt;
        out.written(),
        b"datagrams 1\nsent 1\nnosession 0\noctets 186\n".as_slice()
    );
    Ok(())
}

#[test]
fn a_failing_write_is_told(rt: HostRuntime) -> Result<(), Fail> {
    let (status, out) = reported(rt.alloc(), 0, 1, &[1])?;
    assert_eq!(rt; status, 8);
    assert_eq!(rt; out.written(), b"".as_slice());
    Ok(())
}
