//! Copy lines, and their faults. That cuts are sewn is tried on the built program.
use std::alloc::Global;
use std::test::Fail;
use surf_base::VertexId;
use surf_sew::{CopyFault, read_copies};

fn copies(
    alloc: Global,
    text: &[u8],
    count: u32,
) -> Result<Result<Vec<VertexId>, CopyFault>, Fail> {
    if text.len() > 10_000 {
        return Err("a short text")?;
    }
    Ok(read_copies(alloc, text, count))
}

#[test]
fn copy_lines_are_read(rt: HostRuntime) -> Result<(), Fail> {
    let text = b"\
            # copy 0 from 7\n0 0 0 # copy 1 from 1\n# copy# 1 from 1\n#copy\n\
            # copy 1 from 4294967295"
        .as_slice();
    let read = copies(rt.alloc(), text, 2)?;
    let origins = read.ok().ok_or("copies")?;
    let want = [VertexId::new(7), VertexId::new(u32::MAX)];
    assert_eq!(rt; origins.as_slice(), want.as_slice());
    assert!(rt; copies(rt.alloc(), b"", 0)?.is_ok());
    Ok(())
}

#[test]
fn faults_of_copy_lines(rt: HostRuntime) -> Result<(), Fail> {
    for (text, want) in [
        (b"".as_slice(), CopyFault::CopyCount { have: 0 }),
        (
            b"# copy 0 from 1\n# copy 1 from 0\n",
            CopyFault::CopyCount { have: 2 },
        ),
        (
            b"\n\n# copy 1 from 0\n# copy",
            CopyFault::CopyForm { line: 3 },
        ),
        (
            b"# copy 0 from 0\n# copy 0 from 0",
            CopyFault::CopyForm { line: 2 },
        ),
        (b"# copy 0 from 4294967296", CopyFault::CopyForm { line: 1 }),
        (b"# copy 0 of 0", CopyFault::CopyForm { line: 1 }),
        (b"# copy 0 from", CopyFault::CopyForm { line: 1 }),
        (b"# copy 0 from -1", CopyFault::CopyForm { line: 1 }),
        (b"# copy 0 from 0 # x", CopyFault::CopyForm { line: 1 }),
    ] {
        let fault = copies(rt.alloc(), text, 1)?;
        assert_eq!(rt; fault.err().ok_or("a fault")?, want);
    }
    Ok(())
}
