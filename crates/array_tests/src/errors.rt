//! One error and its line.

use pl_base::{ErrKind, Place};
use pl_errors::{raise, write_line};
use std::test::Fail;

#[test]
fn line(rt: HostRuntime) -> Result<(), Fail> {
    let alloc = rt.alloc();
    let place = Place {
        line: 2,
        col: 14,
        at: 30,
    };
    let error = raise(alloc, ErrKind::IndexRange, place)?;
    let mut line = Vec::new(alloc);
    write_line(&mut line, &error)?;
    assert_eq!(rt;
        line.as_slice(),
        b"parlab: error E9 IndexRange at 2:14: index past the end\n".as_slice()
    );
    Ok(())
}
