//! A test of `read_line`, which reads a single line. The forms of lines are tested by the table
//! `cases/play/line_forms.table`.
use std::alloc::Global;
use till_request::devices::MemoryIn;
use till_request::line::read_line;
use till_request::{Act, Request, Role};

/// Reads a till's line, with at most 100 reads. Returns the line's act, and how many of the 100 reads are left. Returns
/// `None` if memory ran out or the line can't be read.
fn read(alloc: Global) -> Option<(Option<Act>, u32)> {
    let bytes = Vec::from_slice(alloc, b"till 1 open 1\n").ok()?;
    let mut input = MemoryIn::new(bytes, Vec::new(alloc), None);
    let mut left = 100;
    let act = read_line(alloc, Role::Till, &mut input, &mut left).ok()?;
    Some((act, left))
}

#[test]
fn a_line_is_read(rt: HostRuntime) {
    let request = Request::OpenPoint(1);
    assert!(rt; read(rt.alloc()) == Some((Some(Act::Till { till: 1, request }), 86)));
}
