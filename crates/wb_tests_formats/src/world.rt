//! Do the shelf and the sink in memory read and write as they are set to?
//!
//! Expected values follow from their limits. Runs of the program over them are in `wb_tests`.

use std::alloc::{AllocError, Global};
use std::test::Fail;
use wb_world::{Got, MemoryShelf, MemorySink, Put, Shelf, Sink};

// Whether reads of the file below have these results, the fourth a failure.
fn are_read(shelf: &mut MemoryShelf) -> bool {
    let mut buffer = [0; 4];
    let first = shelf.read("h", 0, &mut buffer) == Got::Bytes(4) && buffer == *b"abcd";
    let second = shelf.read("h", 4, &mut buffer) == Got::Bytes(1) && buffer[0] == b'e';
    let third = shelf.read("h", 5, &mut buffer) == Got::Bytes(0);
    let fourth = shelf.read("h", 0, &mut buffer) == Got::Failed;
    let other = shelf.read("t", 0, &mut buffer) == Got::Absent;
    first && second && third && fourth && other
}

fn is_shelf(alloc: Global) -> Result<bool, AllocError> {
    let mut shelf = MemoryShelf::new(alloc);
    shelf.add_file("h", b"abcde")?;
    shelf.fail_at(4)?;
    Ok(are_read(&mut shelf))
}

#[test]
fn reads_give_the_file_from_a_place(rt: HostRuntime) -> Result<(), Fail> {
    assert!(rt; is_shelf(rt.alloc())?);
    Ok(())
}

// Whether writes have these results, the second a failure.
fn are_written(sink: &mut MemorySink) -> bool {
    let first = sink.write(b"abcd") == Put::Took(3);
    let second = sink.write(b"de") == Put::Failed;
    let third = sink.write(b"def") == Put::Took(2);
    let fourth = sink.write(b"f") == Put::Failed;
    first && second && third && fourth && sink.bytes() == b"abcde".as_slice()
}

fn is_sink(alloc: Global) -> Result<bool, AllocError> {
    let mut sink = MemorySink::new(alloc, 5, 3)?;
    sink.fail_at(2)?;
    Ok(are_written(&mut sink))
}

#[test]
fn writes_take_what_the_limits_let_through(rt: HostRuntime) -> Result<(), Fail> {
    assert!(rt; is_sink(rt.alloc())?);
    Ok(())
}
