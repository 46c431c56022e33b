//! The calls with ample memory, and the real files and sinks, of which no clause tells the content.

use pl_base::{NoMemory, Or, Text};
use pl_io::{Failed, MemFiles, MemSink, ReadFault, RealFiles, RealSink, Sink, read_all, write_all};
use std::alloc::Global;
use std::fs::File;
use std::test::Fail;
use std::{env, fs, process};

/// How reading ended, without its bytes.
#[derive(Clone, Copy, Debug, PartialEq, Eq)]
enum Ending {
    Whole,
    TooLong,
    Failed,
    Memory,
}

/// One file of five bytes, of which the calls of these numbers fail.
fn five_bytes(alloc: Global, fails: Vec<u64>) -> Result<MemFiles, NoMemory> {
    let mut names = Vec::new(alloc);
    names.push(Text::of(alloc, b"five")?)?;
    let mut bytes = Vec::new(alloc);
    bytes.push(Vec::from_slice(alloc, b"12345")?)?;
    Ok(MemFiles::new(names, bytes, fails))
}

fn ending_of(read: Result<Vec<u8>, Or<ReadFault>>, want: &[u8]) -> (Ending, bool) {
    match read {
        Ok(bytes) => (Ending::Whole, bytes.as_slice() == want),
        Err(Or::Memory) => (Ending::Memory, want.is_empty()),
        Err(Or::Is(ReadFault::Failed)) => (Ending::Failed, want.is_empty()),
        Err(Or::Is(ReadFault::TooLong(bytes))) => (Ending::TooLong, bytes.items() == want),
    }
}

#[test]
fn reads_under_a_limit_and_with_faults(rt: HostRuntime) -> Result<(), Fail> {
    let rows: [(&[u8], u32, u64, Ending, &[u8]); 6] = [
        (b"five", 4, 0, Ending::TooLong, b"12345"),
        (b"five", 5, 0, Ending::Whole, b"12345"),
        (b"five", 5, 2, Ending::Failed, b""),
        (b"five", 4, 2, Ending::TooLong, b"12345"),
        (b"five", 5, 1, Ending::Failed, b""),
        (b"six", 5, 0, Ending::Failed, b""),
    ];
    for (name, limit, fails, want, bytes) in rows {
        let mut files = five_bytes(rt.alloc(), vec![in rt.alloc(); fails]?)?;
        let read = read_all(rt.alloc(), &mut files, name, limit);
        assert_eq!(rt;
            ending_of(read, bytes),
            (want, true),
            "limit {limit}, failing call {fails}"
        );
    }
    Ok(())
}

#[test]
fn a_sink_takes_what_it_has_room_for(rt: HostRuntime) -> Result<(), Fail> {
    let mut sink = MemSink::new(rt.alloc(), 2, vec![in rt.alloc()]?)?;
    assert_eq!(rt; sink.write(b"a").is_ok(), true);
    assert_eq!(rt; sink.write(b"b").is_ok(), true);
    assert_eq!(rt; sink.write(b"c").is_err(), true);
    assert_eq!(rt; sink.written(), b"ab".as_slice());
    let mut second_fails = MemSink::new(rt.alloc(), 9, vec![in rt.alloc(); 2u64]?)?;
    assert_eq!(rt; write_all(&mut second_fails, b"ab").is_ok(), true);
    assert_eq!(rt; write_all(&mut second_fails, b"c").is_err(), true);
    assert_eq!(rt; second_fails.written(), b"ab".as_slice());
    Ok(())
}

/// A sink that takes one byte of a piece at a time.
#[derive(Drop)]
struct OneByte<K: Sink> {
    sink: K,
}

impl<K: Sink> Sink for OneByte<K> {
    ghost written = { λ s. K.written s.sink };

    ghost faults = { λ s. K.faults s.sink };

    fn write(&mut self, piece: &[u8]) -> Result<usize, Failed> {
        let few = piece.len().min(1);
        self.sink.write(&piece[..few])
    }
}

#[test]
fn a_sink_that_takes_a_byte_at_a_time_is_given_all(rt: HostRuntime) -> Result<(), Fail> {
    let sink = MemSink::new(rt.alloc(), 9, vec![in rt.alloc()]?)?;
    let mut one_byte = OneByte { sink };
    assert_eq!(rt; write_all(&mut one_byte, b"abcd").is_ok(), true);
    assert_eq!(rt; one_byte.sink.written(), b"abcd".as_slice());
    let fourth_fails = MemSink::new(rt.alloc(), 9, vec![in rt.alloc(); 4u64]?)?;
    let mut one_byte = OneByte { sink: fourth_fails };
    assert_eq!(rt; write_all(&mut one_byte, b"abcde").is_err(), true);
    assert_eq!(rt; one_byte.sink.written(), b"abc".as_slice());
    Ok(())
}

#[test]
fn real_files_are_written_and_read(rt: HostRuntime) -> Result<(), Fail> {
    let name = format!(in rt.alloc(); "pl_io-test-{}", process::id(rt.process()))?;
    let folder = env::temp_dir(&rt)?;
    let path = folder.join(rt.alloc(), name.as_str())?;
    let mut sink = RealSink::new(File::create(&rt, path.as_path())?);
    let long = vec![in rt.alloc(); b'x'; 100_000]?;
    let wrote = write_all(&mut sink, &long).is_ok();
    let mut files = RealFiles::new(&rt);
    let text = path.as_str().as_bytes();
    let whole = ending_of(read_all(rt.alloc(), &mut files, text, 100_000), &long);
    let too_long = ending_of(read_all(rt.alloc(), &mut files, text, 99_999), &long);
    fs::remove_file(&rt, path.as_path())?;
    let absent = ending_of(read_all(rt.alloc(), &mut files, text, 9), b"");
    let in_folder = ending_of(
        read_all(rt.alloc(), &mut files, folder.as_str().as_bytes(), 9),
        b"",
    );
    let no_text = ending_of(read_all(rt.alloc(), &mut files, b"\xff", 9), b"");
    assert_eq!(rt; wrote, true);
    assert_eq!(rt; whole, (Ending::Whole, true));
    assert_eq!(rt; too_long, (Ending::TooLong, true));
    assert_eq!(rt;
        (absent, in_folder, no_text),
        (
            (Ending::Failed, true),
            (Ending::Failed, true),
            (Ending::Failed, true)
        )
    );
    Ok(())
}

#[test]
fn a_writer_that_takes_nothing_is_a_fault(rt: HostRuntime) {
    let mut room = [0u8; 2];
    let mut sink = RealSink::new(room.as_mut_slice());
    assert_eq!(rt; write_all(&mut sink, b"ab").is_ok(), true);
    assert_eq!(rt; write_all(&mut sink, b"").is_ok(), true);
    assert_eq!(rt; write_all(&mut sink, b"c").is_err(), true);
}
