//! What the adapters do where no clause speaks, and one call of each that takes memory.

use crate::{
    Feed, FileFeed, FileSink, FileSource, MemFeed, MemSink, MemSource, NullSink, ReadWhy, Sink,
    Source, StdoutSink, WriteFault, read_all, read_feed, write_all,
};
use ntx_num::Fail;
use std::alloc::Global;
use std::fs;
use std::test::Fail as TestFail;

fn three_bytes(alloc: Global, fails: &[u64]) -> Result<MemSource, TestFail> {
    Ok(MemSource::new([7, 8, 9].to_vec(alloc)?, fails.to_vec(alloc)?))
}

#[test]
fn reading_to_the_end_stops_past_the_limit(rt: HostRuntime) -> Result<(), TestFail> {
    let alloc = rt.alloc();
    let whole = read_all(alloc, &mut three_bytes(alloc, &[])?, 3)?;
    assert_eq!(rt; whole.as_slice(), [7, 8, 9].as_slice());
    let over = read_all(alloc, &mut three_bytes(alloc, &[])?, 2);
    assert_eq!(rt; over.err(), Some(Fail::Is(ReadWhy::TooLarge)));
    let second_fails = read_all(alloc, &mut three_bytes(alloc, &[2])?, 3);
    assert_eq!(rt; second_fails.err(), Some(Fail::Is(ReadWhy::ReadFault)));
    Ok(())
}

fn three_bytes_named_ntx(alloc: Global) -> Result<Box<dyn Feed>, TestFail> {
    let name = String::from_str(alloc, "ntx")?;
    let bytes = [7, 8, 9].to_vec(alloc)?;
    Ok(Box::new(alloc, MemFeed::new(name, bytes, Vec::new(alloc)))?)
}

#[test]
fn a_feed_is_read_as_a_source_is(rt: HostRuntime) -> Result<(), TestFail> {
    let alloc = rt.alloc();
    let mut feed = three_bytes_named_ntx(alloc)?;
    assert_eq!(rt; feed.name(), "ntx");
    assert_eq!(rt;
        read_feed(alloc, &mut *feed, 3)?.as_slice(),
        [7, 8, 9].as_slice()
    );
    assert_eq!(rt; read_feed(alloc, &mut *feed, 3)?.len(), 0);
    let over = read_feed(alloc, &mut *three_bytes_named_ntx(alloc)?, 2);
    assert_eq!(rt; over.err(), Some(Fail::Is(ReadWhy::TooLarge)));
    Ok(())
}

#[test]
fn a_feed_over_a_file_is_named_after_it(rt: HostRuntime) -> Result<(), TestFail> {
    let alloc = rt.alloc();
    for (path, name) in [
        ("x/cmr10.tfm", "cmr10"),
        ("cmr10", "cmr10"),
        ("a.tfm/b", "b"),
        ("a/b.tfm.tfm", "b.tfm"),
        ("a/.tfm", ""),
        ("a/", ""),
        ("", ""),
    ] {
        let mut feed = FileFeed::open(&rt, alloc, path)?;
        assert_eq!(rt; feed.name(), name, "{path}");
        assert!(rt; feed.read(&mut [0u8; 4]).is_err());
    }
    let path = "ntx_io_font.tfm";
    assert_eq!(rt; write_all(&mut FileSink::create(&rt, path), b"tfm"), Ok(()));
    let mut feed = FileFeed::open(&rt, alloc, path)?;
    let read = read_feed(alloc, &mut feed, 3);
    fs::remove_file(&rt, path)?;
    assert_eq!(rt; read?.as_slice(), b"tfm".as_slice());
    Ok(())
}

#[test]
fn a_sink_in_memory_takes_what_it_has_room_for(rt: HostRuntime) -> Result<(), TestFail> {
    let alloc = rt.alloc();
    let mut sink = MemSink::new(alloc, 2, Vec::new(alloc))?;
    assert_eq!(rt; sink.write(&[7, 8, 9]).ok(), Some(2));
    assert_eq!(rt; sink.write(&[9]).ok(), None);
    assert_eq!(rt; sink.taken(), [7, 8].as_slice());
    Ok(())
}

#[test]
fn a_text_is_written_whole_or_up_to_the_fault(rt: HostRuntime) -> Result<(), TestFail> {
    let alloc = rt.alloc();
    let mut sink = MemSink::new(alloc, 4, Vec::new(alloc))?;
    assert_eq!(rt; write_all(&mut sink, &[1, 2, 3]), Ok(()));
    assert_eq!(rt; write_all(&mut sink, &[4, 5]), Err(WriteFault));
    assert_eq!(rt; sink.taken(), [1, 2, 3, 4].as_slice());
    assert_eq!(rt; write_all(&mut NullSink::new(), &[1, 2, 3]), Ok(()));
    Ok(())
}

#[test]
fn a_file_gives_back_what_was_written(rt: HostRuntime) -> Result<(), TestFail> {
    let path = "ntx_io_written.bin";
    assert_eq!(rt; write_all(&mut FileSink::create(&rt, path), b"ntx"), Ok(()));
    let read = read_all(rt.alloc(), &mut FileSource::open(&rt, path), 3);
    fs::remove_file(&rt, path)?;
    assert_eq!(rt; read?.as_slice(), b"ntx".as_slice());
    Ok(())
}

#[test]
fn a_file_that_is_not_there_fails_at_each_call(rt: HostRuntime) {
    let missing = "no such folder/ntx";
    assert!(rt; FileSource::open(&rt, missing).read(&mut [0u8; 4]).is_err());
    assert!(rt; FileSink::create(&rt, missing).write(b"ntx").is_err());
}

#[test]
fn standard_output_takes_a_text(rt: HostRuntime) {
    assert_eq!(rt; write_all(&mut StdoutSink::new(&rt), b"written\n"), Ok(()));
}
