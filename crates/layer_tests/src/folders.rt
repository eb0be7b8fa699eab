//! Folders and sinks, in memory and real.

use outside::{
    DirFolder, Folder, MemFolder, MemSink, PutEnd, ReadEnd, Sink, StdSink, SureFolder, SureSink,
    Words, read_all,
};
use std::alloc::Global;
use std::fs;
use std::rt::Files;
use std::test::Fail;

// A file's length before it is begun, and its bytes from 3 on after two lines were appended.
fn write_and_read<F: Folder>(folder: &mut F) -> Result<(Option<u64>, usize, [u8; 3]), PutEnd> {
    let mut piece = [0u8; 3];
    let before = folder.size("one.txt")?;
    folder.begin("one.txt")?;
    folder.append("one.txt", b"ab\n")?;
    folder.append("one.txt", b"c\n")?;
    folder.read("one.txt", 0, &mut piece)?;
    let count = folder.read("one.txt", 3, &mut piece)?;
    Ok((before, count, piece))
}

// The first read fills the piece, and the second its first two bytes.
#[test]
fn real_file_is_written_and_read(rt: HostRuntime) -> Result<(), Fail> {
    let found = write_and_read(&mut DirFolder::new(&rt))?;
    fs::remove_file(&rt, "one.txt")?;
    assert_eq!(rt; found, (None, 2, *b"c\n\n"));
    Ok(())
}

// The file's bytes after two folders, one after another, appended to it.
fn append_anew<R: Files + AllocGlobal>(rt: &R) -> Result<(usize, [u8; 4]), PutEnd> {
    let mut folder = DirFolder::new(rt);
    folder.begin("anew.txt")?;
    folder.append("anew.txt", b"ab")?;
    DirFolder::new(rt).append("anew.txt", b"c\n")?;
    let mut bytes = [0u8; 4];
    let count = DirFolder::new(rt).read("anew.txt", 0, &mut bytes)?;
    Ok((count, bytes))
}

// A handle that is opened anew appends behind the bytes that stand.
#[test]
fn new_handle_appends_at_the_end(rt: HostRuntime) -> Result<(), Fail> {
    let found = append_anew(&rt)?;
    fs::remove_file(&rt, "anew.txt")?;
    assert_eq!(rt; found, (4, *b"abc\n"));
    Ok(())
}

// A whole file that fits one piece takes one call for its length and one for its bytes.
#[test]
fn whole_file_takes_two_calls(rt: HostRuntime) -> Result<(), Fail> {
    let mut folder = MemFolder::new(rt.alloc(), Vec::new(rt.alloc()));
    folder.insert("f", b"12345")?;
    let found = read_all(rt.alloc(), &mut folder, "f", 5).is_ok_and(|bytes| bytes.is_some());
    assert_eq!(rt; (found, folder.calls()), (true, 2));
    Ok(())
}

// Adds a thousand lines of five bytes.
fn append_lines<F: Folder>(folder: &mut F, name: &str) -> Result<(), PutEnd> {
    for _ in 0..1_000 {
        folder.append(name, b"line\n")?;
    }
    Ok(())
}

// Adds lines to `old.txt`, asks the length of `new.txt`, and adds a byte. The lengths of both then.
fn lengths<F: Folder>(folder: &mut F) -> Result<(Option<u64>, Option<u64>), PutEnd> {
    append_lines(folder, "old.txt")?;
    let new = folder.size("new.txt")?;
    folder.append("old.txt", b"a")?;
    Ok((folder.size("old.txt")?, new))
}

// The lengths of two files, of which the first was given the second's name before lines were appended.
fn append_and_rename<R: Files + AllocGlobal>(rt: &R) -> Result<(Option<u64>, Option<u64>), Fail> {
    let mut folder = DirFolder::new(rt);
    folder.begin("old.txt")?;
    fs::rename(rt, "old.txt", "new.txt")?;
    Ok(lengths(&mut folder)?)
}

// Appends go on through the handle that `begin` made, so the lines reach the file under its new name. A
// call of another kind lets the handle go, so the next append makes a file of the old name.
#[test]
fn appends_keep_their_handle(rt: HostRuntime) -> Result<(), Fail> {
    let lengths = append_and_rename(&rt)?;
    fs::remove_file(&rt, "old.txt")?;
    fs::remove_file(&rt, "new.txt")?;
    assert_eq!(rt; lengths, (Some(1), Some(5_000)));
    Ok(())
}

// A folder under the name of a file is a failure of the device, at each call.
#[test]
fn folder_is_no_file(rt: HostRuntime) {
    let mut folder = DirFolder::new(&rt);
    let size = folder.size(".").err();
    let read = folder.read(".", 0, &mut [0]).err();
    let begin = folder.begin(".").err();
    let append = folder.append(".", b"a").err();
    let failed = Some(PutEnd::Failed);
    assert_eq!(rt;
        (size, read, begin, append),
        (failed, failed, failed, failed)
    );
}

#[test]
fn standard_streams_take_bytes(rt: HostRuntime) -> Result<(), Fail> {
    StdSink::out(&rt).put(b"out\n")?;
    StdSink::err(&rt).put(b"err\n")?;
    Ok(())
}

// Begins a file and appends to it twice. The refusal of the first append.
fn begin_and_append<F: Folder>(folder: &mut F) -> Result<Option<PutEnd>, PutEnd> {
    folder.begin("f")?;
    let refusal = folder.append("f", b"12345").err();
    folder.append("f", b"6")?;
    Ok(refusal)
}

// Puts two texts. The refusal of the first.
fn put_twice<S: Sink>(sink: &mut S) -> Result<Option<PutEnd>, PutEnd> {
    let refusal = sink.put(b"abc").err();
    sink.put(b"d")?;
    Ok(refusal)
}

// The second call of the folder fails, after half of the bytes.
#[test]
fn listed_call_of_a_folder_fails(rt: HostRuntime) -> Result<(), Fail> {
    let mut folder = MemFolder::new(rt.alloc(), vec![in rt.alloc(); 2]?);
    assert_eq!(rt; begin_and_append(&mut folder)?, Some(PutEnd::Failed));
    assert!(rt; folder.file("f") == Some(b"126".as_slice()));
    Ok(())
}

// The first call of the sink fails, after half of the bytes.
#[test]
fn listed_call_of_a_sink_fails(rt: HostRuntime) -> Result<(), Fail> {
    let mut sink = MemSink::new(rt.alloc(), vec![in rt.alloc(); 1]?);
    assert_eq!(rt; put_twice(&mut sink)?, Some(PutEnd::Failed));
    assert_eq!(rt; sink.bytes(), b"ad".as_slice());
    Ok(())
}

// Whether the file is read whole.
fn is_read<F: Folder>(
    alloc: Global,
    folder: &mut F,
    limit: u64,
    text: &[u8],
) -> Result<bool, ReadEnd> {
    Ok(match read_all(alloc, folder, "f", limit)? {
        Some(bytes) => bytes.as_slice() == text,
        None => false,
    })
}

// A file of two pieces is read whole at its very length, and not below it.
#[test]
fn whole_file_is_read(rt: HostRuntime) -> Result<(), Fail> {
    let text = vec![in rt.alloc(); b'a'; 70_000]?;
    let mut folder = SureFolder::new(rt.alloc());
    folder.insert("f", &text)?;
    assert!(rt; is_read(rt.alloc(), &mut folder, 70_000, &text)?);
    let long = is_read(rt.alloc(), &mut folder, 69_999, &text);
    assert_eq!(rt; long.err(), Some(ReadEnd::TooLong { len: 70_000 }));
    Ok(())
}

#[test]
fn words_are_kept(rt: HostRuntime) -> Result<(), Fail> {
    let mut words = Words::new(rt.alloc());
    words.push("first")?;
    assert_eq!(rt; words.word(0), "first");
    Ok(())
}

#[test]
fn bytes_are_kept(rt: HostRuntime) -> Result<(), Fail> {
    let mut sink = SureSink::new(rt.alloc());
    assert_eq!(rt; put_twice(&mut sink)?, None);
    assert_eq!(rt; sink.bytes(), b"abcd".as_slice());
    Ok(())
}
