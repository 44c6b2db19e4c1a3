use crate::faults::CallFault;
use crate::told_files::ToldFiles;
use crate::whole_files::{load_file, replace_file};
use crate::{
    DirFolder, Failed, Folder, LoadFault, MemFolder, MemSink, MemSource, ReadRefusal, Sink,
    SinkFault, Source, StdErr, StdSink, StdSource, SureFolder, SureSink, SureSource, read_all,
    write_all,
};
use std::alloc::{AllocError, Global};
use std::io::{Read, Write};
use std::process::Abort;
use std::test::Fail;
use std::{fs, io};

// Reads all of it in pieces of two bytes, through the trait.
fn pieces<S: Source>(rt: &impl Abort, source: &mut S, wanted: &[Result<&str, Failed>]) {
    for piece in wanted {
        let mut into = [0; 2];
        let got = source.read(&mut into);
        assert_eq!(rt; got, piece.map(|text| text.len()));
        if let (Ok(count), Ok(text)) = (got, piece) {
            assert_eq!(rt; into.get(..count), Some(text.as_bytes()));
        }
    }
}

fn named(alloc: Global, files: &[(&str, &[u8])]) -> Result<Vec<(String, Vec<u8>)>, Fail> {
    let mut all = Vec::new(alloc);
    for (name, bytes) in files {
        all.push((String::from_str(alloc, name)?, bytes.to_vec(alloc)?))?;
    }
    Ok(all)
}

fn calls(alloc: Global, numbers: &[u64]) -> Result<Vec<u64>, AllocError> {
    numbers.to_vec(alloc)
}

#[test]
fn a_source_gives_its_bytes_and_then_none(rt: HostRuntime) -> Result<(), Fail> {
    let alloc = rt.alloc();
    let mut sure = SureSource::new(b"abc".to_vec(alloc)?);
    pieces(&rt, &mut sure, &[Ok("ab"), Ok("c"), Ok(""), Ok("")]);
    let mut mem = MemSource::new(b"abc".to_vec(alloc)?, calls(alloc, &[0, 2])?);
    pieces(
        &rt,
        &mut mem,
        &[Err(Failed), Ok("ab"), Err(Failed), Ok("c"), Ok("")],
    );
    Ok(())
}

#[test]
fn a_source_is_read_to_its_end(rt: HostRuntime) -> Result<(), Fail> {
    let alloc = rt.alloc();
    // The limit, the call that fails, what is answered and what is left.
    let rows: [(usize, u64, Result<&[u8], ReadRefusal>, usize); 7] = [
        (3, 9, Ok(b"abc"), 0),
        (9000, 9, Ok(b"abc"), 0),
        (2, 9, Err(ReadRefusal::TooLong), 0),
        (1, 9, Err(ReadRefusal::TooLong), 1),
        (0, 9, Err(ReadRefusal::TooLong), 2),
        (3, 0, Err(ReadRefusal::Failed), 3),
        (3, 1, Err(ReadRefusal::Failed), 0),
    ];
    for (limit, fails, wanted, left) in rows {
        let mut source = MemSource::new(b"abc".to_vec(alloc)?, calls(alloc, &[fails])?);
        let got = read_all(alloc, &mut source, limit);
        assert_eq!(rt; got.as_deref(), wanted.as_deref());
        let mut rest = [0; 8];
        assert_eq!(rt; source.read(&mut rest), Ok(left), "after the limit {limit}");
    }
    let long = vec![in alloc; b'x'; 10_000]?;
    let mut source = SureSource::new(long);
    let bytes = read_all(alloc, &mut source, 10_000).ok().ok_or("no bytes")?;
    assert_eq!(rt; bytes.len(), 10_000);
    Ok(())
}

#[test]
fn a_sink_keeps_what_it_took(rt: HostRuntime) -> Result<(), Fail> {
    let alloc = rt.alloc();
    let mut sure = SureSink::new(alloc);
    assert_eq!(rt; write_all(&mut sure, b"one "), Ok(()));
    assert_eq!(rt; sure.write(b"two"), Ok(3));
    assert_eq!(rt; sure.bytes(), b"one two".as_slice());
    let mut mem = MemSink::new(alloc, calls(alloc, &[0])?);
    assert_eq!(rt; write_all(&mut mem, b"lost"), Err(SinkFault::Failed));
    assert_eq!(rt; write_all(&mut mem, b"kept"), Ok(()));
    assert_eq!(rt; mem.bytes(), b"kept".as_slice());
    Ok(())
}

// What a folder does with a file `b` of four bytes and no file `c`.
fn loads<F: Folder>(rt: &impl Abort, folder: &mut F) -> Result<(), Fail> {
    assert!(rt; folder.load("c", 9) == Ok(None));
    assert!(rt; folder.load("b", 3) == Err(LoadFault::TooLong));
    let found = folder.load("b", 4).ok().flatten().ok_or("no file b")?;
    assert_eq!(rt; found.as_slice(), b"last".as_slice());
    assert_eq!(rt; folder.replace("c", b"new"), Ok(()));
    assert_eq!(rt; folder.replace("c", b"newer"), Ok(()));
    let found = folder.load("c", 5).ok().flatten().ok_or("no file c")?;
    assert_eq!(rt; found.as_slice(), b"newer".as_slice());
    Ok(())
}

#[test]
fn the_last_of_two_files_counts(rt: HostRuntime) -> Result<(), Fail> {
    let alloc = rt.alloc();
    let files: [(&str, &[u8]); 3] = [("b", b"first"), ("a", b""), ("b", b"last")];
    let mut sure = SureFolder::new(alloc, named(alloc, &files)?);
    loads(&rt, &mut sure)?;
    assert_eq!(rt; sure.get("b"), Some(b"last".as_slice()));
    let mut mem = MemFolder::new(alloc, named(alloc, &files)?, calls(alloc, &[])?);
    loads(&rt, &mut mem)?;
    assert_eq!(rt; mem.get("a"), Some(b"".as_slice()));
    assert_eq!(rt; mem.get("x"), None);
    Ok(())
}

#[test]
fn loads_and_replaces_are_numbered_together(rt: HostRuntime) -> Result<(), Fail> {
    let alloc = rt.alloc();
    let mut mem = MemFolder::new(
        alloc,
        named(alloc, &[("a", b"old")])?,
        calls(alloc, &[1, 2])?,
    );
    assert_eq!(rt; mem.replace("b", b"two"), Ok(()));
    assert_eq!(rt; mem.replace("a", b"new"), Err(SinkFault::Failed));
    assert!(rt; mem.load("a", 9) == Err(LoadFault::Failed));
    assert_eq!(rt; mem.replace("c", b"three"), Ok(()));
    assert_eq!(rt; mem.get("a"), Some(b"old".as_slice()));
    assert_eq!(rt; mem.get("c"), Some(b"three".as_slice()));
    Ok(())
}

// Fails every other call, and a write of `x` takes nothing.
#[derive(Drop)]
struct Flaky {
    fails: bool,
    taken: usize,
}

impl Flaky {
    fn turn(&mut self) -> io::Result<()> {
        self.fails = !self.fails;
        if self.fails {
            return Err(io::Error::from(io::ErrorKind::BrokenPipe));
        }
        Ok(())
    }
}

impl Read for Flaky {
    fn read(&mut self, buf: &mut [u8]) -> io::Result<usize> {
        self.turn()?;
        let Some(first) = buf.first_mut() else {
            return Ok(0);
        };
        *first = b'x';
        Ok(1)
    }
}

impl Write for Flaky {
    fn write(&mut self, buf: &[u8]) -> io::Result<usize> {
        self.turn()?;
        if buf == b"x".as_slice() {
            return Ok(0);
        }
        self.taken = self.taken.saturating_add(buf.len());
        Ok(buf.len())
    }

    fn flush(&mut self) -> io::Result<()> {
        Ok(())
    }
}

fn make_flaky() -> Flaky {
    Flaky {
        fails: false,
        taken: 0,
    }
}

#[test]
fn a_reader_is_a_source(rt: HostRuntime) {
    let mut whole = StdSource::new(b"abc".as_slice());
    pieces(&rt, &mut whole, &[Ok("ab"), Ok("c"), Ok("")]);
    let mut broken = StdSource::new(make_flaky());
    pieces(
        &rt,
        &mut broken,
        &[Err(Failed), Ok("x"), Err(Failed), Ok("x")],
    );
}

#[test]
fn a_writer_is_a_sink(rt: HostRuntime) {
    let mut out = StdSink::new(rt.stdout());
    assert_eq!(rt; write_all(&mut out, b"to output\n"), Ok(()));
    let mut broken = StdSink::new(make_flaky());
    assert_eq!(rt; broken.write(b"ab"), Err(SinkFault::Failed));
    assert_eq!(rt; broken.write(b"ab"), Ok(2));
    assert_eq!(rt; broken.write(b""), Err(SinkFault::Failed));
    assert_eq!(rt; broken.write(b"x"), Err(SinkFault::Failed));
}

#[test]
fn standard_error_is_a_sink(rt: HostRuntime) {
    let mut err = StdErr::new(rt.stderr());
    assert_eq!(rt; write_all(&mut err, b"to error\n"), Ok(()));
    let mut broken = StdErr::new(make_flaky());
    assert_eq!(rt; write_all(&mut broken, b"ab"), Err(SinkFault::Failed));
    assert_eq!(rt; write_all(&mut broken, b"ab"), Ok(()));
}

#[test]
fn the_current_folder_is_a_folder(rt: HostRuntime) -> Result<(), Fail> {
    let alloc = rt.alloc();
    let _ = fs::remove_file(&rt, "c");
    let mut folder = DirFolder::new(alloc, &rt);
    assert_eq!(rt; folder.replace("b", b"last"), Ok(()));
    loads(&rt, &mut folder)?;
    let long = vec![in alloc; 7u8; 300_000]?;
    assert_eq!(rt; folder.replace("b", &long), Ok(()));
    assert!(rt; folder.load("b", 299_999) == Err(LoadFault::TooLong));
    let found = folder.load("b", 300_000).ok().flatten().ok_or("no file b")?;
    assert!(rt; found.as_slice() == long.as_slice());
    assert!(rt; folder.load(".", 9) == Err(LoadFault::Failed));
    assert_eq!(rt; folder.replace("no/b", b""), Err(SinkFault::Failed));
    fs::remove_file(&rt, "b")?;
    fs::remove_file(&rt, "c")?;
    Ok(())
}

#[test]
fn a_replaced_file_is_the_old_or_the_new(rt: HostRuntime) -> Result<(), Fail> {
    let alloc = rt.alloc();
    // The call that fails (0 to 3 put the old file), its fault, and what the second replace
    // answers.
    let rows = [
        (4, CallFault::Failed, Err(SinkFault::Failed)),
        (5, CallFault::Failed, Err(SinkFault::Failed)),
        (5, CallFault::Interrupted, Ok(())),
        (6, CallFault::Failed, Err(SinkFault::Failed)),
        (7, CallFault::Failed, Err(SinkFault::Failed)),
        (7, CallFault::NoMemory, Err(SinkFault::NoMemory)),
        (99, CallFault::Failed, Ok(())),
    ];
    for (call, fault, answer) in rows {
        let mut files = ToldFiles::new(alloc, calls(alloc, &[call])?, fault);
        assert_eq!(rt; replace_file(alloc, &mut files, "a", b"old"), Ok(()));
        assert_eq!(rt; replace_file(alloc, &mut files, "a", b"new"), answer);
        let found = load_file(alloc, &mut files, "a", 3)
            .ok()
            .flatten()
            .ok_or("no file a")?;
        let kept = if answer.is_ok() { b"new" } else { b"old" };
        assert_eq!(rt; found.as_slice(), kept.as_slice());
        assert!(rt; load_file(alloc, &mut files, "a.new", 3) == Ok(None));
    }
    Ok(())
}
