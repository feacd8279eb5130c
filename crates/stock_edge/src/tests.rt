// What no clause can say: what the adapters over the system give and take.
use super::*;
use std::alloc::Global;
use std::fs;
use std::io::{self, ErrorKind, Read, Write};
use std::test::Fail;

const LENGTH: usize = 10_000;

// Bytes that differ from their neighbours.
fn sample(alloc: Global) -> Result<Vec<u8>, Fail> {
    let mut bytes = Vec::new(alloc);
    for place in 0..LENGTH {
        bytes.push((place % 251) as u8)?;
    }
    Ok(bytes)
}

// A stream whose first calls are interrupted, whose next calls pass a byte, and which then fails.
#[derive(Drop)]
struct Unsteady {
    interrupted: u8,
    steady: u8,
}

impl Unsteady {
    fn pass(&mut self) -> io::Result<()> {
        if self.interrupted > 0 {
            self.interrupted -= 1;
            return Err(io::Error::from(ErrorKind::Interrupted));
        }
        if self.steady == 0 {
            return Err(io::Error::from(ErrorKind::Other));
        }
        self.steady -= 1;
        Ok(())
    }
}

impl Read for Unsteady {
    fn read(&mut self, buf: &mut [u8]) -> io::Result<usize> {
        self.pass()?;
        if buf.is_empty() {
            return Ok(0);
        }
        buf[0] = b'a';
        Ok(1)
    }
}

impl Write for Unsteady {
    fn write(&mut self, buf: &[u8]) -> io::Result<usize> {
        self.pass()?;
        Ok(buf.len().min(1))
    }

    fn flush(&mut self) -> io::Result<()> {
        Ok(())
    }
}

#[test]
fn tries_again_where_the_system_was_interrupted(rt: HostRuntime) -> Result<(), Fail> {
    let mut source = RealSource::new(Unsteady {
        interrupted: 3,
        steady: 2,
    });
    let mut buf = [0; 4];
    for want in [Ok(1), Ok(1), Err(Failed)] {
        assert_eq!(rt; source.read(&mut buf), want);
    }
    let mut sink = RealSink::new(Unsteady {
        interrupted: 3,
        steady: 2,
    });
    assert_eq!(rt; write_all(&mut sink, b"ab"), Ok(()));
    assert_eq!(rt; write_all(&mut sink, b"c"), Err(Failed));
    Ok(())
}

#[test]
fn adapts_readers_and_writers(rt: HostRuntime) -> Result<(), Fail> {
    let alloc = rt.alloc();
    let mut source = RealSource::new(b"abc".as_slice());
    let all = read_all(alloc, &mut source, 3)?;
    assert_eq!(rt; all.as_slice(), b"abc".as_slice());
    let mut sink = RealSink::new(io::Cursor::new([0u8; 2]));
    assert_eq!(rt; write_all(&mut sink, b"ab"), Ok(()));
    assert_eq!(rt; write_all(&mut sink, b"c"), Err(Failed));
    Ok(())
}

#[test]
fn reads_files_of_the_system(rt: HostRuntime) -> Result<(), Fail> {
    let alloc = rt.alloc();
    let bytes = sample(alloc)?;
    fs::write(&rt, "ten_thousand_bytes", bytes.as_slice())?;
    let mut files = RealFiles::new(&rt);
    let all = read_file(alloc, &mut files, "ten_thousand_bytes", LENGTH)?;
    assert_eq!(rt; all.as_slice(), bytes.as_slice());
    for (name, place, want) in [
        ("ten_thousand_bytes", 9_998, Ok(2)),
        ("ten_thousand_bytes", 10_001, Ok(0)),
        ("ten_thousand_bytes", u64::MAX, Err(FileFault::Failed)),
        ("none", 0, Err(FileFault::Missing)),
        (".", 0, Err(FileFault::Failed)),
        ("ten_thousand_bytes/none", 0, Err(FileFault::Failed)),
    ] {
        let mut buf = [0; 4];
        let answer = files.read_at(name, place, &mut buf);
        assert_eq!(rt; answer, want, "{name} at {place}");
    }
    fs::remove_file(&rt, "ten_thousand_bytes")?;
    Ok(())
}

#[test]
fn reads_on_in_the_file_that_is_open(rt: HostRuntime) -> Result<(), Fail> {
    fs::write(&rt, "first", b"abcdefgh".as_slice())?;
    fs::write(&rt, "second", b"ABCDEFGH".as_slice())?;
    let mut files = RealFiles::new(&rt);
    let mut buf = [0; 3];
    assert_eq!(rt; files.read_at("first", 0, &mut buf), Ok(3));
    // From here on the name stands for another file.
    fs::rename(&rt, "second", "first")?;
    for (place, want) in [(3, b"def"), (4, b"efg"), (0, b"abc")] {
        assert_eq!(rt;
            files.read_at("first", place, &mut buf),
            Ok(3),
            "at {place}"
        );
        assert_eq!(rt; buf.as_slice(), want.as_slice(), "at {place}");
    }
    // A name that begins another one's is another name.
    assert_eq!(rt; files.read_at("firs", 0, &mut buf), Err(FileFault::Missing));
    assert_eq!(rt; files.read_at("first", 0, &mut buf), Ok(3));
    assert_eq!(rt; buf.as_slice(), b"ABC".as_slice());
    fs::remove_file(&rt, "first")?;
    Ok(())
}
