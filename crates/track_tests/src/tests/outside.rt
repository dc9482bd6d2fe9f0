//! Sources, sinks and worlds, in memory and over the real files and streams.
use outside_io::{
    Failed, FileSink, FileSource, FileWorld, MemFile, MemSink, MemSource, MemWorld, OpenFault,
    ReaderSource, Sink, Sinks, Source, World, WriterSink, write_whole,
};
use std::alloc::{AllocError, Global};
use std::io::{ErrorKind, Read, Write};
use std::process::Abort;
use std::test::Fail;
use std::{fs, io};

fn source_of(
    alloc: Global,
    bytes: &[u8],
    cuts: &[u32],
    fail: &[u64],
) -> Result<MemSource, AllocError> {
    Ok(MemSource {
        bytes: bytes.to_vec(alloc)?,
        cuts: cuts.to_vec(alloc)?,
        fail: fail.to_vec(alloc)?,
        at: 0,
        calls: 0,
        faults: 0,
    })
}

fn sink_of(alloc: Global, room: usize, takes: &[u32], fail: &[u64]) -> Result<MemSink, AllocError> {
    MemSink::new(alloc, room, takes.to_vec(alloc)?, fail.to_vec(alloc)?)
}

// Reads seven bytes by a buffer of four.
#[test]
fn a_source_gives_its_bytes_in_pieces(rt: HostRuntime) -> Result<(), Fail> {
    let alloc = rt.alloc();
    let cases: [(&[u32], &[u64], [Result<usize, Failed>; 5], u64); 4] = [
        (&[], &[], [Ok(4), Ok(3), Ok(0), Ok(0), Ok(0)], 0),
        (&[0, 2, 9], &[], [Ok(1), Ok(2), Ok(4), Ok(0), Ok(0)], 0),
        (
            &[3, 1],
            &[1, 2],
            [Ok(3), Err(Failed), Err(Failed), Ok(4), Ok(0)],
            2,
        ),
        (
            &[],
            &[0, 3],
            [Err(Failed), Ok(4), Ok(3), Err(Failed), Ok(0)],
            2,
        ),
    ];
    for (cuts, fail, answers, faults) in cases {
        let mut source = source_of(alloc, b"abcdefg", cuts, fail)?;
        let mut got = Vec::new(alloc);
        for answer in answers {
            let mut buf = [0u8; 4];
            let count = source.read(&mut buf);
            if let Ok(count) = count {
                got.extend_from_slice(&buf[..count])?;
            }
            assert_eq!(rt; count, answer);
        }
        assert_eq!(rt; got.as_slice(), b"abcdefg".as_slice());
        assert_eq!(rt; source.faults, faults);
    }
    let mut past = source_of(alloc, b"a", &[], &[1, 2])?;
    assert_eq!(rt; past.read(&mut [0; 2]), Ok(1));
    assert_eq!(rt; past.read(&mut [0; 2]), Err(Failed));
    assert_eq!(rt; past.read(&mut [0; 2]), Err(Failed));
    assert_eq!(rt; past.at, 1);
    let mut unread = source_of(alloc, b"abc", &[], &[])?;
    assert_eq!(rt; unread.read(&mut []), Ok(0));
    assert_eq!(rt; unread.at, 0);
    Ok(())
}

#[test]
fn a_sink_takes_what_its_lists_and_its_room_say(rt: HostRuntime) -> Result<(), Fail> {
    let mut sink = sink_of(rt.alloc(), 6, &[2, 0, 3], &[3])?;
    let calls: [(&[u8], Result<usize, Failed>, &[u8], u64); 7] = [
        (b"abcd", Ok(2), b"ab", 0),
        (b"cd", Err(Failed), b"ab", 1),
        (b"cdef", Ok(3), b"abcde", 1),
        (b"f", Err(Failed), b"abcde", 2),
        (b"fg", Err(Failed), b"abcde", 3),
        (b"f", Ok(1), b"abcdef", 3),
        (b"", Ok(0), b"abcdef", 3),
    ];
    for (piece, answer, taken, faults) in calls {
        assert_eq!(rt; sink.write(piece), answer);
        assert_eq!(rt; sink.taken.as_slice(), taken);
        assert_eq!(rt; sink.faults, faults);
    }
    Ok(())
}

#[test]
fn a_text_is_written_whole_over_short_writes(rt: HostRuntime) -> Result<(), Fail> {
    let cases: [(&[u32], &[u64], Result<(), Failed>, &[u8], u64); 4] = [
        (&[], &[], Ok(()), b"abcdef", 1),
        (&[1, 2], &[], Ok(()), b"abcdef", 3),
        (&[1, 2], &[2], Err(Failed), b"abc", 3),
        (&[4, 0], &[], Err(Failed), b"abcd", 2),
    ];
    for (takes, fail, answer, taken, calls) in cases {
        let mut sink = sink_of(rt.alloc(), 6, takes, fail)?;
        assert_eq!(rt; write_whole(&mut sink, b"abcdef"), answer);
        assert_eq!(rt; sink.taken.as_slice(), taken);
        assert_eq!(rt; sink.calls, calls);
    }
    Ok(())
}

fn file_of(alloc: Global, name: &str, bytes: &[u8], fail: &[u64]) -> Result<MemFile, AllocError> {
    Ok(MemFile {
        name: String::from_str(alloc, name)?,
        source: source_of(alloc, bytes, &[], fail)?,
    })
}

fn world_of(alloc: Global) -> Result<MemWorld, AllocError> {
    let mut files = Vec::new(alloc);
    files.push(file_of(alloc, "north", b"one", &[])?)?;
    files.push(file_of(alloc, "south", b"two", &[0])?)?;
    files.push(file_of(alloc, "north", b"six", &[])?)?;
    Ok(MemWorld {
        files,
        fail: [1].to_vec(alloc)?,
        opens: 0,
        opened: 0,
        faults: 0,
    })
}

#[test]
fn a_world_opens_the_first_of_equal_names(rt: HostRuntime) -> Result<(), Fail> {
    let alloc = rt.alloc();
    let mut world = world_of(alloc)?;
    let cases: [(&str, Result<&[u8], OpenFault>, u64); 5] = [
        ("north", Ok(b"one"), 0),
        ("north", Err(OpenFault::Failed), 1),
        ("west", Err(OpenFault::NoSuch), 1),
        ("north", Ok(b"one"), 1),
        ("south", Ok(b"two"), 1),
    ];
    for (name, answer, faults) in cases {
        match world.open(alloc, name) {
            Ok(feed) => {
                assert_eq!(rt; Ok(feed.bytes.as_slice()), answer);
                world.close(feed);
            }
            Err(fault) => assert_eq!(rt; Err(fault), answer),
        }
        assert_eq!(rt; world.faults, faults);
    }
    Ok(())
}

#[test]
fn a_close_counts_a_source_that_failed(rt: HostRuntime) -> Result<(), Fail> {
    let alloc = rt.alloc();
    let mut world = world_of(alloc)?;
    world.opens = 2;
    for faults in 1..3 {
        let mut feed = world.open(alloc, "south").ok().ok_or("south")?;
        assert_eq!(rt; feed.read(&mut [0]), Err(Failed));
        assert_eq!(rt; feed.read(&mut [0]), Ok(1));
        world.close(feed);
        assert_eq!(rt; world.faults, faults);
    }
    Ok(())
}

#[test]
fn a_world_in_memory_counts_its_open_feeds(rt: HostRuntime) -> Result<(), Fail> {
    let alloc = rt.alloc();
    let mut world = world_of(alloc)?;
    assert_eq!(rt; world.opened, 0);
    let north = world.open(alloc, "north").ok().ok_or("north")?;
    assert_eq!(rt; world.opened, 1);
    assert_eq!(rt; world.open(alloc, "north").err(), Some(OpenFault::Failed));
    assert_eq!(rt; world.open(alloc, "west").err(), Some(OpenFault::NoSuch));
    assert_eq!(rt; world.opened, 1);
    let south = world.open(alloc, "south").ok().ok_or("south")?;
    assert_eq!(rt; world.opened, 2);
    world.close(north);
    assert_eq!(rt; world.opened, 1);
    world.close(south);
    assert_eq!(rt; world.opened, 0);
    Ok(())
}

#[test]
fn a_reader_gives_its_bytes_in_pieces(rt: HostRuntime) -> Result<(), Fail> {
    let bytes: &[u8] = b"abcde";
    let mut source = ReaderSource {
        reader: bytes,
        faults: 0,
    };
    let reads: [(usize, &[u8]); 3] = [(3, b"abc"), (2, b"dec"), (0, b"dec")];
    let mut buf = [0; 3];
    for (count, got) in reads {
        assert_eq!(rt; source.read(&mut buf), Ok(count));
        assert_eq!(rt; buf.as_slice(), got);
    }
    assert_eq!(rt; source.faults, 0);
    Ok(())
}

#[test]
fn a_writer_that_is_full_has_failed(rt: HostRuntime) -> Result<(), Fail> {
    let mut room = [0; 5];
    let mut sink = WriterSink {
        writer: room.as_mut_slice(),
        faults: 0,
    };
    let writes: [(&[u8], Result<usize, Failed>, u64); 5] = [
        (b"abc", Ok(3), 0),
        (b"defg", Ok(2), 0),
        (b"", Ok(0), 0),
        (b"fg", Err(Failed), 1),
        (b"fg", Err(Failed), 2),
    ];
    for (piece, answer, faults) in writes {
        assert_eq!(rt; sink.write(piece), answer);
        assert_eq!(rt; sink.faults, faults);
    }
    assert_eq!(rt; room.as_slice(), b"abcde".as_slice());
    Ok(())
}

#[test]
fn a_text_is_written_whole_to_a_writer(rt: HostRuntime) -> Result<(), Fail> {
    let mut sink = WriterSink {
        writer: Vec::new(rt.alloc()),
        faults: 0,
    };
    assert_eq!(rt; write_whole(&mut sink, b"abc"), Ok(()));
    assert_eq!(rt; write_whole(&mut sink, b"de"), Ok(()));
    assert_eq!(rt; sink.writer.as_slice(), b"abcde".as_slice());
    assert_eq!(rt; sink.faults, 0);
    Ok(())
}

#[test]
fn a_file_is_read_and_a_folder_fails(rt: HostRuntime) -> Result<(), Fail> {
    let alloc = rt.alloc();
    fs::write(&rt, "feed", b"abc")?;
    fs::create_dir(&rt, "folder")?;
    let mut world = FileWorld::new(rt);
    let mut buf = [0; 4];
    let mut file = world.open(alloc, "feed").ok().ok_or("feed")?;
    assert_eq!(rt; file.read(&mut buf), Ok(3));
    assert_eq!(rt; buf.as_slice(), b"abc\0".as_slice());
    assert_eq!(rt; file.read(&mut buf), Ok(0));
    world.close(file);
    assert_eq!(rt; world.faults, 0);
    let mut folder = world.open(alloc, "folder").ok().ok_or("folder")?;
    assert_eq!(rt; folder.read(&mut buf), Err(Failed));
    assert_eq!(rt; folder.faults, 1);
    world.close(folder);
    assert_eq!(rt; world.faults, 1);
    assert_eq!(rt; world.open(alloc, "nowhere").err(), Some(OpenFault::Failed));
    assert_eq!(rt; world.faults, 2);
    Ok(())
}

/// The name's file has these bytes left, and then no more.
fn expect_left(rt: &impl Abort, file: &mut FileSource, bytes: &[u8], name: &str) {
    let mut buf = [0; 32];
    match file.read(&mut buf) {
        Ok(count) => assert_eq!(rt; buf.get(..count), Some(bytes), "of {name:?}"),
        Err(_) => panic!(rt; "no bytes of {name:?}"),
    }
    assert_eq!(rt; file.read(&mut buf), Ok(0), "at the end of {name:?}");
}

/// Blanks and tabs at the ends of a name, and letters of either case, are part of it.
#[test]
fn names_are_taken_as_they_stand(rt: HostRuntime) -> Result<(), Fail> {
    let alloc = rt.alloc();
    let names = [
        "feed", "feed ", " feed", "feed\t", "\tfeed", "\tfeed ", " ", "\t", "Feed", "feed.ast",
        "fe ed",
    ];
    for name in names {
        fs::write(&rt, name, name.as_bytes())?;
    }
    let mut world = FileWorld::new(rt);
    for name in names {
        match world.open(alloc, name) {
            Ok(mut file) => {
                expect_left(&rt, &mut file, name.as_bytes(), name);
                world.close(file);
            }
            Err(_) => panic!(rt; "no file {name:?}"),
        }
    }
    assert_eq!(rt; (world.opened, world.faults), (0, 0));
    Ok(())
}

/// A name of no file is a failure of the world, each time that it is opened; nothing is made by that.
#[test]
fn names_that_cannot_be_opened(rt: HostRuntime) -> Result<(), Fail> {
    let alloc = rt.alloc();
    fs::write(&rt, "lone", b"abc")?;
    let mut world = FileWorld::new(rt);
    let names = [
        "",
        "nowhere",
        "nowhere",
        "lone ",
        " lone",
        "lone/",
        "lone/lone",
        "nowhere/lone",
        "fe\0ed",
        "lone\0",
    ];
    for name in names {
        let before = world.faults;
        assert_eq!(rt;
            world.open(alloc, name).err(),
            Some(OpenFault::Failed),
            "{name:?}"
        );
        assert_eq!(rt; world.faults, before.saturating_add(1), "{name:?}");
    }
    assert_eq!(rt; (world.opened, world.faults), (0, 10));
    Ok(())
}

#[test]
fn the_open_files_are_counted(rt: HostRuntime) -> Result<(), Fail> {
    let alloc = rt.alloc();
    fs::write(&rt, "feed", b"abc")?;
    let mut world = FileWorld::new(rt);
    assert_eq!(rt; world.opened, 0);
    let first = world.open(alloc, "feed").ok().ok_or("feed")?;
    let second = world.open(alloc, "feed").ok().ok_or("feed")?;
    assert_eq!(rt; world.opened, 2);
    assert_eq!(rt; world.open(alloc, "nowhere").err(), Some(OpenFault::Failed));
    assert_eq!(rt; world.opened, 2);
    world.close(first);
    assert_eq!(rt; world.opened, 1);
    world.close(second);
    assert_eq!(rt; world.opened, 0);
    world.opened = u64::MAX;
    assert_eq!(rt; world.open(alloc, "feed").err(), Some(OpenFault::NoMemory));
    assert_eq!(rt; (world.opened, world.faults), (u64::MAX, 1));
    Ok(())
}

/// Sixteen files are open at once, one of them twice, and each gives its own bytes in its own time.
#[test]
fn many_files_are_open_at_once(rt: HostRuntime) -> Result<(), Fail> {
    let alloc = rt.alloc();
    let names = [
        "0", "1", "2", "3", "4", "5", "6", "7", "8", "9", "a", "b", "c", "d", "e", "0",
    ];
    for name in names {
        fs::write(&rt, name, name.as_bytes())?;
    }
    let mut world = FileWorld::new(rt);
    let mut open = Vec::new(alloc);
    for name in names {
        match world.open(alloc, name) {
            Ok(file) => open.push(file)?,
            Err(fault) => panic!(rt; "{fault:?} at {name}"),
        }
    }
    assert_eq!(rt; world.opened, 16);
    for (file, name) in open.iter_mut().zip(names) {
        expect_left(&rt, file, name.as_bytes(), name);
    }
    for file in open {
        world.close(file);
    }
    assert_eq!(rt; (world.opened, world.faults), (0, 0));
    Ok(())
}

/// A file that was closed is open no more: the system has room for far fewer at once.
#[test]
fn files_are_opened_and_closed_often(rt: HostRuntime) -> Result<(), Fail> {
    let alloc = rt.alloc();
    fs::write(&rt, "feed", b"abc")?;
    let mut world = FileWorld::new(rt);
    for turn in 0..70_000u32 {
        match world.open(alloc, "feed") {
            Ok(file) => world.close(file),
            Err(fault) => panic!(rt; "{fault:?} at {turn}"),
        }
    }
    assert_eq!(rt; (world.opened, world.faults), (0, 0));
    Ok(())
}

/// A reader and a writer one byte a call, which fail at the calls that are listed and then go on.
#[derive(Drop)]
struct Faltering {
    at: u8,
    calls: u64,
    fail: [u64; 2],
}

impl Faltering {
    fn new(fail: [u64; 2]) -> Faltering {
        Faltering {
            at: 0,
            calls: 0,
            fail,
        }
    }

    /// Counts the call: whether it fails.
    fn fails(&mut self) -> bool {
        let call = self.calls;
        self.calls = call.saturating_add(1);
        self.fail.contains(&call)
    }
}

impl Read for Faltering {
    fn read(&mut self, buf: &mut [u8]) -> io::Result<usize> {
        if self.fails() {
            return Err(io::Error::from(ErrorKind::ConnectionReset));
        }
        match buf {
            [] => Ok(0),
            [first, ..] => {
                *first = self.at;
                self.at = self.at.wrapping_add(1);
                Ok(1)
            }
        }
    }
}

impl Write for Faltering {
    fn write(&mut self, buf: &[u8]) -> io::Result<usize> {
        if self.fails() {
            return Err(io::Error::from(ErrorKind::ConnectionReset));
        }
        Ok(buf.len().min(1))
    }

    fn flush(&mut self) -> io::Result<()> {
        Ok(())
    }
}

/// Each call that fails is told once and counted, and the next one gives what comes next.
#[test]
fn a_reader_that_fails_once_goes_on(rt: HostRuntime) -> Result<(), Fail> {
    let rows: [([u64; 2], [Result<u8, Failed>; 5], u64); 4] = [
        ([9, 9], [Ok(0), Ok(1), Ok(2), Ok(3), Ok(4)], 0),
        ([0, 9], [Err(Failed), Ok(0), Ok(1), Ok(2), Ok(3)], 1),
        ([2, 3], [Ok(0), Ok(1), Err(Failed), Err(Failed), Ok(2)], 2),
        ([1, 4], [Ok(0), Err(Failed), Ok(1), Ok(2), Err(Failed)], 2),
    ];
    for (fail, answers, faults) in rows {
        let mut source = ReaderSource {
            reader: Faltering::new(fail),
            faults: 0,
        };
        for answer in answers {
            let mut buf = [0; 3];
            let got = source.read(&mut buf).map(|count| (count, buf));
            assert_eq!(rt; got, answer.map(|byte| (1, [byte, 0, 0])), "at {fail:?}");
        }
        assert_eq!(rt; source.faults, faults, "at {fail:?}");
    }
    Ok(())
}

/// So it is with a writer: a text that is written whole stops at the first call that fails.
#[test]
fn a_writer_that_fails_once_goes_on(rt: HostRuntime) -> Result<(), Fail> {
    let rows: [(
        [u64; 2],
        [Result<usize, Failed>; 4],
        u64,
        Result<(), Failed>,
    ); 3] = [
        ([9, 9], [Ok(1), Ok(1), Ok(1), Ok(1)], 0, Ok(())),
        ([1, 6], [Ok(1), Err(Failed), Ok(1), Ok(1)], 1, Err(Failed)),
        ([0, 3], [Err(Failed), Ok(1), Ok(1), Err(Failed)], 2, Ok(())),
    ];
    for (fail, answers, faults, whole) in rows {
        let mut sink = WriterSink {
            writer: Faltering::new(fail),
            faults: 0,
        };
        for answer in answers {
            assert_eq!(rt; sink.write(b"abc"), answer, "at {fail:?}");
        }
        assert_eq!(rt; sink.faults, faults, "at {fail:?}");
        assert_eq!(rt; write_whole(&mut sink, b"abcd"), whole, "at {fail:?}");
    }
    Ok(())
}

#[test]
fn the_standard_streams_are_written(rt: HostRuntime) -> Result<(), Fail> {
    let mut sinks = Sinks {
        out: FileSink::output(&rt),
        report: FileSink::error(&rt),
    };
    assert_eq!(rt; write_whole(&mut sinks.out, b"out\n"), Ok(()));
    assert_eq!(rt; write_whole(&mut sinks.report, b"report\n"), Ok(()));
    assert_eq!(rt; (sinks.out.faults, sinks.report.faults), (0, 0));
    Ok(())
}
