//! What no clause says: that calls can succeed, and what the system's files and streams do.

use pt_io::{FileSource, NotesSink, OutSink, PutFault, Sink, Source, SystemFiles};
use std::alloc::Global;
use std::io;
use std::io::Write;
use std::test::Fail;

/// Takes at most `most` bytes a call and so many in all, and then nothing.
#[derive(Drop)]
struct Narrow {
    taken: Vec<u8>,
    most: usize,
    left: usize,
}

impl Narrow {
    fn new(alloc: Global, most: usize, left: usize) -> Narrow {
        Narrow {
            taken: Vec::new(alloc),
            most,
            left,
        }
    }
}

impl Write for Narrow {
    fn write(&mut self, bytes: &[u8]) -> io::Result<usize> {
        let count = self.left.min(bytes.len()).min(self.most);
        self.taken.extend_from_slice(&bytes[..count])?;
        self.left -= count;
        Ok(count)
    }

    fn flush(&mut self) -> io::Result<()> {
        Ok(())
    }
}

#[test]
fn an_output_holds_back_what_is_put_until_it_is_flushed(rt: HostRuntime) -> Result<(), Fail> {
    let alloc = rt.alloc();
    let mut writer = Narrow::new(alloc, 1, 5);
    {
        let Ok(mut out) = OutSink::new(alloc, &mut writer) else {
            return Err("no memory")?;
        };
        let given = [
            out.put(b"abc"),
            out.put(b""),
            out.flush(),
            out.put(b"def"),
            out.flush(),
        ];
        let failed = Err(PutFault::Failed);
        assert!(rt; given == [Ok(()), Ok(()), Ok(()), Ok(()), failed]);
        assert_eq!(rt; out.faults(), 1);
    }
    assert!(rt; writer.taken.as_slice() == b"abcde".as_slice());
    Ok(())
}

#[test]
fn a_put_fails_where_earlier_bytes_cannot_be_written(rt: HostRuntime) -> Result<(), Fail> {
    let alloc = rt.alloc();
    let mut writer = Narrow::new(alloc, 1000, 10);
    let piece = vec![in alloc; 1u8; 40_000]?;
    {
        let Ok(mut out) = OutSink::new(alloc, &mut writer) else {
            return Err("no memory")?;
        };
        let given = [out.put(piece.as_slice()), out.put(piece.as_slice())];
        assert!(rt; given == [Ok(()), Err(PutFault::Failed)]);
        assert_eq!(rt; out.faults(), 1);
    }
    assert_eq!(rt; writer.taken.len(), 10);
    Ok(())
}

#[test]
fn notes_go_on_after_a_part_and_fail_where_nothing_is_taken(rt: HostRuntime) {
    let mut writer = Narrow::new(rt.alloc(), 1, 5);
    let mut notes = NotesSink::new(&mut writer);
    let given = [
        notes.put(b"abc"),
        notes.put(b""),
        notes.put(b"def"),
        notes.flush(),
    ];
    assert!(rt; given == [Ok(()), Ok(()), Err(PutFault::Failed), Ok(())]);
    assert_eq!(rt; notes.faults(), 1);
    assert!(rt; writer.taken.as_slice() == b"abcde".as_slice());
}

#[test]
fn a_file_is_read_to_its_end_or_one_byte_past_the_limit(rt: HostRuntime) -> Result<(), Fail> {
    let alloc = rt.alloc();
    let mut files = FileSource::new(SystemFiles::new(rt));
    let Ok(empty) = files.fetch(alloc, "/dev/null", 9) else {
        return Err("nothing")?;
    };
    let Ok(zeros) = files.fetch(alloc, "/dev/zero", 40000) else {
        return Err("zeros")?;
    };
    assert_eq!(rt; [empty.len(), zeros.len()], [0, 40001]);
    assert_eq!(rt; files.faults(), 0);
    Ok(())
}

#[test]
fn files_that_cannot_be_opened_or_read_are_faults(rt: HostRuntime) {
    let alloc = rt.alloc();
    let mut files = FileSource::new(SystemFiles::new(rt));
    assert!(rt; files.fetch(alloc, "no/such/file", 9).is_err());
    assert!(rt; files.fetch(alloc, ".", 9).is_err());
    assert_eq!(rt; files.faults(), 2);
}
