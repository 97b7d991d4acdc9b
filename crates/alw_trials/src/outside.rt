ghost use Rattle.std.specs.Prelude.{◌≡◌, IfOk, min};

use alw_io::{
    Failed, MemSink, MemSource, ReadErr, Sink, Source, StdSink, StdSource, SteadySink,
    SteadySource, read_all, write_whole,
};
use std::io;
use std::io::{Error, ErrorKind, Read, Write};
use std::test::Fail;

#[test]
fn reads_up_to_the_bound(rt: HostRuntime) -> Result<(), Fail> {
    let mut five = MemSource::new(rt.alloc(), b"ALEWI", 16, &[])?;
    assert_eq!(rt;
        read_all(rt.alloc(), &mut five, 4).err(),
        Some(ReadErr::TooLong)
    );
    let mut four = MemSource::new(rt.alloc(), b"ALEW", 16, &[])?;
    assert_eq!(rt;
        read_all(rt.alloc(), &mut four, 4)?.bytes(),
        b"ALEW".as_slice()
    );
    Ok(())
}

#[test]
fn reads_byte_by_byte(rt: HostRuntime) -> Result<(), Fail> {
    let mut source = MemSource::new(rt.alloc(), b"ALEWIFE", 1, &[])?;
    assert_eq!(rt;
        read_all(rt.alloc(), &mut source, 100)?.bytes(),
        b"ALEWIFE".as_slice()
    );
    Ok(())
}

#[test]
fn failed_read_is_told(rt: HostRuntime) -> Result<(), Fail> {
    let mut source = MemSource::new(rt.alloc(), b"ALEWIFE", 16, &[1])?;
    assert_eq!(rt;
        read_all(rt.alloc(), &mut source, 100).err(),
        Some(ReadErr::Failed)
    );
    assert_eq!(rt;
        read_all(rt.alloc(), &mut source, 100)?.bytes(),
        b"ALEWIFE".as_slice()
    );
    Ok(())
}

#[test]
fn failed_write_leaves_a_front(rt: HostRuntime) -> Result<(), Fail> {
    let mut sink = MemSink::new(rt.alloc(), 100, 16, &[2])?;
    assert_eq!(rt;
        write_whole(&mut sink, b"ALEWIFE REPORT 1\nended halted\n"),
        Err(Failed)
    );
    assert_eq!(rt; sink.bytes(), b"ALEWIFE REPORT 1".as_slice());
    assert_eq!(rt; write_whole(&mut sink, b"\n"), Ok(()));
    assert_eq!(rt; sink.bytes(), b"ALEWIFE REPORT 1\n".as_slice());
    Ok(())
}

#[test]
fn full_sink_fails(rt: HostRuntime) -> Result<(), Fail> {
    let mut sink = MemSink::new(rt.alloc(), 4, 16, &[])?;
    assert_eq!(rt; write_whole(&mut sink, b"ALEW"), Ok(()));
    assert_eq!(rt; write_whole(&mut sink, b""), Ok(()));
    assert_eq!(rt; write_whole(&mut sink, b"IFE"), Err(Failed));
    assert_eq!(rt; sink.bytes(), b"ALEW".as_slice());
    Ok(())
}

#[test]
fn steady_ends_never_fail(rt: HostRuntime) -> Result<(), Fail> {
    let mut source = SteadySource::new(b"ALEWIFE");
    assert_eq!(rt;
        read_all(rt.alloc(), &mut source, 7)?.bytes(),
        b"ALEWIFE".as_slice()
    );
    let mut sink = SteadySink::new();
    assert_eq!(rt; write_whole(&mut sink, b"ALEWIFE"), Ok(()));
    assert_eq!(rt; sink.taken(), 7);
    Ok(())
}

// A stream whose first call a signal ends, whose second moves a byte, and that is broken from then on.
#[derive(Drop)]
struct Breaking {
    calls: u32,
}

impl Breaking {
    fn moved(&mut self, offered: usize) -> io::Result<usize>
        ensures { IfOk result (λ n. n ≡ min offered 1) }
    {
        self.calls = self.calls.saturating_add(1);
        match self.calls {
            1 => Err(Error::from(ErrorKind::Interrupted)),
            2 => Ok(offered.min(1)),
            _ => Err(Error::from(ErrorKind::BrokenPipe)),
        }
    }
}

impl Read for Breaking {
    fn read(&mut self, buf: &mut [u8]) -> io::Result<usize> {
        self.moved(buf.len())
    }
}

impl Write for Breaking {
    fn write(&mut self, piece: &[u8]) -> io::Result<usize> {
        self.moved(piece.len())
    }

    fn flush(&mut self) -> io::Result<()> {
        Ok(())
    }
}

#[test]
fn streams_go_on_after_a_signal_alone(rt: HostRuntime) -> Result<(), Fail> {
    let mut source = StdSource::new(Breaking { calls: 0 });
    let mut buf = [0u8; 4];
    assert_eq!(rt; source.read(&mut buf), Ok(1));
    assert_eq!(rt; source.read(&mut buf), Err(Failed));
    let mut sink = StdSink::new(Breaking { calls: 0 });
    assert_eq!(rt; sink.write(b"ALEWIFE"), Ok(1));
    assert_eq!(rt; sink.write(b"LEWIFE"), Err(Failed));
    Ok(())
}

#[test]
fn standard_streams_take_no_byte_of_nothing(rt: HostRuntime) -> Result<(), Fail> {
    assert_eq!(rt; StdSource::new(rt.stdin()).read(&mut []), Ok(0));
    assert_eq!(rt; StdSink::new(rt.stdout()).write(b""), Ok(0));
    assert_eq!(rt; StdSink::new(rt.stderr()).write(b""), Ok(0));
    Ok(())
}
