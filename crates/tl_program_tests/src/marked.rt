//! What a marked reader or writer answers, call by call, and that each call is one of what it
//! wraps.
use std::io;
use std::io::{ErrorKind, Read, Write};
use tl_program::program::{Input, Marked, Output};

// What is read from or written to by a plan: at `!` a call fails, at `.` it gives or takes nothing,
// at a small letter it gives that letter, or takes a byte, and at a capital it gives as many of it
// as there is room for.
#[derive(Drop)]
struct Planned<'p> {
    plan: &'p [u8],
    calls: usize,
    flushes: usize,
}

impl<'p> Planned<'p> {
    fn new(plan: &'p [u8]) -> Planned<'p> {
        Planned {
            plan,
            calls: 0,
            flushes: 0,
        }
    }

    // The next letter of the plan, which is `.` past its end.
    fn next(&mut self) -> io::Result<u8> {
        let letter = *self.plan.get(self.calls).unwrap_or(&b'.');
        self.calls = self.calls.saturating_add(1);
        if letter == b'!' {
            Err(io::Error::from(ErrorKind::Interrupted))
        } else {
            Ok(letter)
        }
    }
}

impl<'p> Read for Planned<'p> {
    fn read(&mut self, buffer: &mut [u8]) -> io::Result<usize> {
        let letter = self.next()?;
        if letter == b'.' || buffer.is_empty() {
            return Ok(0);
        }
        let n = if letter.is_ascii_uppercase() {
            buffer.len()
        } else {
            1
        };
        buffer[..n].fill(letter);
        Ok(n)
    }
}

impl<'p> Write for Planned<'p> {
    fn write(&mut self, buffer: &[u8]) -> io::Result<usize> {
        if self.next()? == b'.' {
            return Ok(0);
        }
        Ok(buffer.len().min(1))
    }

    fn flush(&mut self) -> io::Result<()> {
        self.next()?;
        self.flushes = self.flushes.saturating_add(1);
        Ok(())
    }
}

// What a read into as much room, at most two bytes, answers: the last byte where it fills the room,
// `-` where it gives fewer, `.` for none, `!` for a fault.
fn read_answer(reader: &mut Marked<Planned<'_>>, room: usize) -> u8 {
    let mut buffer = [0u8; 2];
    let room = &mut buffer[..room.min(2)];
    match reader.read(room) {
        Ok(0) => b'.',
        Ok(n) if n < room.len() => b'-',
        Ok(_) => *room.last().unwrap_or(&b'.'),
        Err(_) => b'!',
    }
}

// Whether reads into as much room are answered so, each by one call, and the reader is marked from
// the first fault on.
fn reads(plan: &[u8], rooms: &[usize], wanted: &[u8]) -> bool {
    let mut reader = Marked::new(Planned::new(plan));
    let mut has_failed = false;
    for (place, room) in rooms.iter().enumerate() {
        let answer = read_answer(&mut reader, *room);
        has_failed = has_failed || answer == b'!';
        if wanted.get(place) != Some(&answer) || Input::failed(&reader) != has_failed {
            return false;
        }
    }
    reader.into_inner().calls == rooms.len()
}

// The plan of a reader, the room of each read, and what is answered.
const READS: &[(&[u8], &[usize], &[u8])] = &[
    (b"abc", &[1, 1, 1, 1], b"abc."),
    // The end is no fault, and what stands behind it is read.
    (b".a", &[1, 1], b".a"),
    // A failed read is not tried again by itself, and the next one is passed on.
    (b"a!bc", &[1, 1, 1, 1], b"a!bc"),
    (b"!!a", &[1, 1, 1], b"!!a"),
    (b"!.", &[1, 1], b"!."),
    // All the room that there is is offered.
    (b"ABa", &[2, 1, 2], b"AB-"),
    // So is a read without room.
    (b"ab", &[0, 1], b".b"),
    (b"!a", &[0, 1], b"!a"),
];

#[test]
fn reads_are_those_of_the_reader(rt: HostRuntime) {
    for (plan, rooms, wanted) in READS {
        assert!(rt; reads(plan, rooms, wanted), "{plan:?} {rooms:?}");
    }
}

// What a write of a byte (`w`), a write of nothing (`n`) or a flush (`f`) answers: `1` or `.` by
// the bytes taken, `f`, or `!` for a fault.
fn write_answer(writer: &mut Marked<Planned<'_>>, call: u8) -> u8 {
    if call == b'f' {
        return if writer.flush().is_ok() { b'f' } else { b'!' };
    }
    let bytes: &[u8] = if call == b'w' { b"x" } else { b"" };
    match writer.write(bytes) {
        Ok(0) => b'.',
        Ok(_) => b'1',
        Err(_) => b'!',
    }
}

// Whether calls are answered so, each by one call, with as many flushes, and the writer is marked
// from the first fault on.
fn writes(plan: &[u8], calls: &[u8], wanted: &[u8], flushes: usize) -> bool {
    let mut writer = Marked::new(Planned::new(plan));
    let mut has_failed = false;
    for (place, call) in calls.iter().enumerate() {
        let answer = write_answer(&mut writer, *call);
        has_failed = has_failed || answer == b'!';
        if wanted.get(place) != Some(&answer) || Output::failed(&writer) != has_failed {
            return false;
        }
    }
    let inner = writer.into_inner();
    inner.calls == calls.len() && inner.flushes == flushes
}

// The plan of a writer, the calls, what they answer, and how often it was flushed.
const WRITES: &[(&[u8], &[u8], &[u8], usize)] = &[
    (b"aa", b"ww", b"11", 0),
    // A failed write is not tried again by itself, and the next call is passed on.
    (b"!a", b"ww", b"!1", 0),
    (b"!a", b"wf", b"!f", 1),
    // Where no byte of some is taken that is a fault, and of none it is not.
    (b".a", b"ww", b"!1", 0),
    (b".a", b"nw", b".1", 0),
    (b"!a", b"nw", b"!1", 0),
    // Each flush is one of the writer.
    (b"a", b"f", b"f", 1),
    (b"!a", b"ff", b"!f", 1),
    (b"aaa", b"wff", b"1ff", 2),
];

#[test]
fn writes_are_those_of_the_writer(rt: HostRuntime) {
    for (plan, calls, wanted, flushes) in WRITES {
        assert!(rt; writes(plan, calls, wanted, *flushes), "{plan:?} {calls:?}");
    }
}
