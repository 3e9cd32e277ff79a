//! A port over a listener.
ghost use Rattle.std.specs.Prelude.{◌≡◌, ◌≤◌, IsErr};
ghost use Rattle.osm_outside.specs.Told.{Rose};

use crate::patient::{PatientStream, has_passed};
use crate::stop::{LOOK_EACH, Stop};
use crate::stream::StreamLink;
use osm_outside::{Failed, LinksLent, Port, PortOutside};
use std::io::{ErrorKind, Read, Write};
use std::net::{OpenListener, OpenStream, Shutdown};
use std::time::Duration;
use std::{io, thread};

/// How long a peer may take to close a connection that was served, in seconds for each read and for all, and how many reads
/// there are, so that a whole refused body can be thrown away.
const CLOSE_WAIT: u64 = 1;

const CLOSE_LIMIT: u64 = 5;

const CLOSE_READS: u32 = 4_096;

/// How long accepting rests after a fault that may pass, in milliseconds.
const REST: u64 = 10;

/// A port that hands out the connections of a listener. Several ports may share one queue of connections, by copies of one
/// listener; then each connection goes to one of those that wait. The stop is looked at before each try to accept, so that of a
/// listener that gives up now and then it ends a port without one more connection.
#[derive(Drop)]
pub struct ListenPort<'a, L, C> {
    listener: L,
    clock: C,
    stop: &'a Stop,
    faults: u64,
    lent: LinksLent,
}

impl<'a, L, C> ListenPort<'a, L, C> {
    /// A port over this listener that has had no fault yet.
    pub fn new(listener: L, clock: C, stop: &'a Stop) -> ListenPort<'a, L, C> {
        ListenPort {
            listener,
            clock,
            stop,
            faults: 0,
            lent: LinksLent::new(),
        }
    }
}

/// Whether the listener itself is no good, so that trying again is in vain: EBADF, EFAULT, EINVAL (it was shut down), ENOTSOCK.
/// Any other fault is of one connection, or of room that others may give back.
fn is_lasting(why: &io::Error) -> bool {
    matches!(why.raw_os_error(), Some(9 | 14 | 22 | 88))
}

/// Has a write not wait for a reply to the one before, and reads and writes give up now and then for a look at the stop. A stream that refuses is served all
/// the same.
fn set_up<S: OpenStream>(stream: &S) {
    let wait = Some(Duration::from_millis(LOOK_EACH));
    let _ = stream.set_nodelay(true);
    let _ = stream.set_read_timeout(wait);
    let _ = stream.set_write_timeout(wait);
}

/// Ends a connection so that the peer gets the last reply: nothing more is written, and what the peer still sends is thrown away
/// until it closes too, for a while. Closed at once, a connection with unread bytes is reset, and the peer may lose the reply.
fn hang_up<S: Read + OpenStream + Drop, C: std::rt::Clock>(mut stream: S, clock: &C, stop: &Stop) {
    if stream.shutdown(Shutdown::Write).is_err() {
        return;
    }
    let _ = stream.set_read_timeout(Some(Duration::from_secs(CLOSE_WAIT)));
    let begun = clock.monotonic().ok();
    let mut rest = [0; 16_384];
    for _ in 0..CLOSE_READS {
        match stream.read(&mut rest) {
            Ok(0) | Err(_) => break,
            Ok(_) => {}
        }
        if has_passed(begun, clock.monotonic().ok(), CLOSE_LIMIT) || stop.is_late(clock) {
            break;
        }
    }
}

impl<'a, L: OpenListener, C: std::rt::Clock> ListenPort<'a, L, C> {
    /// The next connection, or none once the stop was asked for. It is tried again after each fault that may pass, and each
    /// counts. That none came yet is no fault.
    fn next_stream(&mut self) -> Result<Option<L::Stream>, Failed>
        ensures failed { IsErr result → Rose self.old.faults self.new.faults }
        ensures faults { self.old.faults ≤ self.new.faults }
        ensures lent { self.new.lent ≡ self.old.lent }
    {
        'tries: for _ in 0..u64::MAX {
            if self.stop.is_asked() {
                return Ok(None);
            }
            match self.listener.accept() {
                Ok((stream, _)) => return Ok(Some(stream)),
                Err(why) if why.kind() == ErrorKind::WouldBlock => {}
                Err(why) => {
                    self.faults = self.faults.saturating_add(1);
                    if is_lasting(&why) {
                        return Err(Failed);
                    }
                    thread::sleep(&self.clock, Duration::from_millis(REST));
                }
            }
        }
        self.faults = self.faults.saturating_add(1);
        Err(Failed)
    }
}

impl<'a, L, C> PortOutside for ListenPort<'a, L, C> {
    ghost use Rattle.std.specs.Prelude.{None};

    ghost told = { λ p. record { coming = None; lent = p.lent.lent; faults = p.faults } };
}

impl<'a, L: OpenListener, C: std::rt::Clock + Copy + Send> Port for ListenPort<'a, L, C>
where
    L::Stream: Read + Write + OpenStream + Send,
{
    type Link = StreamLink<PatientStream<'a, L::Stream, C>, C>;

    fn accept(&mut self) -> Result<Option<StreamLink<PatientStream<'a, L::Stream, C>, C>>, Failed> {
        let Some(stream) = self.next_stream()? else {
            return Ok(None);
        };
        set_up(&stream);
        let link = StreamLink::over(
            PatientStream::new(stream, self.clock, self.stop),
            self.clock,
        );
        self.lent = self.lent.handed(&link);
        Ok(Some(link))
    }

    /// Closes the connection.
    fn done(&mut self, link: StreamLink<PatientStream<'a, L::Stream, C>, C>) {
        self.lent = self.lent.back(&link);
        hang_up(link.into_stream().into_inner(), &self.clock, self.stop);
    }
}
