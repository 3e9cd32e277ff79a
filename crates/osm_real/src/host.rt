//! A host over the system's files and network.
//!
//! A users file is read whole or to one byte past its limit, in pieces of 8,192 bytes.
ghost use Rattle.std.specs.Prelude.{◌≡◌, ◌+◌, take, vec_len, IfOk, IfSome};
ghost use Rattle.osm_base.specs.declared.limits.TheConstants.{USERS_LIMIT};

use crate::listen::ListenPort;
use crate::stop::{LOOK_EACH, Stop};
use osm_base::{Bytes, USERS_LIMIT};
use osm_outside::{Host, HostFault, HostTrace, Port};
use std::alloc::Global;
use std::io::{ErrorKind, Read};
use std::net::{Net, OpenListener, TcpListener, TcpStream};
use std::os::fd::AsFd;
use std::rt::{Clock, Files};
use std::time::Duration;
use std::{fs, io};

/// A host whose users text is a file, and whose ports share one listener, and have no link to come once the stop was asked for.
#[derive(Drop)]
pub struct FileHost<'a, F> {
    system: F,
    stop: &'a Stop,
    faults: u64,
    trace: HostTrace,
}

impl<'a, F> FileHost<'a, F> {
    /// A host over this system that has had no fault yet.
    pub fn new(system: F, stop: &'a Stop) -> FileHost<'a, F> {
        FileHost {
            system,
            stop,
            faults: 0,
            trace: HostTrace::new(),
        }
    }
}

impl<'a, F: Files + Net + Clock + Copy + Send> Host for FileHost<'a, F>
where
    F::Listener: AsFd + Send,
    F::Stream: Send,
{
    ghost use Rattle.std.specs.Prelude.{None};

    type Port = ListenPort<'a, F::Listener, F>;

    ghost told = { λ h. record {
      users = None;
      paths = h.trace.asked.paths;
      addresses = h.trace.asked.addresses;
      lent = h.trace.asked.lent;
      faults = h.faults;
    } };

    fn users(&mut self, alloc: Global, path: &str) -> Result<Bytes, HostFault> {
        self.trace = self.trace.asked_for(path);
        let text = match fs::open(&self.system, path) {
            Ok(file) => first_bytes(alloc, file),
            Err(_) => Err(HostFault::Failed),
        };
        if text.is_err() {
            self.faults = self.faults.saturating_add(1);
        }
        text
    }

    /// Binds one listener, and gives each port a copy of it.
    fn listen(
        &mut self,
        alloc: Global,
        address: &str,
        workers: u32,
    ) -> Result<Vec<ListenPort<'a, F::Listener, F>>, HostFault> {
        self.trace = self.trace.listened_at(address);
        match ports_at(alloc, &self.system, self.stop, address, workers) {
            Ok(ports) => {
                self.trace = self.trace.handed(ports.as_slice());
                Ok(ports)
            }
            Err(why) => {
                self.faults = self.faults.saturating_add(1);
                Err(why)
            }
        }
    }

    /// Closes the port's copy of the listener.
    fn back(&mut self, port: ListenPort<'a, F::Listener, F>) {
        self.trace = self.trace.back(&port);
        drop(port);
    }
}

/// Has accepting give up now and then, for a look at the stop. Each copy of the listener does so.
fn look_up<L: AsFd>(listener: &L) -> io::Result<()> {
    let copy = TcpStream::from(listener.as_fd().try_clone_to_owned()?);
    copy.set_read_timeout(Some(Duration::from_millis(LOOK_EACH)))
}

/// So many ports that share one listener at that address.
fn ports_at<'a, F: Net + Copy>(
    alloc: Global,
    system: &F,
    stop: &'a Stop,
    address: &str,
    workers: u32,
) -> Result<Vec<ListenPort<'a, F::Listener, F>>, HostFault>
where
    F::Listener: AsFd,
    ensures { IfOk result (λ ports. vec_len ports ≡ workers) }
{
    let Ok(listener) = TcpListener::bind(system, address) else {
        return Err(HostFault::Failed);
    };
    // One that refuses is served all the same, and stops behind the next link that comes.
    let _ = look_up(&listener);
    let mut ports = Vec::new(alloc);
    'workers: for _ in 0..workers {
        let Ok(copy) = listener.try_clone() else {
            return Err(HostFault::Failed);
        };
        if ports.push(ListenPort::new(copy, *system, stop)).is_err() {
            return Err(HostFault::Memory);
        }
    }
    Ok(ports)
}

/// The first 1,048,577 bytes, or all where there are fewer.
fn first_bytes<R: Read + Drop>(alloc: Global, file: R) -> Result<Bytes, HostFault>
    ensures { IfOk result (λ bytes. IfSome (R.remaining file) (λ text. bytes ≡ take (USERS_LIMIT + 1) text)) }
{
    let mut text = Vec::new(alloc);
    let mut limited = file.take(USERS_LIMIT as u64 + 1);
    match limited.read_to_end(&mut text) {
        Ok(_) => Ok(Bytes::from_vec(text)),
        Err(why) if why.kind() == ErrorKind::OutOfMemory => Err(HostFault::Memory),
        Err(_) => Err(HostFault::Failed),
    }
}
