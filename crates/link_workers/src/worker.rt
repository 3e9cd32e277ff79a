//! Workers, each in a thread of its own.
ghost use Rattle.std.specs.Prelude.{◌≡◌};
ghost use Rattle.std.specs.List.{list_any};
ghost use Rattle.link_workers.specs.Workers.{Works, AllWork};

use crate::port::serve_port;
use crate::service::Service;
use osm_outside::Port;
use std::alloc::Global;
use std::sync::Wait;
use std::thread;
use std::thread::Threads;

/// A session on a port.
#[derive(Drop)]
pub struct Worker<S, P> {
    pub session: S,
    pub port: P,
    /// Whether accepting failed.
    pub failed: bool,
}

/// Serves the links of one worker's port.
fn work<R: Wait, S: Service, P: Port>(
    rt: &R,
    alloc: Global,
    service: &S,
    worker: &mut Worker<S::Session, P>,
)
    ensures { Works (S.serves service.now) P.told worker.old worker.new }
{
    worker.failed = serve_port(rt, alloc, service, &mut worker.session, &mut worker.port);
}

/// Runs each worker in a thread of its own: it accepts a link of its port, serves it and gives it back, until none is to come
/// or accepting fails. It returns when all have ended.
pub fn serve_all<R: Threads + Wait + Sync, S: Service + Sync, P: Port + Send>(
    rt: &R,
    alloc: Global,
    service: &S,
    workers: &mut [Worker<S::Session, P>],
)
    ensures { AllWork (S.serves service.now) P.told workers.old workers.new }
{
    if workers.is_empty() {
        return;
    }
    let count = workers.len();
    let run = |_: usize, worker: &mut Worker<S::Session, P>|
        ensures { Works (S.serves service.entry.now) P.told worker.entry.now worker.exit.now }
    { work(rt, alloc, service, worker) };
    thread::for_each_mut(rt, workers, count, &run);
}

/// Whether accepting failed at any of the workers.
pub fn any_failed<S, P>(workers: &[Worker<S, P>]) -> bool
    ensures { result ≡ list_any (λ w. w.failed) workers.now }
{
    workers.iter().any(|worker| worker.failed)
}
