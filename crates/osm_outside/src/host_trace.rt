//! What was asked of a host, for contracts alone.
//!
//! A host tells the paths of the users texts and the addresses that it was asked for, in order and
//! however each call ended, so that whoever calls it can say which those were. That the file at a
//! path has the text that was given is trusted.
ghost use Rattle.std.specs.Prelude.{◌≡◌, map};
ghost use Rattle.std.specs.Borrow.{ftrue};
ghost use Rattle.osm_outside.specs.Host.{HostAsked, none_asked, ask_at, listen_at, hand_ports, take_port};

use crate::outside::PortOutside;
use std::marker::Model;

/// The paths and addresses that a host was asked for, and the ports that it handed out and took back so far. Only proofs read them, and it
/// takes no bytes.
#[derive(Drop)]
pub struct HostTrace {
    pub ghost asked: { HostAsked },
}

impl Model for HostTrace {
    ghost also_owns = { λ _. ftrue };
}

impl HostTrace {
    /// Whatever was asked.
    fn of() -> HostTrace
        ghost asked: { HostAsked }
        ensures { result.asked ≡ asked }
    {
        HostTrace {}
    }

    /// Whatever was asked, made where the path or the address of the last call is known.
    fn beside_text(&self, _text: &[u8]) -> HostTrace
        ghost asked: { HostAsked }
        ensures { result.asked ≡ asked }
    {
        HostTrace::of()
    }

    /// Whatever was asked, made where the ports of the last call are known.
    fn beside_ports<P: PortOutside>(&self, _ports: &[P]) -> HostTrace
        ghost asked: { HostAsked }
        ensures { result.asked ≡ asked }
    {
        HostTrace::of()
    }

    /// Whatever was asked, made where the port that came back is known.
    fn beside_port<P: PortOutside>(&self, _port: &P) -> HostTrace
        ghost asked: { HostAsked }
        ensures { result.asked ≡ asked }
    {
        HostTrace::of()
    }

    /// Nothing yet.
    pub fn new() -> HostTrace
        ensures { result.asked ≡ none_asked }
    {
        HostTrace::of()
    }

    /// And then for the users text at that path.
    pub fn asked_for(&self, path: &str) -> HostTrace
        ensures { result.asked ≡ ask_at self.now.asked path.now }
    {
        self.beside_text(path.as_bytes())
    }

    /// And then to listen at that address.
    pub fn listened_at(&self, address: &str) -> HostTrace
        ensures { result.asked ≡ listen_at self.now.asked address.now }
    {
        self.beside_text(address.as_bytes())
    }

    /// And then these ports were handed out.
    pub fn handed<P: PortOutside>(&self, ports: &[P]) -> HostTrace
        ensures { result.asked ≡ hand_ports self.now.asked (map P.told ports.now) }
    {
        self.beside_ports(ports)
    }

    /// And then this port was taken back.
    pub fn back<P: PortOutside>(&self, port: &P) -> HostTrace
        ensures { result.asked ≡ take_port self.now.asked (P.told port.now) }
    {
        self.beside_port(port)
    }
}
