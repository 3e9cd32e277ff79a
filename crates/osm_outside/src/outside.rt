//! The traits of the outside. Each counts its faults, and a call fails only where its count rose.
//! A link keeps for contracts, in one list, what its calls gave, took and told and were shown or told.
//!
//! Counts of faults are numbers of 64 bits that stand still at their end. "Rose" is the word of
//! every contract: `min (before + 1) (2^64 - 1) ≤ now`.
//!
//! What is left to read stays optional: a link in memory knows it, and a link over a reader knows
//! what the standard library says of that reader, which is nothing of a file or a socket. So a
//! read that failed and is told as the end of input, or a write that failed and is told as done,
//! is refused by the contracts of the adapters.
ghost use Rattle.std.specs.Prelude.{◌≡◌, ◌+◌, ◌<◌, ◌≤◌, ◌∷◌, ◌++◌, [], length, map, take, vec_len, IfOk, IfSome, IsErr, OnErr, Some, Err};
ghost use Rattle.std.specs.Io.KnownBytes.{ReadConsumes};
ghost use Rattle.osm_base.specs.declared.limits.TheConstants.{USERS_LIMIT};
ghost use Rattle.osm_outside.specs.Event.{Answered, Showed};
ghost use Rattle.osm_outside.specs.Told.{Told, Rose, AddsRead, AddsWrite, OnlyReads, OnlyWrites, finding};
ghost use Rattle.osm_outside.specs.Lent.{IsOut, hand_out, take_back};
ghost use Rattle.osm_outside.specs.Port.{PortTold, Accepts};
ghost use Rattle.osm_outside.specs.Host.{HostTold, OnlyAsked, OnlyPorts};

use osm_base::{Bytes, Memory};
use receipts::Receipt;
use shared_front::{FoundFront, Front, HubName};
use std::alloc::Global;

/// A read or a write failed.
#[derive(Clone, Copy, PartialEq, Eq)]
pub struct Failed;

/// What a link tells contracts of itself.
pub trait Outside {
    ghost told: { Self → Told };
}

/// Where bytes come from.
pub trait Source: Outside {
    /// Reads some bytes to the front of `into`. 0 bytes in a place that isn't empty are the end of
    /// input.
    fn read(&mut self, into: &mut [u8]) -> Result<usize, Failed>
        ensures count { IfOk result (λ n. n ≤ length into.new) }
        ensures trace { AddsRead (Self.told self.old) (Self.told self.new) result into.new }
        ensures left { ReadConsumes (Self.told self.old).left (Self.told self.new).left result into.new }
        ensures failed { IsErr result → Rose (Self.told self.old).read_faults (Self.told self.new).read_faults }
        ensures keeps { OnlyReads (Self.told self.old) (Self.told self.new) };
}

/// Where bytes go.
pub trait Sink: Outside {
    /// Writes some bytes from the front of `piece`. To take none of a piece that isn't empty is a
    /// fault.
    fn write(&mut self, piece: &[u8]) -> Result<usize, Failed>
        ensures count { IfOk result (λ n. n ≤ length piece.now) }
        ensures trace { AddsWrite (Self.told self.old) (Self.told self.new) result piece.now }
        ensures failed { IsErr result → Rose (Self.told self.old).write_faults (Self.told self.new).write_faults }
        ensures none_taken { IfOk result (λ n. n ≡ 0 → 0 < length piece.now
            → Rose (Self.told self.old).write_faults (Self.told self.new).write_faults) }
        ensures keeps { OnlyWrites (Self.told self.old) (Self.told self.new) };
}

/// What the time is.
pub trait Clock: Outside {
    /// The moment, in seconds since 1970.
    fn now(&mut self) -> u64
        ensures trace { Self.told self.new ≡ record (Self.told self.old) {
          trace = (Self.told self.old).trace ++ Answered result ∷ [];
        } }
        ensures fixed { IfSome (Self.told self.old).fixed (λ at. result ≡ at) };

    /// From here on every moment is this one, in seconds since 1970.
    fn fix(&mut self, seconds: u64)
        ensures told { Self.told self.new ≡ record (Self.told self.old) { fixed = Some seconds } };
}

/// What is shown by which receipts a reply is sent, and told which list was found before the first one.
/// It is told to contracts alone.
pub trait Witness: Outside {
    /// Is told with how many entries a list was found.
    fn learn<N: HubName, E>(&mut self, found: FoundFront<N, E>)
        ensures found { Self.told self.new ≡ finding (Some (length found)) (Self.told self.old) };

    /// Is shown the receipts of that front, all that were given by then as far as it has seen them.
    fn show<K: HubName>(&mut self, receipts: &Front<K, Receipt>)
        ensures trace { Self.told self.new ≡ record (Self.told self.old) {
          trace = (Self.told self.old).trace ++ Showed receipts.now ∷ [];
        } };
}

/// A connection to one client.
pub trait Link: Source + Sink + Clock + Witness {}

/// What a port tells contracts of itself.
pub trait PortOutside {
    ghost told: { Self → PortTold };
}

/// Where links come from, one after another. A worker may take a port and its links to a thread of its own.
pub trait Port: PortOutside {
    type Link: Link + Drop + Send;

    /// The next link, or `None` where none is to come.
    fn accept(&mut self) -> Result<Option<Self::Link>, Failed>
        ensures accepts { Accepts Self.Link.told (Self.told self.old) (Self.told self.new) result }
        ensures failed { IsErr result → Rose (Self.told self.old).faults (Self.told self.new).faults }
        ensures faults { (Self.told self.old).faults ≤ (Self.told self.new).faults };

    /// Takes back a link that it handed out, once it was served.
    fn done(&mut self, link: Self::Link)
        requires { IsOut (Self.told self.old).lent }
        ensures { Self.told self.new ≡ record (Self.told self.old) {
          lent = take_back (Self.told self.old).lent (Self.Link.told link);
        } };
}

/// Why a call of a host has no result.
#[derive(Clone, Copy, PartialEq, Eq)]
pub enum HostFault {
    Failed,
    /// There was no memory.
    Memory,
}

impl From<Memory> for HostFault {
    ghost use Rattle.osm_outside.specs.declared.outside.HostFault.TheVariants as fault;

    ghost from_gives = { λ _ why. why ≡ fault.Memory };

    fn from(_: Memory) -> HostFault {
        HostFault::Memory
    }
}

/// What the program is run on, beside its standard link.
pub trait Host {
    ghost use Rattle.osm_outside.specs.declared.outside.HostFault.TheVariants as fault;

    type Port: Port + Drop + Send;

    ghost told: { Self → HostTold };

    /// The users text at that path: its first 1,048,577 bytes, or all of a shorter one. However it ends, the path was asked for.
    fn users(&mut self, alloc: Global, path: &str) -> Result<Bytes, HostFault>
        ensures text { IfOk result (λ bytes. IfSome (told self.old).users (λ text. bytes ≡ take (USERS_LIMIT + 1) text)) }
        ensures failed { result ≡ Err fault.Failed → Rose (told self.old).faults (told self.new).faults }
        ensures keeps { OnlyAsked path.now (told self.old) (told self.new) };

    /// As many ports at that address as there are workers. However it ends, the address was asked for.
    fn listen(
        &mut self,
        alloc: Global,
        address: &str,
        workers: u32,
    ) -> Result<Vec<Self::Port>, HostFault>
        ensures count { IfOk result (λ ports. vec_len ports ≡ workers) }
        ensures ports { IfOk result (λ ports. (told self.new).lent ≡ hand_out (told self.old).lent (map Self.Port.told ports.items)) }
        ensures failed { result ≡ Err fault.Failed → Rose (told self.old).faults (told self.new).faults }
        ensures err { OnErr result ((told self.new).lent ≡ (told self.old).lent) }
        ensures keeps { OnlyPorts address.now (told self.old) (told self.new) };

    /// Takes back a port that it handed out. It takes no memory.
    fn back(&mut self, port: Self::Port)
        requires { IsOut (told self.old).lent }
        ensures { told self.new ≡ record (told self.old) { lent = take_back (told self.old).lent (Self.Port.told port) } };
}
