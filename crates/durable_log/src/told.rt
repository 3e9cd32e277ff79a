//! How much of a list is kept, for whoever only asks.
ghost use Rattle.std.specs.Prelude.{◌≡◌, []};
ghost use Rattle.durable_log.specs.Receipts.{last_count};

use receipts::Receipt;
use shared_front::{Front, HubName};
use std::marker::Model;

/// The receipts that were given, and how many entries the last is for.
#[derive(Drop)]
pub struct Told<K: HubName> {
    count: u64,
    receipts: Front<K, Receipt>,
}

impl<K: HubName> Model for Told<K> {
    ghost use Rattle.std.specs.Prelude.{◌≡◌, List};
    ghost use Rattle.durable_log.specs.Receipts.{last_count};
    ghost use Rattle.receipts.specs.declared.receipt.Receipt.{Receipt};

    ghost Value = { List Receipt };

    ghost view = { λ t. t.receipts };

    ghost invariant = { λ t. t.count ≡ last_count t.receipts };
}

impl<K: HubName> Told<K> {
    /// No receipt.
    pub fn new(receipts: Front<K, Receipt>) -> Told<K>
        requires { receipts ≡ [] }
        ensures { result ≡ [] }
    {
        Told { count: 0, receipts }
    }

    /// The receipts, of which the last is for this many entries.
    pub fn of(receipts: Front<K, Receipt>, count: u64) -> Told<K>
        requires { count ≡ last_count receipts }
        ensures { result ≡ receipts }
    {
        Told { count, receipts }
    }

    /// How many entries the last receipt is for.
    pub fn count(&self) -> u64
        ensures { result ≡ last_count self.now }
    {
        self.count
    }

    /// The receipts.
    pub fn receipts(&self) -> Front<K, Receipt>
        ensures { result ≡ self.now }
    {
        self.receipts.again()
    }
}
