// Where the bytes of images stand: the pools of the units, and the copies of the images.
use crate::copies::Copies;
use segment_pool::{Pool, Sha256Print};
use std::marker::Model;

// The number of the file of the first unit's pool.
pub(crate) const FIRST_POOL: u32 = 2;

/// The pools of the units, by their numbers, and the copies of the images.
#[derive(Drop)]
pub struct Storage {
    pub(crate) pools: Vec<Pool<Sha256Print>>,
    pub(crate) copies: Copies,
}

impl Model for Storage {
    ghost use Rattle.vault_ledger.specs.Storage.{StorageState};

    ghost Value = { StorageState };

    ghost view = { λ s. record { pools = s.pools.items; copies = s.copies } };
}
