//! What a commit gives.
use machine_law::Settled;
use osm_base::Bytes;

/// Which way a plan was settled.
#[derive(Drop)]
pub enum Path<K> {
    /// The plan stood.
    Fast,
    /// The plan and the world differ there, so its command was checked again.
    Slow(K),
}

/// What a plan comes to, before it is entered, and the path.
#[derive(Drop)]
pub struct Judged<E, K> {
    pub settled: Settled<E>,
    pub path: Path<K>,
}

/// What a commit gives: the answer, the entry's place in the journal, from 0, and the path.
#[derive(Drop)]
pub struct Done<K> {
    pub answer: Bytes,
    pub place: Option<u64>,
    pub path: Path<K>,
}
