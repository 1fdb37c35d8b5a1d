//! What a caller hands in: the link, the clock and the random words.

/// The outside of a run, with the number of the current call.
#[derive(Drop)]
pub struct Outside<L, K, R> {
    pub link: L,
    pub clock: K,
    pub words: R,
    pub call: u64,
}
