//! Why a durable hub isn't to be used again. Plain data.

/// Why a call of a durable hub was not done whole. Whoever uses it ends then: what the journal has, up to its last sync, is what was acknowledged.
#[derive(Clone, Copy, Debug, PartialEq, Eq, Drop)]
pub enum DurableFault {
    /// A reply was refused memory. Its line may be done, and isn't in the journal.
    Memory,
    /// The journal can't be appended to, or can't be made to stay.
    Journal,
}
