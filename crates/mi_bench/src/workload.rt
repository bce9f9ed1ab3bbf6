//! The workloads by their words.

/// What is done in a loop.
#[derive(Clone, Copy)]
pub(crate) enum Workload {
    /// Makes the owners of the records to be inserted.
    Prepare,
    /// Inserts a record for each owner.
    Insert,
    /// Looks records up by their ids.
    Get,
    /// Adds to balances.
    Modify,
    /// The same, each taken back at once.
    ModifyBack,
    /// Erases records, each taken back at once.
    EraseBack,
    /// Goes through the indexes that show one list.
    Digest,
    /// Tells the nanoseconds of the last one.
    Clock,
}

impl Workload {
    /// The workload of this word, or none.
    pub(crate) fn of(word: &str) -> Option<Workload> {
        match word {
            "prepare" => Some(Workload::Prepare),
            "insert" => Some(Workload::Insert),
            "get" => Some(Workload::Get),
            "modify" => Some(Workload::Modify),
            "modify_back" => Some(Workload::ModifyBack),
            "erase_back" => Some(Workload::EraseBack),
            "digest" => Some(Workload::Digest),
            "clock" => Some(Workload::Clock),
            _ => None,
        }
    }
}
