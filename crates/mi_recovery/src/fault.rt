//! Why a journal isn't opened or doesn't go on, and what the system has said of it. It touches nothing.
ghost use Rattle.std.specs.Prelude.{◌≡◌, ◌⊎◌, true};
ghost use Rattle.mi_recovery.specs.Recovery.{ends_replay, told_as, told_in};
ghost use Rattle.mi_durable.specs.declared.fault.DurableFault.TheVariants as durable_fault;
ghost use Rattle.mi_recovery.specs.declared.fault.JournalFailure.TheVariants as told;

use mi_durable::{DurableFault, ReplayFault};
use std::io;

/// Why a journal isn't opened, or doesn't go on.
#[derive(Clone, Copy, Drop)]
pub enum JournalFailure {
    /// Its file can't be opened, made, read or cut, or was moved.
    File,
    /// It is one of another schema or format.
    Schema,
    /// This line of its first segment, from 1, isn't one of a journal.
    Line(u64),
    /// The segment of this number isn't there, is one of another journal, or ends within a line though another follows.
    Segment(u64),
    /// In this segment, behind the first, this line isn't one of a journal. Both count from 1.
    SegmentLine(u64, u64),
    /// The base is torn, or is one of another schema or journal.
    Base,
    /// Sessions are open at its end, so no base can be made of it.
    Sessions,
    /// Another process has it.
    Locked,
    /// It can't be appended to, or can't be made to stay.
    Write,
    /// Memory was refused.
    Memory,
    /// The most turns, 2^62, were made.
    Turns,
}

impl JournalFailure {
    /// What a fault of the replay is.
    pub fn of_replay(fault: ReplayFault) -> JournalFailure
        ensures is { result ≡ told_as fault }
        ensures kind { ends_replay result ≡ true }
    {
        match fault {
            ReplayFault::Read => JournalFailure::File,
            ReplayFault::Damaged(line) => JournalFailure::Line(line),
            ReplayFault::Memory => JournalFailure::Memory,
            ReplayFault::Turns => JournalFailure::Turns,
        }
    }

    /// The same in the segment of this number, where so many lines behind its header were passed over before its lines were counted.
    pub fn in_segment(self, number: u64, skip: u64) -> JournalFailure
        ensures is { result ≡ told_in number skip self }
        ensures kind { ends_replay self ≡ true → ends_replay result ≡ true }
    {
        match self {
            JournalFailure::Line(line) if line > 1 => {
                let line = line.saturating_add(skip);
                if number > 1 {
                    JournalFailure::SegmentLine(number, line)
                } else {
                    JournalFailure::Line(line)
                }
            }
            JournalFailure::Line(_) | JournalFailure::Schema if number > 1 =>
                JournalFailure::Segment(number),
            other => other,
        }
    }
}

impl From<DurableFault> for JournalFailure {
    ghost from_gives = { λ fault failure. ((fault ≡ durable_fault.Memory) × (failure ≡ told.Memory))
        ⊎ ((fault ≡ durable_fault.Journal) × (failure ≡ told.Write)) };

    fn from(fault: DurableFault) -> JournalFailure {
        match fault {
            DurableFault::Memory => JournalFailure::Memory,
            DurableFault::Journal => JournalFailure::Write,
        }
    }
}

/// Why a journal isn't opened or doesn't go on, and what the system said, where it was a call of the system that failed.
#[derive(Drop)]
pub struct JournalFault {
    /// Why.
    pub failure: JournalFailure,
    /// What the system said.
    pub error: Option<io::Error>,
}

impl JournalFault {
    /// A failure of which the system has said this.
    pub fn of(failure: JournalFailure, error: io::Error) -> JournalFault
        ensures { result.failure ≡ failure }
    {
        JournalFault {
            failure,
            error: Some(error),
        }
    }
}

impl From<JournalFailure> for JournalFault {
    ghost from_gives = { λ failure fault. fault.failure ≡ failure };

    fn from(failure: JournalFailure) -> JournalFault {
        JournalFault {
            failure,
            error: None,
        }
    }
}
