//! The loops, and the time that each takes.
use crate::accounts::Accounts;
use crate::workload::Workload;
use mi_random::Random;
use std::alloc::{AllocError, Global};
use std::io;
use std::time::{CpuClock, Duration};

/// What each loop begins to draw from, as those of `bench/container_peer.cpp`.
const SEED: u64 = 1;

/// The accounts, the owners of those to be inserted, and how long the last workload was on a processor.
#[derive(Drop)]
pub(crate) struct Bench {
    accounts: Accounts,
    owners: Vec<String>,
    busy: Duration,
}

/// How many calls did something, and a sum of what they did.
#[derive(Clone, Copy, Default)]
pub(crate) struct Done {
    pub(crate) count: u64,
    pub(crate) sum: u64,
}

impl Done {
    /// One call more, which made this number.
    fn add(&mut self, made: Option<u64>) {
        if let Some(made) = made {
            self.count = self.count.wrapping_add(1);
            self.sum = self.sum.wrapping_add(made);
        }
    }
}

impl Bench {
    pub(crate) fn new(alloc: Global) -> Result<Bench, AllocError> {
        Ok(Bench {
            accounts: Accounts::new(alloc)?,
            owners: Vec::new(alloc),
            busy: Duration::ZERO,
        })
    }

    /// How many records there are.
    pub(crate) fn size(&self) -> u64 {
        self.accounts.size()
    }

    /// Runs the workload of a line, a word and a number. What is no such line does nothing.
    pub(crate) fn run(
        &mut self,
        rt: &(impl CpuClock + AllocGlobal),
        line: &str,
    ) -> io::Result<Done> {
        let Some((word, number)) = line.split_once(' ') else {
            return Ok(Done::default());
        };
        let (Some(workload), Ok(calls)) = (Workload::of(word), number.parse::<u64>()) else {
            return Ok(Done::default());
        };
        if matches!(workload, Workload::Clock) {
            return Ok(Done {
                count: calls,
                sum: u64::try_from(self.busy.as_nanos()).unwrap_or(0),
            });
        }
        let began = rt.process_cpu_time()?;
        let done = self.repeat(rt.alloc(), workload, calls)?;
        self.busy = rt.process_cpu_time()?.saturating_sub(began);
        Ok(done)
    }

    fn repeat(
        &mut self,
        alloc: Global,
        workload: Workload,
        calls: u64,
    ) -> Result<Done, AllocError> {
        match workload {
            Workload::Prepare => self.prepare(alloc, calls),
            Workload::Insert => Ok(self.insert(alloc)),
            Workload::Get => Ok(self.get(calls)),
            Workload::Modify => Ok(self.modify(alloc, calls)),
            Workload::ModifyBack => Ok(self.modify_back(alloc, calls)),
            Workload::EraseBack => Ok(self.erase_back(calls)),
            Workload::Digest => self.digest(alloc),
            Workload::Clock => Ok(Done::default()),
        }
    }

    fn prepare(&mut self, alloc: Global, calls: u64) -> Result<Done, AllocError> {
        for n in 0..calls {
            self.owners.push(format!(in alloc; "owner {n}")?)?;
        }
        Ok(Done {
            count: calls,
            sum: 0,
        })
    }

    fn insert(&mut self, alloc: Global) -> Done {
        let mut random = Random::new(SEED);
        let mut done = Done::default();
        let count = self.owners.len() as u64;
        for owner in self.owners.iter() {
            let balance = random.below(count).cast_signed();
            let vip = random.below(10) < 3;
            done.add(self.accounts.insert(alloc, owner.as_str(), balance, vip));
        }
        done
    }

    fn get(&self, calls: u64) -> Done {
        let mut random = Random::new(SEED);
        let mut done = Done::default();
        let size = self.accounts.size();
        for _ in 0..calls {
            let balance = self.accounts.balance(random.below(size));
            done.add(balance.map(i64::cast_unsigned));
        }
        done
    }

    fn modify(&mut self, alloc: Global, calls: u64) -> Done {
        let mut random = Random::new(SEED);
        let mut done = Done::default();
        let size = self.accounts.size();
        for _ in 0..calls {
            let id = random.below(size);
            let more = random.below(101).cast_signed().wrapping_sub(50);
            done.add(self.accounts.add(alloc, id, more).then_some(id));
        }
        done
    }

    fn modify_back(&mut self, alloc: Global, calls: u64) -> Done {
        let mut random = Random::new(SEED);
        let mut done = Done::default();
        let size = self.accounts.size();
        for _ in 0..calls {
            let id = random.below(size);
            let more = random.below(101).cast_signed().wrapping_sub(50);
            done.add(self.accounts.add_and_unwind(alloc, id, more).then_some(id));
        }
        done
    }

    fn erase_back(&mut self, calls: u64) -> Done {
        let mut random = Random::new(SEED);
        let mut done = Done::default();
        let size = self.accounts.size();
        for _ in 0..calls {
            let id = random.below(size);
            done.add(self.accounts.erase_and_unwind(id).then_some(id));
        }
        done
    }

    fn digest(&self, alloc: Global) -> Result<Done, AllocError> {
        Ok(Done {
            count: self.accounts.size(),
            sum: self.accounts.digest(alloc)?,
        })
    }
}
