//! The built-in table in a container. Each call is one of the container's, and its inverse is settled or taken back at once.
ghost use Rattle.std.specs.Prelude.{◌≡◌, ◌≤◌, IsTrue, IfOk, length};
ghost use Rattle.mi_value.specs.declared.limits.TheConstants.{MAX_TEXT};
ghost use Rattle.mi_catalog.specs.Accounts.{accounts};
ghost use Rattle.mi_container.specs.Asked.{RecordFits, IsSorted};

use mi_catalog::built_in;
use mi_container::OldPlaces;
use mi_multi::MultiIndex;
use mi_value::limits::MAX_TEXT;
use mi_value::{Edit, Lower, Record, Steps, Text, Upper, Value, ValueRef};
use std::alloc::{AllocError, Global};

/// The columns.
const BALANCE: usize = 1;

/// The indexes that show one list.
const BY_BALANCE: usize = 2;

const BY_CLASS: usize = 4;

const LINE: usize = 5;

/// The table of accounts.
#[derive(Drop)]
pub(crate) struct Accounts {
    rows: MultiIndex,
    laid: OldPlaces,
    ghost built_in: { rows.shape ≡ accounts },
}

/// The record of an account.
fn account(alloc: Global, owner: &str, balance: i64, vip: bool) -> Result<Record, AllocError>
    requires { length owner.now ≤ MAX_TEXT }
    ensures { IfOk result (λ row. RecordFits accounts row) }
{
    let owner = ValueRef::Text(owner);
    Record::new(alloc, &[owner, ValueRef::Int(balance), ValueRef::Flag(vip)])
}

/// The balance of a record.
fn balance_of(row: &Record) -> i64 {
    match row.get(BALANCE) {
        Some(ValueRef::Int(balance)) => balance,
        _ => 0,
    }
}

impl Accounts {
    pub(crate) fn new(alloc: Global) -> Result<Accounts, AllocError> {
        let rows = MultiIndex::new(alloc, built_in(alloc)?, 1)?;
        Ok(Accounts {
            rows,
            laid: OldPlaces::new(),
        })
    }

    pub(crate) fn size(&self) -> u64 {
        self.rows.size()
    }

    /// Adds an account, whose id is answered if it is added.
    pub(crate) fn insert(
        &mut self,
        alloc: Global,
        owner: &str,
        balance: i64,
        vip: bool,
    ) -> Option<u64> {
        if owner.len() > MAX_TEXT {
            return None;
        }
        let row = account(alloc, owner, balance, vip).ok()?;
        self.rows.keeps_rules();
        let inserted = self.rows.insert_row(alloc, row, None).ok()?;
        Some(inserted.id)
    }

    /// The balance of an account.
    pub(crate) fn balance(&self, id: u64) -> Option<i64> {
        Some(balance_of(self.rows.get(id, &mut Steps::new())?))
    }

    /// Adds to the balance of an account, and tells whether it did.
    pub(crate) fn add(&mut self, alloc: Global, id: u64, more: i64) -> bool {
        self.rows.keeps_rules();
        let edits = [Edit::Add(BALANCE, more)];
        match self
            .rows
            .modify(alloc, id, &edits, true, false, &mut self.laid)
        {
            Ok(step) => {
                self.rows.settle(step);
                true
            }
            Err(_) => false,
        }
    }

    /// Adds to the balance of an account and takes that back, and tells whether it did.
    pub(crate) fn add_and_unwind(&mut self, alloc: Global, id: u64, more: i64) -> bool {
        self.rows.keeps_rules();
        let edits = [Edit::Add(BALANCE, more)];
        match self
            .rows
            .modify(alloc, id, &edits, true, true, &mut self.laid)
        {
            Ok(step) => {
                self.rows.unwind(step, &self.laid);
                true
            }
            Err(_) => false,
        }
    }

    /// Erases an account and takes that back, and tells whether it did.
    pub(crate) fn erase_and_unwind(&mut self, id: u64) -> bool {
        self.rows.keeps_rules();
        match self.rows.erase(id) {
            Ok(step) => {
                self.rows.unwind(step, &self.laid);
                true
            }
            Err(_) => false,
        }
    }

    /// What the ids and balances make, in the order of an ordered index.
    fn digest_of(&self, alloc: Global, index: usize) -> Result<u64, AllocError>
        requires { IsSorted accounts index }
    {
        let (lower, upper) = (Lower::All, Upper::All);
        let mut steps = Steps::new();
        let rows = self.rows.walk_range(
            alloc,
            index,
            &lower,
            &upper,
            false,
            usize::MAX,
            &mut steps,
        )?;
        Ok(digest_rows(rows.as_slice()))
    }

    /// What they make in the order of the line.
    fn digest_of_line(&self, alloc: Global) -> Result<u64, AllocError> {
        let Some(first) = self.rows.first(LINE) else {
            return Ok(0);
        };
        if self.rows.get(first, &mut Steps::new()).is_none() {
            return Ok(0);
        }
        let rows = self.rows.walk(alloc, LINE, false, first, usize::MAX)?;
        Ok(digest_rows(rows.as_slice()))
    }

    /// The same of the indexes by balance, by class and of the line.
    pub(crate) fn digest(&self, alloc: Global) -> Result<u64, AllocError> {
        let by_balance = self.digest_of(alloc, BY_BALANCE)?;
        let by_class = self.digest_of(alloc, BY_CLASS)?;
        let line = self.digest_of_line(alloc)?;
        Ok(by_balance ^ by_class.rotate_left(1) ^ line.rotate_left(2))
    }
}

/// What the ids and balances of rows make, one after another.
fn digest_rows(rows: &[(u64, &Record)]) -> u64 {
    let mut sum = 0u64;
    for (id, row) in rows.iter() {
        let balance = balance_of(row).cast_unsigned();
        sum = sum
            .wrapping_mul(31)
            .wrapping_add(*id)
            .wrapping_mul(31)
            .wrapping_add(balance);
    }
    sum
}
