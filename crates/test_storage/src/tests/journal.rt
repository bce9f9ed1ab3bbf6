//! Worked journals of numbers: sessions joined and taken back from the newest, and ended from the oldest.
ghost use Rattle.std.specs.Prelude.{◌≡◌};
ghost use Rattle.mi_journal.specs.Noted.{without_entry};

use super::asking::{check, check_number};
use mi_journal::Journal;
use std::process::Abort;
use std::test::Fail;

fn assert_depth(rt: &impl Abort, journal: &Journal<u64>, depth: usize) {
    check_number(rt, journal.depth() as u64, depth as u64, "sessions");
}

/// Asserts which entry left a journal, if one did.
fn assert_left(rt: &impl Abort, left: Option<(usize, u64)>, want: Option<(usize, u64)>) {
    assert_eq!(rt; left, want);
}

/// Takes back two entries, after which there is none.
fn pop_two(rt: &impl Abort, journal: &mut Journal<u64>)
    ensures { journal.new.sessions ≡ without_entry (without_entry (without_entry journal.old.sessions)) }
{
    assert_left(rt, journal.pop(), Some((1, 8)));
    assert_left(rt, journal.pop(), Some((0, 7)));
    assert_left(rt, journal.pop(), None);
}

/// Room for two entries and two sessions is taken, and one session joins another.
#[test]
fn joins_and_pops(rt: HostRuntime) -> Result<(), Fail> {
    let mut journal: Journal<u64> = Journal::new(rt.alloc());
    assert_depth(&rt, &journal, 0);
    journal.reserve(2, 2)?;
    let (changes, sessions) = journal.room();
    check(&rt, changes >= 2 && sessions >= 2, "room for two");
    journal.open_session();
    journal.note(0, 7);
    journal.open_session();
    journal.note(1, 8);
    journal.join_top();
    assert_depth(&rt, &journal, 1);
    pop_two(&rt, &mut journal);
    journal.end_session();
    assert_depth(&rt, &journal, 0);
    Ok(())
}

/// Entries leave the oldest session in the order in which they came, and those of the newest stay.
#[test]
fn ends_the_oldest(rt: HostRuntime) -> Result<(), Fail> {
    let mut journal: Journal<u64> = Journal::new(rt.alloc());
    journal.reserve(3, 2)?;
    journal.open_session();
    journal.note(0, 7);
    journal.note(1, 8);
    journal.open_session();
    journal.note(2, 9);
    assert_left(&rt, journal.take_oldest(), Some((0, 7)));
    assert_left(&rt, journal.take_oldest(), Some((1, 8)));
    assert_left(&rt, journal.take_oldest(), None);
    assert_depth(&rt, &journal, 2);
    Ok(())
}
