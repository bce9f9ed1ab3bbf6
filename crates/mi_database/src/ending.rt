//! Sessions that end: the changes of the newest one taken back, the newest first, or those of the oldest one settled, the
//! oldest first. None of it takes memory.
use crate::linked::Linked;
use mi_container::Container;

impl<C: Container> Linked<C> {
    ghost use Rattle.std.specs.Prelude.{◌≡◌, ◌<◌, ◌≤◌, length};
    ghost use Rattle.std.specs.Option.{is_some};
    ghost use Rattle.mi_journal.specs.Noted.{newest_entry, without_entry};
    ghost use Rattle.mi_database.specs.LinkedData.{newest_of, back_by, SettlesOne, UnwindsNewest, EndsOldest};

    /// Takes back the newest change of the newest session, and tells whether there was one.
    fn unwind_one(&mut self) -> bool
        ensures datas { self.new.datas ≡ back_by (newest_of self.old.journal) self.old.datas }
        ensures journal { self.new.journal ≡ without_entry self.old.journal }
        ensures more { result ≡ is_some (newest_entry self.old.journal) }
        ensures catalog { self.new.catalog ≡ self.old.catalog }
        ensures secrets { self.new.secrets ≡ self.old.secrets }
        ensures revision { self.new.revision ≡ self.old.revision }
        ensures changes { self.old.changes ≤ self.new.changes }
        ensures starts { self.new.starts ≡ self.old.starts }
    {
        let Some((table, step)) = self.journal.pop(&mut self.laid) else {
            return false;
        };
        self.containers[table].unwind(step, &self.laid);
        true
    }

    /// Settles the oldest change of the oldest session, and tells whether there was one.
    fn settle_one(&mut self) -> bool
        ensures settles { SettlesOne result self.old self.new }
        ensures catalog { self.new.catalog ≡ self.old.catalog }
        ensures secrets { self.new.secrets ≡ self.old.secrets }
        ensures revision { self.new.revision ≡ self.old.revision }
        ensures changes { self.old.changes ≤ self.new.changes }
        ensures starts { self.new.starts ≡ self.old.starts }
    {
        let Some((table, step)) = self.journal.take_oldest() else {
            return false;
        };
        self.containers[table].settle(step);
        true
    }

    /// Takes back all changes of the newest session, the newest first. It stays open, without changes.
    pub(crate) fn unwind_newest(&mut self)
        requires { 0 < length self.old.journal }
        ensures { UnwindsNewest self.old self.new }
    {
        while self.unwind_one() {}
    }

    /// Settles all changes of the oldest session, the oldest first, and ends it.
    pub(crate) fn end_oldest(&mut self)
        requires { 0 < length self.old.journal }
        ensures { EndsOldest self.old self.new }
    {
        while self.settle_one() {}
        self.journal.end_oldest();
    }
}
