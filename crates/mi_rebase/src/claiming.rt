//! The file of a base that isn't whole yet: one process alone has it, and so rebases the journal. It looks at no byte.
ghost use Rattle.std.specs.Prelude.{◌≡◌, true, IfOk};
ghost use Rattle.std.specs.String.{string_bytes};
ghost use Rattle.mi_recovery.specs.Names.{new_base_name};

use mi_recovery::{
    JournalFailure, JournalFault, JournalFile, JournalFiles, claimed, new_base_path,
};
use std::alloc::Global;

/// The file of a journal's base that isn't whole yet. Until it is renamed or dropped no other process rebases the journal.
#[derive(Drop)]
pub struct NewBase<F> {
    /// Its path.
    pub path: String,
    /// The file, which this process has locked.
    pub file: F,
}

/// Claims the file of a base that isn't whole yet, of a path's journal. It is made where none is there, and its bytes stay.
///
/// `Locked` where another process has it, and so rebases the journal. `File` where it can't be opened, made or locked, and `Memory`.
pub fn claim_new_base<P: JournalFiles>(
    alloc: Global,
    files: &P,
    path: &str,
) -> Result<NewBase<P::File>, JournalFault>
    ensures locked { IfOk result (λ new. P.File.is_locked new.file ≡ true) }
    ensures seen { IfOk result (λ new. P.is_seen files.now (new_base_name path.now) new.file) }
    ensures path { IfOk result (λ new. string_bytes new.path ≡ new_base_name path.now) }
{
    let Ok(name) = new_base_path(alloc, path) else {
        return Err(JournalFault::from(JournalFailure::Memory));
    };
    let file = claimed(files, name.as_str(), true)?;
    Ok(NewBase { path: name, file })
}

/// Takes the file of a base that isn't whole yet away, where it is there and no process has it: it would have room that changes need. No clause says
/// that it goes.
pub fn discard_new_base<P: JournalFiles>(alloc: Global, files: &P, path: &str) {
    let Ok(name) = new_base_path(alloc, path) else {
        return;
    };
    if let Ok(_claimed) = claimed(files, name.as_str(), false) {
        let _ = files.remove(name.as_str());
    }
}
