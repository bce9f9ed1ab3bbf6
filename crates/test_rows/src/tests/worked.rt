//! The worked rows, cut into pieces in every way.
use super::databases::{Ended, Form};
use super::long_rows::long_scripts;
use super::script::{Pieces, Script, scripts};
use super::streams::Sink;
use mi_schema::read_catalog;
use std::alloc::Global;
use std::process::Abort;
use std::test::Fail;

/// A row in such pieces is answered as it says.
fn check_script(
    rt: &impl Abort,
    alloc: Global,
    form: Form,
    script: &Script,
    pieces: Pieces,
) -> Result<(), Fail> {
    let catalog = read_catalog(alloc, script.tables.as_bytes())?;
    let events = script.events(alloc, pieces)?;
    let ended = form.driven(alloc, &catalog, events.as_slice(), Sink::sound(alloc))?;
    assert!(rt; ended.answer.is_ok(), "{} in {pieces:?}", script.name);
    check_written(rt, script, pieces, &ended, script.replies(alloc)?.as_str());
    Ok(())
}

/// What was written is what is wanted.
fn check_written(rt: &impl Abort, script: &Script, pieces: Pieces, ended: &Ended, want: &str) {
    assert_eq!(rt;
        ended.written.as_slice(),
        want.as_bytes(),
        "{} in {pieces:?}",
        script.name
    );
}

/// Each row, in pieces of each of these ways, is answered as it says.
fn check_scripts(
    rt: &impl Abort,
    alloc: Global,
    form: Form,
    scripts: &[Script],
    cuts: &[Pieces],
) -> Result<(), Fail> {
    for script in scripts {
        for pieces in cuts {
            check_script(rt, alloc, form, script, *pieces)?;
        }
    }
    Ok(())
}

/// The rows that are written down, over one form of the database.
fn check_rows(rt: &impl Abort, alloc: Global, form: Form) -> Result<(), Fail> {
    let cuts = [
        Pieces::Lines,
        Pieces::Halves,
        Pieces::Of(1),
        Pieces::Of(2),
        Pieces::Of(3),
        Pieces::Of(7),
        Pieces::Of(4096),
    ];
    check_scripts(rt, alloc, form, scripts(alloc)?.as_slice(), &cuts)
}

/// The rows that are made, over one form of the database: once with many records, and cut in more ways with fewer.
fn check_long_rows(rt: &impl Abort, alloc: Global, form: Form) -> Result<(), Fail> {
    let many = long_scripts(alloc, 5_000)?;
    check_scripts(rt, alloc, form, many.as_slice(), &[Pieces::Halves])?;
    let fewer = long_scripts(alloc, 50)?;
    let cuts = [Pieces::Lines, Pieces::Of(7), Pieces::Of(4096)];
    check_scripts(rt, alloc, form, fewer.as_slice(), &cuts)
}

#[test]
fn plain_answers_rows(rt: HostRuntime) -> Result<(), Fail> {
    check_rows(&rt, rt.alloc(), Form::Plain)
}

#[test]
fn served_answers_rows(rt: HostRuntime) -> Result<(), Fail> {
    check_rows(&rt, rt.alloc(), Form::Served)
}

#[test]
fn plain_answers_long_rows(rt: HostRuntime) -> Result<(), Fail> {
    check_long_rows(&rt, rt.alloc(), Form::Plain)
}

#[test]
fn served_answers_long_rows(rt: HostRuntime) -> Result<(), Fail> {
    check_long_rows(&rt, rt.alloc(), Form::Served)
}
