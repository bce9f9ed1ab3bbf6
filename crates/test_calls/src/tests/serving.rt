//! A hub with one connection. The calls have no contract of their own, so that a test that makes one carries none of what the
//! call below promises.
use mi_hub::{Hub, Watched};
use mi_sessions::Sessions;
use std::alloc::Global;
use std::process::Abort;

/// A hub over a database, with connection 1.
pub(super) fn served<D: Sessions + Drop>(rt: &impl Abort, alloc: Global, database: D) -> Hub<D> {
    let mut hub = Hub::new(alloc, database);
    hub.attach(1).expect(rt, "the connection is attached");
    hub
}

/// What connection 1 is answered to a line.
pub(super) fn answer<D: Sessions + Drop>(
    rt: &impl Abort,
    alloc: Global,
    hub: &mut Hub<D>,
    line: &str,
) -> Vec<u8> {
    let mut writer = Watched::new(Vec::new(alloc));
    hub.feed(1, line.as_bytes(), &mut writer)
        .expect(rt, "the line is answered");
    writer.inner().to_vec(alloc).expect(rt, "memory is there")
}
