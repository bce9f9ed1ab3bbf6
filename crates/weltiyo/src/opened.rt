//! What opening gives to a caller that isn't Rattle: a status, and the address of the engine where that is 0.
ghost use Rattle.std.specs.Prelude.{◌≡◌, ◌<◌};
ghost use Rattle.mi_embed.specs.State.{EngineState};
ghost use Rattle.mi_embed.specs.contracts.engine.Engine.{the_row};

use crate::raw_box::RawBox;
use mi_embed::Engine;
use std::alloc::Global;
use std::marker::Model;
use std::ptr::null_mut;

/// A status, and where the engine is: nowhere unless the status is 0.
pub(crate) struct Opened {
    pub(crate) at: *mut Engine,
    pub(crate) status: u32,
    pub(crate) ghost engine: { EngineState } by { the_row.coded },
}

impl Model for Opened {
    ghost use Rattle.weltiyo.specs.Handle.{engine_where};

    ghost also_owns = { λ o. engine_where o.status o.at o.engine };
}

impl Opened {
    /// An engine, at its address.
    pub(crate) fn of(raw_box: RawBox<Engine, Global>) -> Opened
        ensures status { result.status ≡ 0 }
        ensures engine { result.engine ≡ raw_box.value }
    {
        let RawBox { at, alloc: _ } = raw_box;
        Opened { at, status: 0 }
    }

    /// No engine.
    pub(crate) fn none(status: u32) -> Opened
        requires { 0 < status }
        ensures { result.status ≡ status }
    {
        Opened {
            at: null_mut(),
            status,
        }
    }
}
