//! The commands over a key of an index: of each its request.
ghost use Rattle.std.specs.Prelude.{◌≡◌};
ghost use Rattle.mi_request.specs.Keyed.{asked_key};

use crate::array::Array;
use crate::name::Name;
use crate::request::{ChangeRequest, KeyLookUpRequest, Request};

/// A command over a key of an index.
#[derive(Clone, Copy)]
pub(crate) enum KeyCommand {
    EraseKey,
    Find,
    Count,
    LowerRank,
    UpperRank,
}

impl KeyCommand {
    /// The request that it is with these members.
    #[inline(always)]
    pub(crate) fn request<'a>(
        self,
        table: Option<Name<'a>>,
        index: Name<'a>,
        key: Array<'a>,
    ) -> Request<'a>
        ensures { result ≡ asked_key self table.entry index.entry key.entry }
    {
        match self {
            KeyCommand::EraseKey => {
                let change = ChangeRequest::EraseKey { index, key };
                Request::Change { table, change }
            }
            KeyCommand::Find => {
                let look_up = KeyLookUpRequest::Find { index, key };
                Request::KeyLookUp { table, look_up }
            }
            KeyCommand::Count => {
                let look_up = KeyLookUpRequest::Count { index, key };
                Request::KeyLookUp { table, look_up }
            }
            KeyCommand::LowerRank => {
                let look_up = KeyLookUpRequest::LowerRank { index, key };
                Request::KeyLookUp { table, look_up }
            }
            KeyCommand::UpperRank => {
                let look_up = KeyLookUpRequest::UpperRank { index, key };
                Request::KeyLookUp { table, look_up }
            }
        }
    }
}
