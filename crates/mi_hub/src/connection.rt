//! Attached connections, found by their number.
ghost use Rattle.std.specs.Prelude.{◌≡◌, None, MatchOption};
ghost use Rattle.mi_hub.specs.Connections.{rest_at};
ghost use Rattle.mi_hub.specs.Places.{StandsAt};

use crate::line::LineBuffer;

/// An attached connection, and its bytes since the last newline.
#[derive(Drop)]
pub struct Connection {
    pub id: u64,
    pub rest: LineBuffer,
}

/// Where a connection stands first in the list, from 0.
pub fn place_of(connections: &[Connection], conn: u64) -> Option<usize>
    ensures { MatchOption result (rest_at conn connections.now ≡ None) (λ i. StandsAt conn i connections.now) }
{
    for (i, connection) in connections.iter().enumerate() {
        if connection.id == conn {
            return Some(i);
        }
    }
    None
}
