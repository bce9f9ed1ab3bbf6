//! Connections that others have asked to end. It asks nobody, and reads no line.
ghost use Rattle.std.specs.Prelude.{◌≡◌, ℕ, MatchOption};
ghost use Rattle.mi_clients.specs.Clients.{ids};
ghost use Rattle.mi_clients.specs.Ending.{NoneEnds, TakesEnd, EachEnded, HasAsked, IsBroken, IsAsBefore};

use crate::client::Client;

/// The number that the first of a list has asked to end, which is noted no more.
pub(crate) fn next_end<S>(clients: &mut Vec<Client<S>>) -> Option<u64>
    ensures { MatchOption result ((clients.new.items ≡ clients.old.items) × NoneEnds clients.old.items) (λ conn. TakesEnd conn clients.old.items clients.new.items) }
{
    'clients: for i in 0..clients.len() {
        if clients[i].ends.is_some() {
            return clients[i].take_end();
        }
    }
    None
}

/// The connection of this number is given up, where it is there.
pub(crate) fn end_one<S>(clients: &mut Vec<Client<S>>, conn: u64)
    ensures ended { EachEnded conn clients.old.items clients.new.items }
    ensures ids { ids clients.new.items ≡ ids clients.old.items }
{
    for client in clients.iter_mut() {
        client.end(conn);
    }
}

/// Gives up the connections that those of a list have asked to end since the last call, and no other. `serve_all` then undoes their sessions, and
/// lets them go.
pub fn end_asked<S>(clients: &mut Vec<Client<S>>)
    ensures ids { ids clients.new.items ≡ ids clients.old.items }
    ensures ended { (n : ℕ) → HasAsked n clients.old.items → IsBroken n clients.new.items }
    ensures others { (n : ℕ) → ¬ HasAsked n clients.old.items → IsAsBefore n clients.old.items clients.new.items }
    ensures none { NoneEnds clients.new.items }
{
    'asked: while let Some(conn) = next_end(clients) {
        end_one(clients, conn);
    }
}
