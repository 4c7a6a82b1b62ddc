ghost use Rattle.std.specs.Prelude.{◌≡◌};

use crate::view::View;
use atomic_table::Badge;
use std::marker::Model;

/// A seat of a turn, from which calls are made. It has a number, what it has seen of the history, and its own calls.
#[derive(Drop)]
pub struct Seat<Q, A> {
    pub(crate) number: u64,
    pub(crate) badge: Badge<View<Q, A>>,
}

impl<Q, A> Model for Seat<Q, A> {
    ghost use Rattle.std.specs.Prelude.{◌≡◌, [], ◌∷◌};
    ghost use Rattle.step_turn.specs.Seats.{SeatValue};
    ghost use Rattle.step_turn.specs.Order.{view_of, own_of, at_rest};

    ghost Value = { SeatValue Q A };

    ghost view = { λ s. record { number = s.number; seen = (view_of s.badge.views).seen; own = own_of (view_of s.badge.views); turn = s.badge.table_id } };

    ghost invariant = { λ s. s.badge.views ≡ at_rest s.number (view_of s.badge.views) ∷ [] };
}

impl<Q, A> Seat<Q, A> {
    pub(crate) fn number(&self) -> u64
        ensures { result ≡ self.now.number }
    {
        self.number
    }
}

/// What a seat had seen, for another seat to take in.
#[derive(Drop)]
pub struct Note<Q, A> {
    pub(crate) badge: Badge<View<Q, A>>,
}

impl<Q, A> Model for Note<Q, A> {
    ghost use Rattle.std.specs.Prelude.{◌≡◌, [], ◌∷◌};
    ghost use Rattle.step_turn.specs.Seats.{NoteValue};
    ghost use Rattle.step_turn.specs.Order.{view_of, noted};

    ghost Value = { NoteValue Q A };

    ghost view = { λ n. record { seen = (view_of n.badge.views).seen; turn = n.badge.table_id } };

    ghost invariant = { λ n. n.badge.views ≡ noted (view_of n.badge.views).seats (view_of n.badge.views).seen ∷ [] };
}

/// A call was answered.
#[derive(Debug, PartialEq, Eq, Drop)]
pub struct Receipt<A> {
    /// The call's number in the history, from 1 on.
    pub number: u64,
    /// What the object answered.
    pub answer: A,
}
