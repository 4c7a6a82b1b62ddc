ghost use Rattle.std.specs.Prelude.{ℕ, List, Option};
ghost use Rattle.step_turn.specs.declared.entry.Call.{Call};
ghost use Rattle.step_turn.specs.declared.entry.Entry.{Entry};

use crate::steps::Steps;
use crate::view::View;
use atomic_table::{Join, Play, Split, TableRule};
use std::marker::{Brand, PhantomData};
use std::snapshot::Snapshot;

/// The word of the next ticket.
pub const TICKET: usize = 0;

/// The word of the ticket that is served.
pub const SERVING: usize = 1;

/// What a turn is made of: the object as it was then, and how many seats it has.
#[derive(Drop)]
pub struct Opening<S> {
    pub object: Snapshot<S>,
    pub seats: u64,
}

/// The rule of a turn.
pub struct Order;

impl<S: Steps> TableRule<Option<S>, View<S::Asked, S::Answer>, Opening<S>> for Order {
    ghost use Rattle.step_turn.specs.Order.{IsOrdered, maker};

    ghost holds = { λ key state. IsOrdered S.meaning key.object.value key.seats state };

    ghost first = { λ key. maker key.seats };
}

/// Takes a ticket.
pub struct TakesTicket;

impl<S, Q, A> Play<Option<S>, View<Q, A>> for TakesTicket {
    ghost use Rattle.step_turn.specs.Order.{TookTicket};

    ghost then = { TookTicket };
}

/// What a look tells. Each call of it picks this.
pub trait Looking<S, Q, A> {
    ghost legal: { List (Entry Q A) → Type 0 };

    ghost reached: { List (Entry Q A) → S → Type 0 };
}

impl<S, Q, A> Looking<S, Q, A> for Brand {
    ghost legal = { λ seen. Unit {0} };

    ghost reached = { λ seen object. Unit {0} };
}

/// Looks at the ticket that is served, and takes the turn where it is the seat's.
pub struct Looks<J>(PhantomData<J>);

impl<S, Q, A, J: Looking<S, Q, A>> Play<Option<S>, View<Q, A>> for Looks<J> {
    ghost use Rattle.step_turn.specs.Order.{Looked};

    ghost then = { λ step me found after. Looked J.legal J.reached me found after };
}

/// What the end of a turn tells. Each call of it picks this.
pub trait Making<Q, A> {
    ghost made: { Option (ℕ × ℕ) → Call Q A → Type 0 };
}

impl<Q, A> Making<Q, A> for Brand {
    ghost made = { λ reopened call. Unit {0} };
}

/// Ends the turn.
pub struct Advances<J>(PhantomData<J>);

impl<S, Q, A, J: Making<Q, A>> Play<Option<S>, View<Q, A>> for Advances<J> {
    ghost use Rattle.step_turn.specs.Order.{Advanced};

    ghost then = { λ step me found after. Advanced J.made me after };
}

/// Makes a seat of the turn, or a note of what a seat has seen.
pub struct Cut;

impl<Q, A> Split<View<Q, A>> for Cut {
    ghost use Rattle.step_turn.specs.Order.{left_of, right_of};

    ghost left = { left_of };

    ghost right = { right_of };
}

/// Takes in what another seat or a note knows.
pub struct Joined;

impl<Q, A> Join<View<Q, A>> for Joined {
    ghost use Rattle.step_turn.specs.Order.{joined, spent};

    ghost both = { joined };

    ghost spent = { spent };
}
