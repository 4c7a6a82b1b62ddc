ghost use Rattle.std.specs.Prelude.{◌≡◌, ◌+◌, ◌-◌, ◌^◌, ◌<◌, ◌≤◌, ◌++◌, ℕ, suc, List, Option, true, false, [], ◌∷◌, length, map, Some, None, All, IfOk, IfErr, OnOk, vec_capacity};
ghost use Rattle.step_turn.specs.Seats.{TurnValue, AreNew, AreOf, IsSameSeat, Answered, Met, Closes, has_number, missing};
ghost use Rattle.step_turn.specs.Histories.{call_count, Reaches, IsLegal, StartsWith, turn_of, made_by, Every};
ghost use Rattle.step_turn.specs.Order.{HasChair, with_ticket, looked, Looked, Advanced, Adds, IsAdded, served, first_number, Made, making, IsIdle, Gathers};
ghost use Rattle.step_turn.specs.declared.entry.Call.{Call};
ghost use Rattle.step_turn.specs.declared.entry.Entry.{Entry};

use crate::order::{
    Advances, Cut, Joined, Looking, Looks, Making, Opening, Order, SERVING, TICKET, TakesTicket,
};
use crate::seat::{Note, Receipt, Seat};
use crate::serve::serve;
use crate::steps::{Steps, StepsBy};
use crate::view::View;
use atomic_table::{Badge, Table};
use std::alloc::{AllocError, Global};
use std::marker::{Brand, Model};
use std::snapshot::Snapshot;
use std::sync::Wait;
use std::{hint, mem};

/// Memory ran out.
pub type NoMemory = AllocError;

// How often a waiting seat looks before it sleeps.
const LOOKS: u32 = 100;

// A seat that takes part in a call.
type Place<S, Q, A> = atomic_table::Seat<Option<S>, View<Q, A>>;

/// An object that threads share. Each takes the turn, makes one step, and gets a receipt.
#[derive(Drop)]
pub struct Turn<S: Steps> {
    table: Table<Option<S>, View<S::Asked, S::Answer>, Opening<S>, Order, Global>,
    seats: u64,
}

impl<S: Steps> Model for Turn<S> {
    ghost use Rattle.std.specs.Prelude.{◌≡◌};
    ghost use Rattle.step_turn.specs.Seats.{TurnValue};

    ghost Value = { TurnValue S };

    ghost view = { λ t. record { start = t.table.shared.key.object.value; seats = t.seats; id = t.table.shared.table_id } };

    ghost invariant = { λ t. (t.table.shared.key.seats ≡ t.seats) × (t.table.shared.table_id.words ≡ 2) × (t.table.shared.table_id.slots ≡ 1) };
}

/// A seat of the turn isn't among those that were handed in.
#[derive(Drop)]
pub struct CloseFault<S: Steps> {
    pub turn: Turn<S>,
    pub seats: Vec<Seat<S::Asked, S::Answer>>,
    /// How many seats of the turn are missing.
    pub out: u64,
}

impl<S: Steps> Turn<S> {
    /// A turn over this object, and its seats in the order of their numbers 0, 1, and so on. They have seen nothing. Without
    /// memory the object comes back.
    pub fn new(
        alloc: Global,
        object: S,
        seats: u32,
    ) -> Result<(Turn<S>, Vec<Seat<S::Asked, S::Answer>>), (S, NoMemory)>
        requires running { S.meaning.stopped object ≡ false }
        requires seats { (1 ≤ seats) × (seats ≤ 64) }
        ensures turn { IfOk result (λ made. (made.0.start ≡ object) × (made.0.seats ≡ seats)) }
        ensures seats { IfOk result (λ made. (length made.1.items ≡ seats) × AreNew made.0.id 0 made.1.items) }
        ensures of { IfOk result (λ made. All (λ seat. seat.turn ≡ made.0.id) made.1.items) }
        ensures back { IfErr result (λ refused. refused.0 ≡ object) }
    {
        let Ok(mut made) = Vec::with_capacity(alloc, seats as usize) else {
            return Err((object, AllocError));
        };
        let Ok(mut slots) = Vec::with_capacity(alloc, 1) else {
            return Err((object, AllocError));
        };
        let opening = Opening {
            object: Snapshot::of(&object),
            seats: u64::from(seats),
        };
        slots.push_reserved(Some(object));
        match Table::new(alloc, &[0, 0], slots, &opening) {
            Ok((table, mut maker)) => {
                let turn = Turn {
                    table,
                    seats: u64::from(seats),
                };
                turn.make_seats(&mut maker, &mut made);
                Ok((turn, made))
            }
            Err(refused) => Err((only(refused.slots), AllocError)),
        }
    }

    /// One call from a seat: it waits for its turn, opens the object where it is stopped, and makes one step. The seat sees the
    /// history up to the call, which is one more of its own.
    pub fn call<R: Wait, Q>(
        &self,
        rt: &R,
        alloc: Global,
        seat: &mut Seat<S::Asked, S::Answer>,
        question: &Q,
    ) -> Receipt<S::Answer>
    where
        S: StepsBy<Q>,
        requires seat { seat.old.turn ≡ self.now.id }
        requires may { S.may_ask question.now }
        ensures seat { IsSameSeat seat.old seat.new }
        ensures answered { Answered S.meaning self.now.start seat.old (S.asks question.now) result.number result.answer seat.new }
    {
        let mut place = mem::replace(&mut seat.badge, Badge::blank()).into_seat();
        let number = self.wait(rt, &mut place) + 1;
        let answer = self.take_turn(alloc, &mut place, question);
        seat.badge = place.into_badge();
        Receipt { number, answer }
    }

    // Takes a ticket. Where the word stands at its last value it waits for ever.
    fn take_ticket<R: Wait>(&self, rt: &R, place: &mut Place<S, S::Asked, S::Answer>) -> u64
        requires place { (place.old.table_id ≡ self.now.id) × (place.old.me.0.ticket ≡ None) }
        requires waits { HasChair place.old.me.0 × (place.old.me.0.has_turn ≡ false) × (place.old.me.1 ≡ []) }
        ensures place { (place.new.table_id ≡ place.old.table_id) × (place.new.id ≡ place.old.id) }
        ensures ticket { place.new.me ≡ (with_ticket place.old.me.0 (Some result), place.old.me.1) }
        ensures below { result + 1 < 2 ^ 64 }
    {
        let mut ticket = self.table.shared.peek(TICKET);
        for _ in rt.forever() {
            if ticket < u64::MAX {
                let found = self
                    .table
                    .shared
                    .compare_exchange::<TakesTicket>(place, TICKET, ticket, ticket + 1);
                if found == ticket {
                    break;
                }
            }
            ticket = self.table.shared.peek(TICKET);
        }
        ticket
    }

    fn look_as<J: Looking<S, S::Asked, S::Answer>>(
        &self,
        place: &mut Place<S, S::Asked, S::Answer>,
    ) -> u64
        requires place { place.old.table_id ≡ self.now.id }
        requires waits { HasChair place.old.me.0 × (place.old.me.0.has_turn ≡ false) }
        requires legal { (log : List (Entry S.Asked S.Answer)) → IsLegal S.meaning self.now.start log → J.legal log }
        requires reached { (log : List (Entry S.Asked S.Answer)) (object : S) → Reaches S.meaning self.now.start log object → J.reached log object }
        ensures place { (place.new.table_id ≡ place.old.table_id) × (place.new.id ≡ place.old.id) }
        ensures looks { Looked J.legal J.reached place.old.me result place.new.me }
    {
        self.table.shared.load::<Looks<J>>(place, SERVING)
    }

    // Looks at the ticket that is served, and takes the turn where it is the seat's.
    fn look(&self, place: &mut Place<S, S::Asked, S::Answer>) -> u64
        requires place { place.old.table_id ≡ self.now.id }
        requires waits { HasChair place.old.me.0 × (place.old.me.0.has_turn ≡ false) }
        ensures place { (place.new.table_id ≡ place.old.table_id) × (place.new.id ≡ place.old.id) }
        ensures looks { Looked (IsLegal S.meaning self.now.start) (Reaches S.meaning self.now.start) place.old.me result place.new.me }
    {
        self.look_as::<Brand>(place)
    }

    // Waits until this ticket is served, and takes the turn.
    fn wait_for<R: Wait>(&self, rt: &R, place: &mut Place<S, S::Asked, S::Answer>, ticket: u64)
        requires place { place.old.table_id ≡ self.now.id }
        requires waits { HasChair place.old.me.0 × (place.old.me.0.has_turn ≡ false) }
        requires ticket { place.old.me.0.ticket ≡ Some ticket }
        ensures place { (place.new.table_id ≡ place.old.table_id) × (place.new.id ≡ place.old.id) }
        ensures looks { Looked (IsLegal S.meaning self.now.start) (Reaches S.meaning self.now.start) place.old.me ticket place.new.me }
    {
        for _ in rt.forever() {
            let found = self.look(place);
            if found == ticket {
                break;
            }
            self.pause(rt, found);
        }
    }

    // Waits for another ticket to be served than this one: a little while awake, and then asleep.
    fn pause<R: Wait>(&self, rt: &R, served: u64) {
        let shared = &self.table.shared;
        for _ in 0..LOOKS {
            if shared.peek(SERVING) != served {
                return;
            }
            hint::spin_loop();
        }
        shared.park(rt, SERVING, (served % (1 << 32)) as u32);
    }

    // Takes a ticket and waits for the turn. Answers the ticket.
    fn wait<R: Wait>(&self, rt: &R, place: &mut Place<S, S::Asked, S::Answer>) -> u64
        requires place { (place.old.table_id ≡ self.now.id) × (place.old.me.0.ticket ≡ None) }
        requires waits { HasChair place.old.me.0 × (place.old.me.0.has_turn ≡ false) × (place.old.me.1 ≡ []) }
        ensures place { (place.new.table_id ≡ place.old.table_id) × (place.new.id ≡ place.old.id) }
        ensures below { result + 1 < 2 ^ 64 }
        ensures looks { Looked (IsLegal S.meaning self.now.start) (Reaches S.meaning self.now.start) (with_ticket place.old.me.0 (Some result), place.old.me.1) result place.new.me }
    {
        let ticket = self.take_ticket(rt, place);
        self.wait_for(rt, place, ticket);
        ticket
    }

    // The question and the answer are for the caller's pick.
    fn advance_as<J: Making<S::Asked, S::Answer>, Q>(
        &self,
        place: &mut Place<S, S::Asked, S::Answer>,
        _question: &Q,
        _answer: &S::Answer,
    )
        requires place { (place.old.table_id ≡ self.now.id) × HasChair place.old.me.0 × (place.old.me.0.has_turn ≡ true) }
        requires made { (object : S) × (reopened : Option (ℕ × ℕ)) × (call : Call S.Asked S.Answer) × (place.old.me.1 ≡ (0, Some object) ∷ []) × (call.seat ≡ first_number place.old.me.0.chairs) × Reaches S.meaning self.now.start (place.old.me.0.seen ++ turn_of reopened call) object × J.made reopened call }
        ensures place { (place.new.table_id ≡ place.old.table_id) × (place.new.id ≡ place.old.id) }
        ensures advanced { Advanced J.made place.old.me place.new.me }
    {
        self.table
            .shared
            .fetch_add::<Advances<J>>(place, SERVING, 1);
    }

    // Ends the turn with this call, and wakes the seats that sleep until it ends.
    fn advance<Q>(
        &self,
        place: &mut Place<S, S::Asked, S::Answer>,
        question: &Q,
        answer: &S::Answer,
    )
    where
        S: StepsBy<Q>,
        requires place { (place.old.table_id ≡ self.now.id) × HasChair place.old.me.0 × (place.old.me.0.has_turn ≡ true) }
        requires added { (object : S) × (place.old.me.1 ≡ (0, Some object) ∷ []) × IsAdded S.meaning self.now.start place.old.me.0.seen (first_number place.old.me.0.chairs) (S.asks question.now) answer.now object }
        ensures place { (place.new.table_id ≡ place.old.table_id) × (place.new.id ≡ place.old.id) }
        ensures advanced { Advanced (Made S.meaning self.now.start place.old.me.0.seen (first_number place.old.me.0.chairs) (S.asks question.now) answer.now) place.old.me place.new.me }
    {
        self.advance_as::<Brand, Q>(place, question, answer);
        self.wake();
    }

    // Wakes the seats that wait. A seat takes its ticket before it looks, so one that isn't counted here sees the ticket that is
    // served now, and doesn't sleep on the one before.
    fn wake(&self) {
        let shared = &self.table.shared;
        if shared.peek(TICKET) > shared.peek(SERVING) {
            shared.wake_all(SERVING);
        }
    }

    // Takes the object out of the slot.
    fn take_out(&self, place: &mut Place<S, S::Asked, S::Answer>) -> S
        requires place { place.old.table_id ≡ self.now.id }
        requires holds { (object : S) × (place.old.me.1 ≡ (0, Some object) ∷ []) }
        ensures place { (place.new.table_id ≡ place.old.table_id) × (place.new.id ≡ place.old.id) }
        ensures object { place.old.me.1 ≡ (0, Some result) ∷ [] }
        ensures slot { place.new.me ≡ (place.old.me.0, (0, None) ∷ []) }
    {
        let slot = self.table.shared.exchange(place, 0, None);
        let Some(object) = slot else { unreachable!() };
        object
    }

    // Gives the object back to the slot.
    fn put_back(&self, place: &mut Place<S, S::Asked, S::Answer>, object: S)
        requires place { place.old.table_id ≡ self.now.id }
        requires vacant { place.old.me.1 ≡ (0, None) ∷ [] }
        ensures place { (place.new.table_id ≡ place.old.table_id) × (place.new.id ≡ place.old.id) }
        ensures slot { place.new.me ≡ (place.old.me.0, (0, Some object) ∷ []) }
    {
        let slot = self.table.shared.exchange(place, 0, Some(object));
        let None = slot else { unreachable!() };
    }

    // The object takes its step while the seat has the turn, and the turn ends.
    fn take_turn<Q>(
        &self,
        alloc: Global,
        place: &mut Place<S, S::Asked, S::Answer>,
        question: &Q,
    ) -> S::Answer
    where
        S: StepsBy<Q>,
        requires may { S.may_ask question.now }
        requires place { (place.old.table_id ≡ self.now.id) × HasChair place.old.me.0 × (place.old.me.0.has_turn ≡ true) }
        requires holds { (object : S) × (place.old.me.1 ≡ (0, Some object) ∷ []) × Reaches S.meaning self.now.start place.old.me.0.seen object }
        ensures place { (place.new.table_id ≡ place.old.table_id) × (place.new.id ≡ place.old.id) }
        ensures advanced { Advanced (Made S.meaning self.now.start place.old.me.0.seen (first_number place.old.me.0.chairs) (S.asks question.now) result) (place.old.me.0, []) place.new.me }
    {
        let mut object = self.take_out(place);
        let answer = serve(&mut object, alloc, question);
        self.put_back(place, object);
        self.advance(place, question, &answer);
        answer
    }

    /// A note of what the seat has seen.
    pub fn note(&self, seat: &mut Seat<S::Asked, S::Answer>) -> Note<S::Asked, S::Answer>
        requires seat { seat.old.turn ≡ self.now.id }
        ensures seat { seat.new ≡ seat.old }
        ensures note { (result.seen ≡ seat.old.seen) × (result.turn ≡ seat.old.turn) }
    {
        let mut place = mem::replace(&mut seat.badge, Badge::blank()).into_seat();
        let note = self.table.shared.split_seat::<Cut>(&mut place);
        seat.badge = place.into_badge();
        Note {
            badge: note.into_badge(),
        }
    }

    /// Takes a note in: the seat has then seen all that the note had seen, in one history with its own.
    pub fn meet(&self, seat: &mut Seat<S::Asked, S::Answer>, note: Note<S::Asked, S::Answer>)
        requires seat { seat.old.turn ≡ self.now.id }
        requires note { note.turn ≡ self.now.id }
        ensures seat { IsSameSeat seat.old seat.new }
        ensures met { Met S.meaning self.now.start seat.old note seat.new }
    {
        let mut place = mem::replace(&mut seat.badge, Badge::blank()).into_seat();
        let noted = note.badge.into_seat();
        self.table.shared.join_seat::<Joined>(&mut place, noted);
        self.look(&mut place);
        seat.badge = place.into_badge();
    }

    /// The object, once all seats are handed in.
    pub fn close(self, seats: Vec<Seat<S::Asked, S::Answer>>) -> Result<S, CloseFault<S>>
        requires seats { 0 < length seats.items }
        requires turn { AreOf self.id seats.items }
        ensures closes { IfOk result (λ object. Closes S.meaning self seats.items object) }
        ensures all { OnOk result (missing self.seats seats.items ≡ 0) }
        ensures out { IfErr result (λ refused. (0 < refused.out) × (refused.out ≡ missing self.seats seats.items)) }
        ensures back { IfErr result (λ refused. (refused.turn ≡ self) × (refused.seats.items ≡ seats.items)) }
    {
        let out = count_missing(self.seats, &seats);
        if out > 0 {
            return Err(CloseFault {
                turn: self,
                seats,
                out,
            });
        }
        Ok(self.close_all(seats))
    }

    // The object, where no seat is missing.
    fn close_all(self, mut seats: Vec<Seat<S::Asked, S::Answer>>) -> S
        requires seats { 0 < length seats.items }
        requires turn { AreOf self.id seats.items }
        requires all { missing self.seats seats.items ≡ 0 }
        ensures { Closes S.meaning self seats.items result }
    {
        let Some(first) = seats.pop() else {
            unreachable!()
        };
        let mut place = first.badge.into_seat();
        self.gather(&mut place, seats);
        let Turn { table, seats: _ } = self;
        let mut closed = table.close_with(place);
        let slot = closed.take(0);
        closed.free();
        let Some(object) = slot else { unreachable!() };
        object
    }

    // The seat with the next number, from the first view.
    fn seat(
        &self,
        maker: &mut Place<S, S::Asked, S::Answer>,
        number: u64,
    ) -> Seat<S::Asked, S::Answer>
        requires maker { (maker.old.table_id ≡ self.now.id) × (maker.old.me ≡ (making self.now.seats (self.now.seats - number), [])) }
        requires left { number < self.now.seats }
        ensures maker { (maker.new.table_id ≡ maker.old.table_id) × (maker.new.me ≡ (making self.now.seats (self.now.seats - (number + 1)), [])) }
        ensures seat { result ≡ record { number = number; seen = []; own = []; turn = self.now.id } }
    {
        let place = self.table.shared.split_seat::<Cut>(maker);
        Seat {
            number,
            badge: place.into_badge(),
        }
    }

    // All seats of the turn, in the order of their numbers.
    fn make_seats(
        &self,
        maker: &mut Place<S, S::Asked, S::Answer>,
        made: &mut Vec<Seat<S::Asked, S::Answer>>,
    )
        requires maker { (maker.old.table_id ≡ self.now.id) × (maker.old.me ≡ (making self.now.seats self.now.seats, [])) }
        requires made { (made.old.items ≡ []) × (self.now.seats ≤ vec_capacity made.old) }
        ensures { (length made.new.items ≡ self.now.seats) × AreNew self.now.id 0 made.new.items }
    {
        for number in 0..self.seats {
            made.push_reserved(self.seat(maker, number));
        }
    }

    // Joins all these seats into one.
    fn gather(
        &self,
        place: &mut Place<S, S::Asked, S::Answer>,
        mut seats: Vec<Seat<S::Asked, S::Answer>>,
    )
        requires place { (place.old.table_id ≡ self.now.id) × IsIdle place.old.me × HasChair place.old.me.0 }
        requires turn { AreOf self.now.id seats.items }
        ensures place { (place.new.table_id ≡ place.old.table_id) × (place.new.id ≡ place.old.id) }
        ensures gathers { Gathers place.old.me place.new.me seats.items [] }
    {
        while let Some(seat) = seats.pop() {
            let joining = seat.badge.into_seat();
            self.table.shared.join_seat::<Joined>(place, joining);
        }
    }
}

// How many of the numbers below this one none of these seats has.
fn count_missing<Q, A>(count: u64, seats: &[Seat<Q, A>]) -> u64
    ensures { result ≡ missing count seats.now }
{
    let mut out = 0;
    for number in 0..count {
        if !any_has(number, seats) {
            out += 1;
        }
    }
    out
}

fn any_has<Q, A>(number: u64, seats: &[Seat<Q, A>]) -> bool
    ensures { result ≡ has_number number seats.now }
{
    let mut found = false;
    for seat in seats {
        found = found || seat.number() == number;
    }
    found
}

// The one object of these slots.
fn only<S>(mut slots: Vec<Option<S>>) -> S
    requires { (object : S) × (slots.items ≡ Some object ∷ []) }
    ensures { slots.items ≡ Some result ∷ [] }
{
    let slot = slots.pop();
    slots.destroy_empty();
    let Some(Some(object)) = slot else {
        unreachable!()
    };
    object
}
