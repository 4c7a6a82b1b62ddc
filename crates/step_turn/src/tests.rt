ghost use Rattle.std.specs.Prelude.{◌≡◌, false, All, IfOk};

use crate::{Counted, Counter, Seat, Turn};
use std::alloc::{AllocError, Global};
use std::sync::Wait;
use std::sync::atomic::{AtomicU64, Ordering};
use std::test::Fail;
use std::thread::Threads;
use std::{hint, thread};

const LIMIT: u64 = 1_000_000;

const SEATS: u32 = 8;

const CALLS: u64 = 1_000;

// How often a thread that has begun looks whether all have.
const LOOKS: u32 = 1_000_000;

// A call of the counter, as its caller saw it.
#[derive(Drop)]
struct Made {
    number: u64,
    amount: u64,
    answer: Counted,
}

fn counter(rt: &HostRuntime, failing: &[u64], acts: bool) -> Result<Counter, Fail>
    ensures { IfOk result (λ c. c.stopped ≡ false) }
{
    let mut calls = Vec::new(rt.alloc());
    for call in failing {
        calls.push(*call)?;
    }
    Ok(Counter::new(LIMIT, calls, acts))
}

#[test]
fn two_seats_and_a_note(rt: HostRuntime) -> Result<(), Fail> {
    let Ok((turn, mut seats)) = Turn::new(rt.alloc(), counter(&rt, &[], false)?, 2) else {
        panic!(rt; "no memory")
    };
    let mut b = seats.pop().expect(&rt, "two seats");
    let mut a = seats.pop().expect(&rt, "two seats");
    let first = turn.call(&rt, rt.alloc(), &mut a, &5u64);
    let second = turn.call(&rt, rt.alloc(), &mut b, &7u64);
    let note = turn.note(&mut b);
    turn.meet(&mut a, note);
    let third = turn.call(&rt, rt.alloc(), &mut a, &1u64);
    assert!(rt; (first.number, second.number, third.number) == (1, 2, 3));
    assert!(rt; first.answer == Counted::Now(5) && second.answer == Counted::Now(12));
    assert!(rt; third.answer == Counted::Now(13));
    seats.push(a)?;
    let Err(refused) = turn.close(seats) else {
        panic!(rt; "a seat is missing")
    };
    assert!(rt; refused.out == 1 && refused.seats.len() == 1);
    let crate::CloseFault {
        turn,
        mut seats,
        out: _,
    } = refused;
    seats.push(b)?;
    let Ok(counter) = turn.close(seats) else {
        panic!(rt; "no seat is missing")
    };
    assert!(rt; counter.count() == 13);
    Ok(())
}

#[test]
fn a_call_fails_and_the_next_one_opens_again(rt: HostRuntime) -> Result<(), Fail> {
    for (acts, count) in [(true, 13), (false, 6)] {
        let Ok((turn, mut seats)) = Turn::new(rt.alloc(), counter(&rt, &[2], acts)?, 2) else {
            panic!(rt; "no memory")
        };
        let mut b = seats.pop().expect(&rt, "two seats");
        let mut a = seats.pop().expect(&rt, "two seats");
        let first = turn.call(&rt, rt.alloc(), &mut a, &5u64);
        let second = turn.call(&rt, rt.alloc(), &mut b, &7u64);
        let third = turn.call(&rt, rt.alloc(), &mut a, &1u64);
        assert!(rt; (first.number, second.number, third.number) == (1, 2, 3));
        assert!(rt; second.answer == Counted::Failed && third.answer == Counted::Now(count));
    }
    Ok(())
}

// Waits until all threads have begun, so that their calls meet. Where they can't all run at once it goes on after a while.
fn begin(begun: &AtomicU64) {
    begun.fetch_add(1, Ordering::SeqCst);
    for _ in 0..LOOKS {
        if begun.load(Ordering::SeqCst) >= u64::from(SEATS) {
            return;
        }
        hint::spin_loop();
    }
}

// Calls from one seat, with amounts that differ from call to call and from seat to seat. They begin when all threads have begun.
fn calls_from<R: Wait>(
    rt: &R,
    alloc: Global,
    turn: &Turn<Counter>,
    mut seat: Seat<u64, Counted>,
    begun: &AtomicU64,
) -> Result<Vec<Made>, AllocError>
    requires { seat.turn ≡ turn.now.id }
{
    begin(begun);
    let mut made = Vec::new(alloc);
    let first = seat.number() % 64;
    for call in 0..CALLS {
        let amount = (call * 7 + first * 31) % 320;
        let receipt = turn.call(rt, alloc, &mut seat, &amount);
        made.push(Made {
            number: receipt.number,
            amount,
            answer: receipt.answer,
        })?;
    }
    Ok(made)
}

// Calls from all seats, each in a thread of its own.
fn calls_from_each<R: Threads + Wait + Sync>(
    rt: &R,
    alloc: Global,
    turn: &Turn<Counter>,
    seats: Vec<Seat<u64, Counted>>,
) -> Result<Vec<Made>, AllocError>
    requires { All (λ seat. seat.turn ≡ turn.now.id) seats.items }
{
    let mut made = Vec::new(alloc);
    let begun = AtomicU64::new(0);
    let all = thread::map_vec(rt, seats, &|seat| calls_from(rt, alloc, turn, seat, &begun))?;
    for calls in all {
        made.append(&mut calls?)?;
    }
    Ok(made)
}

#[test]
fn eight_threads_with_a_thousand_calls_each(rt: HostRuntime) -> Result<(), Fail> {
    let alloc = rt.alloc();
    let Ok((turn, seats)) = Turn::new(alloc, counter(&rt, &[], false)?, SEATS) else {
        panic!(rt; "no memory")
    };
    let mut made = calls_from_each(&rt, alloc, &turn, seats)?;
    made.sort_by_key(|call| call.number)?;
    assert_eq!(rt; made.len(), 8_000);
    let mut count = 0u64;
    let mut number = 0u64;
    for call in &made {
        number = number.saturating_add(1);
        let sum = count.saturating_add(call.amount);
        let answer = if sum <= LIMIT {
            Counted::Now(sum)
        } else {
            Counted::AtLimit
        };
        if sum <= LIMIT {
            count = sum;
        }
        assert_eq!(rt; call.number, number);
        assert!(rt; call.answer == answer, "call {number}");
    }
    Ok(())
}
