// The book of a new vault.
ghost use Rattle.std.specs.Prelude.{◌≡◌, ◌∷◌, [], true, IfOk};
ghost use Rattle.site_types.specs.Names.{is_name};
ghost use Rattle.policy_book.specs.Book.{disk0, first_backup, basic, manual, adhoc, initial_book};

use crate::book::Book;
use crate::{NoMemory, Policy};
use site_types::{Kind, ListOf, Mode, Name, Operation, Retention, Schedule, Unit, Windows};
use slp_tree::{Lifecycles, Slp, SlpFault};
use std::alloc::Global;

impl Book {
    /// The book of a new vault: a unit `disk0`, a lifecycle `basic` that keeps a backup there for 14 days, and an active policy
    /// `adhoc` of bytes as they come, with a schedule `manual` without windows.
    pub fn new(alloc: Global) -> Result<Book, NoMemory>
        ensures { IfOk result (λ book. book ≡ initial_book) }
    {
        Ok(Book {
            units: vec![in alloc; first_unit(alloc)?]?,
            clients: Vec::new(alloc),
            lifecycles: first_lifecycles(alloc)?,
            policies: vec![in alloc; first_policy(alloc)?]?,
        })
    }
}

fn name(alloc: Global, bytes: &[u8]) -> Result<Name, NoMemory>
    requires { is_name bytes.now ≡ true }
    ensures { IfOk result (λ name. name ≡ bytes.now) }
{
    match Name::new(alloc, bytes)? {
        Some(name) => Ok(name),
        None => unreachable!(),
    }
}

/// The unit of a new vault.
pub fn first_unit(alloc: Global) -> Result<Unit, NoMemory>
    ensures { IfOk result (λ unit. unit ≡ disk0) }
{
    Ok(Unit {
        name: name(alloc, b"disk0")?,
        number: 0,
        capacity: 1_099_511_627_776,
        segment: 131_072,
        fragment: 4_096,
        slots: 8_388_608,
        high: 98,
        low: 80,
    })
}

fn first_operation(alloc: Global) -> Result<Operation, NoMemory>
    ensures { IfOk result (λ operation. operation ≡ first_backup) }
{
    Ok(Operation {
        backup: true,
        source: 0,
        unit: name(alloc, b"disk0")?,
        retention: Retention::Fixed(1_209_600),
        windows: Windows::Always,
    })
}

fn first_slp(alloc: Global) -> Result<Slp, NoMemory>
    ensures { IfOk result (λ slp. slp ≡ record { priority = 0; operations = first_backup ∷ [] }) }
{
    let operations = vec![in alloc; first_operation(alloc)?]?;
    let units = vec![in alloc; name(alloc, b"disk0")?]?;
    match Slp::new(alloc, 0, operations, &units) {
        Ok(slp) => Ok(slp),
        Err(SlpFault::Rule(_)) => unreachable!(),
        Err(SlpFault::NoMemory) => unreachable!(),
    }
}

fn first_lifecycles(alloc: Global) -> Result<Lifecycles, NoMemory>
    ensures { IfOk result (λ lifecycles. lifecycles ≡ basic ∷ []) }
{
    let mut lifecycles = Lifecycles::new(alloc);
    lifecycles.add(alloc, &name(alloc, b"basic")?, first_slp(alloc)?)?;
    Ok(lifecycles)
}

fn first_schedule(alloc: Global) -> Result<Schedule, NoMemory>
    ensures { IfOk result (λ schedule. schedule ≡ manual) }
{
    Ok(Schedule {
        name: name(alloc, b"manual")?,
        kind: Kind::Full,
        mode: Mode::Frequency(86_400),
        windows: Windows::Listed(ListOf::new(alloc)),
    })
}

fn first_policy(alloc: Global) -> Result<Policy, NoMemory>
    ensures { IfOk result (λ policy. policy ≡ adhoc) }
{
    let mut policy = Policy::new(alloc, name(alloc, b"adhoc")?, false, name(alloc, b"basic")?);
    policy.put_schedule(first_schedule(alloc)?)?;
    Ok(policy)
}
