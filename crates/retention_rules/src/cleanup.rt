ghost use Rattle.std.specs.Prelude.{◌≡◌, [], ◌∷◌, ◌++◌, map, filter, IfOk, OnOk};
ghost use Rattle.retention_rules.specs.Cleanup.{kept, with_image, copies_of, is_candidate, goes_anyway, goes_under, is_candidate_under, by_age, is_on, enough_of, going_from, used_without, gone_after, expired_of, cleanup};
ghost use Rattle.slp_tree.specs.Sorting.{in_order};

use crate::NoMemory;
use crate::eligibility::{capacity_managed, eligible};
use crate::kept::Kept;
use crate::marks::{low_met, marks_reached, used};
use image_catalogue::Catalogue;
use site_types::{BackupId, CopyRecord, ImageRecord, Name, Unit};
use slp_tree::{Lifecycles, Slp};
use std::alloc::Global;

/// A copy that expires.
#[derive(Debug, Drop)]
pub struct Expired {
    pub id: BackupId,
    /// The copy's number.
    pub copy: u8,
}

/// What a cleanup expires at a moment, in seconds since 1970-01-01T00:00:00Z. First each copy that may go and isn't managed by
/// capacity, by client, time and number. Then, unit by unit, where the high mark is reached in the state so far, the shortest
/// prefix of its other copies that may go, by the image's time, the client and the number, without which the low mark is met,
/// or all of them. `units` are those of the site, by name. An image whose version isn't there has no copy that may go. The
/// one error is that no memory was left.
pub fn cleanup_list(
    alloc: Global,
    images: &Catalogue,
    lifecycles: &Lifecycles,
    units: &[Unit],
    moment: u64,
) -> Result<Vec<Expired>, NoMemory>
    ensures { IfOk result (λ v. v.items ≡ cleanup images.now lifecycles.now units.now moment) }
{
    let Choices {
        mut gone,
        mut candidates,
    } = choose(alloc, images, lifecycles, moment)?;
    sort_by_age(&mut candidates)?;
    push_all_going(images, units, &candidates, &mut gone)?;
    named(alloc, &gone)
}

// The copies that may go: those that go anyway, and those that go where their unit wants the room.
#[derive(Drop)]
struct Choices<'a> {
    gone: Vec<Kept<'a>>,
    candidates: Vec<Kept<'a>>,
}

fn choose<'a>(
    alloc: Global,
    images: &'a Catalogue,
    lifecycles: &Lifecycles,
    moment: u64,
) -> Result<Choices<'a>, NoMemory>
    ensures gone { IfOk result (λ c. c.gone.items ≡ filter (goes_anyway lifecycles.now moment) (kept images.now)) }
    ensures candidates { IfOk result (λ c. c.candidates.items ≡ filter (is_candidate lifecycles.now moment) (kept images.now)) }
{
    let mut choices = Choices {
        gone: Vec::new(alloc),
        candidates: Vec::new(alloc),
    };
    for image in images.iter() {
        choose_image(image, lifecycles, moment, &mut choices)?;
    }
    Ok(choices)
}

fn choose_image<'a>(
    image: &'a ImageRecord,
    lifecycles: &Lifecycles,
    moment: u64,
    choices: &mut Choices<'a>,
) -> Result<(), NoMemory>
    ensures gone { OnOk result (choices.new.gone.items ≡ choices.old.gone.items ++ filter (goes_anyway lifecycles.now moment) (copies_of image.now)) }
    ensures candidates { OnOk result (choices.new.candidates.items ≡ choices.old.candidates.items ++ filter (is_candidate lifecycles.now moment) (copies_of image.now)) }
{
    match lifecycles.find(&image.lifecycle, image.version) {
        Some(slp) => choose_copies(image, slp, moment, choices),
        None => Ok(()),
    }
}

fn choose_copies<'a>(
    image: &'a ImageRecord,
    slp: &Slp,
    moment: u64,
    choices: &mut Choices<'a>,
) -> Result<(), NoMemory>
    ensures gone { OnOk result (choices.new.gone.items ≡ choices.old.gone.items ++ filter (goes_under slp.now moment) (copies_of image.now)) }
    ensures candidates { OnOk result (choices.new.candidates.items ≡ choices.old.candidates.items ++ filter (is_candidate_under slp.now moment) (copies_of image.now)) }
{
    for copy in image.copies.as_slice() {
        choose_copy(image, copy, slp, moment, choices)?;
    }
    Ok(())
}

fn choose_copy<'a>(
    image: &'a ImageRecord,
    copy: &'a CopyRecord,
    slp: &Slp,
    moment: u64,
    choices: &mut Choices<'a>,
) -> Result<(), NoMemory>
    ensures gone { OnOk result (choices.new.gone.items ≡ choices.old.gone.items ++ filter (goes_under slp.now moment) (with_image image.now copy.now ∷ [])) }
    ensures candidates { OnOk result (choices.new.candidates.items ≡ choices.old.candidates.items ++ filter (is_candidate_under slp.now moment) (with_image image.now copy.now ∷ [])) }
{
    if !eligible(slp, image, copy, moment) {
        return Ok(());
    }
    let kept = Kept::new(image, copy);
    if capacity_managed(slp, copy) {
        choices.candidates.push(kept)?;
    } else {
        choices.gone.push(kept)?;
    }
    Ok(())
}

fn sort_by_age(candidates: &mut Vec<Kept<'_>>) -> Result<(), NoMemory>
    ensures { OnOk result (candidates.new.items ≡ in_order by_age candidates.old.items) }
{
    candidates.sort_by(|a, b| a.compare(b))?;
    Ok(())
}

fn push_all_going<'a>(
    images: &Catalogue,
    units: &[Unit],
    candidates: &[Kept<'a>],
    gone: &mut Vec<Kept<'a>>,
) -> Result<(), NoMemory>
    ensures { OnOk result (gone.new.items ≡ gone_after images.now candidates.now units.now gone.old.items) }
{
    for unit in units {
        push_going(images, unit, candidates, gone)?;
    }
    Ok(())
}

// The copies of a unit that its marks ask for, in the state in which some copies are gone.
fn push_going<'a>(
    images: &Catalogue,
    unit: &Unit,
    candidates: &[Kept<'a>],
    gone: &mut Vec<Kept<'a>>,
) -> Result<(), NoMemory>
    ensures { OnOk result (gone.new.items ≡ gone.old.items ++ going_from unit.now (used_without images.now gone.old.items unit.now.name) (filter (is_on unit.now.name) candidates.now)) }
{
    let used = used_without(images, gone, &unit.name);
    if marks_reached(used, unit.capacity, unit.high) {
        push_prefix(unit, used, candidates, gone)?;
    }
    Ok(())
}

fn used_without(images: &Catalogue, gone: &[Kept<'_>], unit: &Name) -> u64
    ensures { result ≡ used_without images.now gone.now unit.now }
{
    let mut left = used(images, unit);
    for kept in gone {
        if kept.is_on(unit) {
            left = left.saturating_sub(kept.image().length);
        }
    }
    left
}

// The shortest prefix of a unit's candidates without which its low mark is met, or all of them.
fn push_prefix<'a>(
    unit: &Unit,
    used: u64,
    candidates: &[Kept<'a>],
    gone: &mut Vec<Kept<'a>>,
) -> Result<(), NoMemory>
    ensures { OnOk result (gone.new.items ≡ gone.old.items ++ enough_of unit.now used (filter (is_on unit.now.name) candidates.now)) }
{
    let mut left = used;
    for kept in candidates {
        if kept.is_on(&unit.name) {
            if low_met(left, unit.capacity, unit.low) {
                return Ok(());
            }
            gone.push(kept.again())?;
            left = left.saturating_sub(kept.image().length);
        }
    }
    Ok(())
}

fn named(alloc: Global, gone: &[Kept<'_>]) -> Result<Vec<Expired>, NoMemory>
    ensures { IfOk result (λ v. v.items ≡ map expired_of gone.now) }
{
    let mut expired = Vec::new(alloc);
    for kept in gone {
        expired.push(Expired {
            id: kept.image().id.copy(alloc)?,
            copy: kept.copy().number,
        })?;
    }
    Ok(expired)
}
