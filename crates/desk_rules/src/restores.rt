// Restores of images.
ghost use Rattle.std.specs.Prelude.{◌≡◌, [], ◌∷◌, Some, IfOk, not, is_none, nat_lt, codes, unwrap_or};
ghost use Rattle.std.specs.Option.{option_map};
ghost use Rattle.std.specs.List.{list_any};
ghost use Rattle.site_types.specs.Ids.{copy_text, id_text};
ghost use Rattle.site_types.specs.Limits.{payload_limit};
ghost use Rattle.site_types.specs.declared.answer.Answer.TheVariants as answer;
ghost use Rattle.image_catalogue.specs.Images.{record_named};
ghost use Rattle.desk_model.specs.Refusals.{first_refusal};
ghost use Rattle.desk_model.specs.Restores.{has_copy, restore_refusals};
ghost use Rattle.desk_rules.specs.declared.decision.Change.TheVariants as change;
ghost use Rattle.desk_rules.specs.Refusing.{Passes, settled};
ghost use Rattle.desk_rules.specs.Seen.{blank};

use crate::refusal::{Refusal, refused};
use crate::{Change, Decision, NoMemory};
use image_catalogue::Catalogue;
use site_types::{Answer, BackupId, ImageRecord, PAYLOAD_LIMIT, Text};
use std::alloc::Global;

// The bytes of the image are its answer, and aren't looked at.
pub(crate) fn decide_restore<'a>(
    alloc: Global,
    images: &Catalogue,
    id: &BackupId,
    copy: Option<u8>,
) -> Result<Decision<'a>, NoMemory>
    ensures { IfOk result (λ d. d ≡ settled (first_refusal (restore_refusals (option_map blank (record_named id.now images.now)) id.now copy)) (answer.Done []) change.Nothing) }
{
    match check_restore(alloc, images, id, copy) {
        Ok(()) => Ok(Decision {
            answer: Answer::Done {
                body: Text::from_vec(Vec::new(alloc)),
            },
            change: Change::Nothing,
        }),
        Err(refusal) => refused(refusal),
    }
}

fn check_restore(
    alloc: Global,
    images: &Catalogue,
    id: &BackupId,
    copy: Option<u8>,
) -> Result<(), Refusal>
    ensures { Passes (restore_refusals (option_map blank (record_named id.now images.now)) id.now copy) result }
{
    let image = known_image(alloc, images, id)?;
    check_copy(alloc, image, id, copy.unwrap_or(image.primary))?;
    check_length(alloc, image)
}

fn known_image<'a>(
    alloc: Global,
    images: &'a Catalogue,
    id: &BackupId,
) -> Result<&'a ImageRecord, Refusal>
    ensures passes { Passes ((is_none (record_named id.now images.now), answer.Unknown (id_text id.now)) ∷ []) result }
    ensures image { IfOk result (λ i. record_named id.now images.now ≡ Some i.now) }
{
    match images.find(id) {
        Some(image) => Ok(image),
        None => Err(Refusal::Answered(Answer::Unknown {
            name: id.text(alloc)?,
        })),
    }
}

fn check_copy(alloc: Global, image: &ImageRecord, id: &BackupId, number: u8) -> Result<(), Refusal>
    ensures { Passes ((not (has_copy number (Some (blank image.now))), answer.Unknown (copy_text id.now number)) ∷ []) result }
{
    if !has_copy(image, number) {
        return Err(Refusal::Answered(Answer::Unknown {
            name: id.copy_text(alloc, number)?,
        }));
    }
    Ok(())
}

fn has_copy(image: &ImageRecord, number: u8) -> bool
    ensures { result ≡ has_copy number (Some (blank image.now)) }
{
    image
        .copies
        .as_slice()
        .iter()
        .any(|copy| copy.number == number)
}

fn check_length(alloc: Global, image: &ImageRecord) -> Result<(), Refusal>
    ensures { Passes ((nat_lt payload_limit image.now.length, answer.TooMany (codes "bytes") image.now.length payload_limit) ∷ []) result }
{
    if image.length > PAYLOAD_LIMIT {
        return Err(Refusal::Answered(Answer::TooMany {
            kind: Text::new(alloc, b"bytes")?,
            count: image.length,
            limit: PAYLOAD_LIMIT,
        }));
    }
    Ok(())
}
