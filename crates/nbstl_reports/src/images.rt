ghost use Rattle.std.specs.Prelude.{◌≡◌, ◌++◌, OnOk, OnErr};
ghost use Rattle.std.specs.Iterator.{IsFinite};
ghost use Rattle.std.specs.Iterator.Runs.{WholeRun};
ghost use Rattle.site_types.specs.Values.{kind_text};
ghost use Rattle.nbstl_reports.specs.Lines.{line};
ghost use Rattle.nbstl_reports.specs.ImageLines.{image_fields, image_lines, listed};
ghost use Rattle.nbstl_reports.specs.Fields.{StartsWith};

use crate::NoMemory;
use crate::line::{Field, push_line, whole_or_none};
use site_types::{ImageRecord, Kind};
use std::alloc::Global;

/// The list of images: a line `ID POLICY SCHEDULE KIND LIFECYCLE VERSION LENGTH PRIMARY COPIES` for each of them, in their order.
/// LENGTH is in bytes, and COPIES are the numbers of the kept copies with commas between them.
pub fn image_lines<'a, I: Iterator<Item = &'a ImageRecord>>(
    _alloc: Global,
    images: I,
    out: &mut Vec<u8>,
) -> Result<(), NoMemory>
    requires can { I.can_next images }
    requires ends { IsFinite (I.remaining images) }
    ensures written { OnOk result (WholeRun I.next_gives images (λ run. out.new.items ≡ out.old.items ++ image_lines (listed run.items))) }
    ensures unchanged { OnErr result (out.new.items ≡ out.old.items) }
{
    let before = out.len();
    let written = push_images(images, out);
    whole_or_none(out, before, written)
}

fn push_images<'a, I: Iterator<Item = &'a ImageRecord>>(
    images: I,
    out: &mut Vec<u8>,
) -> Result<(), NoMemory>
    requires can { I.can_next images }
    requires ends { IsFinite (I.remaining images) }
    ensures written { OnOk result (WholeRun I.next_gives images (λ run. out.new.items ≡ out.old.items ++ image_lines (listed run.items))) }
    ensures begun { OnErr result (StartsWith out.old.items out.new.items) }
{
    for image in images {
        push_image(image, out)?;
    }
    Ok(())
}

fn push_image(image: &ImageRecord, out: &mut Vec<u8>) -> Result<(), NoMemory>
    ensures written { OnOk result (out.new.items ≡ out.old.items ++ line (image_fields image.now)) }
    ensures begun { OnErr result (StartsWith out.old.items out.new.items) }
{
    let fields = [
        Field::Id(&image.id),
        Field::Text(image.policy.bytes()),
        Field::Text(image.schedule.bytes()),
        Field::Text(kind_text(image.kind)),
        Field::Text(image.lifecycle.bytes()),
        Field::Number(u64::from(image.version)),
        Field::Number(image.length),
        Field::Number(u64::from(image.primary)),
        Field::Copies(image.copies.as_slice()),
    ];
    push_line(out, &fields)
}

fn kind_text(kind: Kind) -> &'static [u8]
    ensures { result.now ≡ kind_text kind }
{
    match kind {
        Kind::Full => b"full",
        Kind::Differential => b"diff",
        Kind::Cumulative => b"cumul",
    }
}
