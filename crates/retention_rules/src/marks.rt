ghost use Rattle.std.specs.Prelude.{◌≡◌, ◌*◌};
ghost use Rattle.image_catalogue.specs.Images.{used};
ghost use Rattle.retention_rules.specs.Marks.{is_high_reached, is_low_met};

use image_catalogue::Catalogue;
use site_types::Name;

/// The bytes that the kept copies of these images have on a unit, before equal segments are stored once. It takes no memory.
pub fn used(images: &Catalogue, unit: &Name) -> u64
    ensures { result ≡ used unit.now images.now }
{
    images.used(unit)
}

/// Whether a unit's high mark is reached: of its capacity in bytes so many are used that they are `high` hundredths of it or
/// more. It takes no memory.
pub fn marks_reached(used: u64, capacity: u64, high: u8) -> bool
    ensures { result ≡ is_high_reached used capacity high }
{
    hundredths(capacity, high) <= u128::from(used) * 100
}

/// Whether a unit's low mark is met: at most `low` hundredths of its capacity are used.
pub(crate) fn low_met(used: u64, capacity: u64, low: u8) -> bool
    ensures { result ≡ is_low_met used capacity low }
{
    u128::from(used) * 100 <= hundredths(capacity, low)
}

// A hundred times that many hundredths of a capacity. They are more than a `u64` has room for.
fn hundredths(capacity: u64, mark: u8) -> u128
    ensures { result ≡ mark * capacity }
{
    u128::from(mark) * u128::from(capacity)
}
