ghost use Rattle.std.specs.Prelude.{◌≡◌, ◌≤◌, ℕ, List, max, IfOk, IfSome};
ghost use Rattle.std.specs.Option.{option_map_or};
ghost use Rattle.site_types.specs.Limits.{last_moment};
ghost use Rattle.desk_rules.specs.DueBackups.{AllInTime, last_time};
ghost use Rattle.desk_rules.specs.LastTimes.{IsIndex};

use crate::NoMemory;
use site_types::{ImageRecord, Name};
use std::alloc::Global;
use std::collections::HashMap;
use std::marker::Model;

// Whose image it is: the names of its policy, client and schedule.
#[derive(Clone, Copy, Debug, PartialEq, Eq, Hash)]
struct Key<'a> {
    policy: &'a [u8],
    client: &'a [u8],
    schedule: &'a [u8],
}

// Images, with the time of the last one of each policy, client and schedule.
#[derive(Drop)]
pub(crate) struct LastTimes<'a> {
    images: &'a [ImageRecord],
    times: HashMap<Key<'a>, u64>,
}

impl<'a> Model for LastTimes<'a> {
    ghost use Rattle.std.specs.Prelude.{List};
    ghost use Rattle.site_types.specs.declared.image.ImageRecord.{ImageRecord};
    ghost use Rattle.desk_rules.specs.DueBackups.{AllInTime};
    ghost use Rattle.desk_rules.specs.LastTimes.{IsIndex};

    ghost Value = { List ImageRecord };

    ghost view = { λ l. l.images.now };

    ghost invariant = { λ l. AllInTime l.images.now × IsIndex l.times l.images.now };
}

impl<'a> LastTimes<'a> {
    pub(crate) fn new(alloc: Global, images: &'a [ImageRecord]) -> Result<LastTimes<'a>, NoMemory>
        requires { AllInTime images.now }
        ensures { IfOk result (λ l. l ≡ images.now) }
    {
        Ok(LastTimes {
            images,
            times: index(alloc, images)?,
        })
    }

    // The time of the last image of these, in seconds since 1970-01-01T00:00:00Z.
    pub(crate) fn get(&self, policy: &Name, client: &Name, schedule: &Name) -> Option<u64>
        ensures time { result ≡ last_time self.now policy.now client.now schedule.now }
        ensures limit { IfSome result (λ t. t ≤ last_moment) }
    {
        let key = Key {
            policy: policy.bytes(),
            client: client.bytes(),
            schedule: schedule.bytes(),
        };
        self.times.get(&key).copied()
    }
}

fn index<'a>(alloc: Global, images: &'a [ImageRecord]) -> Result<HashMap<Key<'a>, u64>, NoMemory>
    ensures { IfOk result (λ m. IsIndex m images.now) }
{
    let mut times = HashMap::new(alloc);
    for image in images {
        let key = key_of(image);
        let time = later(times.get(&key).copied(), image.id.time);
        times.insert(key, time)?;
    }
    Ok(times)
}

fn key_of(image: &ImageRecord) -> Key<'_>
    ensures policy { result.policy.now ≡ image.now.policy }
    ensures client { result.client.now ≡ image.now.id.client }
    ensures schedule { result.schedule.now ≡ image.now.schedule }
{
    Key {
        policy: image.policy.bytes(),
        client: image.id.client.bytes(),
        schedule: image.schedule.bytes(),
    }
}

fn later(last: Option<u64>, time: u64) -> u64
    ensures { result ≡ option_map_or (max time) last time }
{
    match last {
        Some(last) => last.max(time),
        None => time,
    }
}
