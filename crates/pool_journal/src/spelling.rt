// Spelling a record, in memory that was taken for it.
ghost use Rattle.std.specs.Prelude.{◌≡◌, ◌++◌, ◌∷◌, [], ◌<◌, ◌^◌, ℕ, List, length};
ghost use Rattle.std.specs.Int.{w16, w32, w64, to_be_bytes};
ghost use Rattle.pool_journal.specs.Fields.{string, strings, kind_code, base_code};
ghost use Rattle.pool_journal.specs.Entries.{spelled_settings, spelled_id, spelled_names, spelled_kind_and_base, spelled_lifecycle, spelled_longs, spelled_copy, spelled_image, spelled_entry, AllShort, AreLines, CopyFits, IdFits, IsNamed, ImageFits, IsFormed, IsSpellable};
ghost use Rattle.pool_journal.specs.Rooms.{Fits, Gets};

use crate::entry::{Entry, WholeImage};
use crate::room::Room;
use crate::segments::push_segments;
use site_types::{BackupId, Base, Kind, Name, Text};

fn push_string(out: &mut Room, bytes: &[u8])
    requires short { length bytes.now < 2 ^ 16 }
    requires room { Fits out.old (string bytes.now) }
    ensures { Gets (string bytes.now) out.old out.new }
{
    out.push(&(bytes.len() as u16).to_be_bytes());
    out.push(bytes);
}

fn push_name(out: &mut Room, name: &Name)
    requires room { Fits out.old (string name.now) }
    ensures spelled { Gets (string name.now) out.old out.new }
    ensures named { IsNamed name.now }
{
    push_string(out, name.bytes());
}

fn push_strings(out: &mut Room, texts: &[Text])
    requires short { AllShort texts.now }
    requires room { Fits out.old (strings texts.now) }
    ensures { Gets (strings texts.now) out.old out.new }
{
    for text in texts {
        push_string(out, text.bytes());
    }
}

fn push_settings(out: &mut Room, lines: &[Text])
    requires lines { AreLines lines.now }
    requires room { Fits out.old (spelled_settings lines.now) }
    ensures { Gets (spelled_settings lines.now) out.old out.new }
{
    out.push(&(lines.len() as u32).to_be_bytes());
    push_strings(out, lines);
}

fn push_long(out: &mut Room, number: u64)
    requires room { Fits out.old (to_be_bytes w64 number) }
    ensures spelled { Gets (to_be_bytes w64 number) out.old out.new }
    ensures fits { number < 2 ^ 64 }
{
    out.push(&number.to_be_bytes());
}

fn kind_code(kind: Kind) -> u8
    ensures { result ≡ kind_code kind }
{
    match kind {
        Kind::Full => 0,
        Kind::Differential => 1,
        Kind::Cumulative => 2,
    }
}

fn base_code(base: Base) -> u64
    ensures { result ≡ base_code base }
{
    match base {
        Base::None => 0,
        Base::Time(time) => time,
    }
}

fn push_id(out: &mut Room, id: &BackupId)
    requires room { Fits out.old (spelled_id id.now) }
    ensures spelled { Gets (spelled_id id.now) out.old out.new }
    ensures fits { IdFits id.now }
{
    push_name(out, &id.client);
    push_long(out, id.time);
}

fn push_names(out: &mut Room, policy: &Name, schedule: &Name)
    requires room { Fits out.old (spelled_names policy.now schedule.now) }
    ensures spelled { Gets (spelled_names policy.now schedule.now) out.old out.new }
    ensures fits { IsNamed policy.now × IsNamed schedule.now }
{
    push_name(out, policy);
    push_name(out, schedule);
}

fn push_kind_and_base(out: &mut Room, kind: Kind, base: Base)
    requires room { Fits out.old (spelled_kind_and_base kind base) }
    ensures spelled { Gets (spelled_kind_and_base kind base) out.old out.new }
    ensures fits { base_code base < 2 ^ 64 }
{
    out.push(&[kind_code(kind)]);
    push_long(out, base_code(base));
}

fn push_lifecycle(out: &mut Room, lifecycle: &Name, version: u16)
    requires room { Fits out.old (spelled_lifecycle lifecycle.now version) }
    ensures spelled { Gets (spelled_lifecycle lifecycle.now version) out.old out.new }
    ensures fits { IsNamed lifecycle.now × (version < 2 ^ 16) }
{
    push_name(out, lifecycle);
    out.push(&version.to_be_bytes());
}

fn push_longs(out: &mut Room, completed: u64, count: u64)
    requires room { Fits out.old (spelled_longs completed count) }
    ensures spelled { Gets (spelled_longs completed count) out.old out.new }
    ensures fits { (completed < 2 ^ 64) × (count < 2 ^ 64) }
{
    push_long(out, completed);
    push_long(out, count);
}

fn push_image(out: &mut Room, image: &WholeImage)
    requires room { Fits out.old (spelled_image image.now) }
    ensures spelled { Gets (spelled_image image.now) out.old out.new }
    ensures fits { ImageFits image.now }
{
    push_id(out, &image.id);
    push_names(out, &image.policy, &image.schedule);
    push_kind_and_base(out, image.kind, image.base);
    push_lifecycle(out, &image.lifecycle, image.version);
    push_longs(out, image.completed, image.length);
}

fn push_copy(out: &mut Room, id: &BackupId, copy: u8, completed: u64)
    requires room { Fits out.old (spelled_id id.now ++ spelled_copy copy completed) }
    ensures spelled { Gets (spelled_id id.now ++ spelled_copy copy completed) out.old out.new }
    ensures fits { CopyFits id.now copy completed }
{
    push_id(out, id);
    out.push(&[copy]);
    push_long(out, completed);
}

pub fn push_entry(out: &mut Room, entry: &Entry)
    requires formed { IsFormed entry.now }
    requires room { Fits out.old (spelled_entry entry.now) }
    ensures spelled { Gets (spelled_entry entry.now) out.old out.new }
    ensures fits { IsSpellable entry.now }
{
    match entry {
        Entry::Settings { lines } => {
            out.push(&[1]);
            push_settings(out, lines.as_slice());
        }
        Entry::BackupSealed { image, segments } => {
            out.push(&[2]);
            push_image(out, image);
            push_segments(out, segments);
        }
        Entry::CopySealed {
            id,
            copy,
            completed,
            segments,
        } => {
            out.push(&[3]);
            push_copy(out, id, *copy, *completed);
            push_segments(out, segments);
        }
    }
}
