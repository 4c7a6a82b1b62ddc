use crate::trial::{SIZE, Trial, Zeros};
use copy_fragments::{CopyFault, CopyMap, piece_count};
use segment_pool::{PoolFault, ReadTrouble, Sha256Print, cut};
use std::alloc::Global;
use std::test::*;
use vault_disk::Vault;

const X: &[u8] = b"xxxxxxxxxxxxxxxx";

const Y: &[u8] = b"yyyyyyyyyyyyyyyy";

// SHA-256 of `hello`, of `world`, of `hell` and of `hallo`, as sha256sum prints them.
const HELLO: [u8; 32] = [
    0x2c, 0xf2, 0x4d, 0xba, 0x5f, 0xb0, 0xa3, 0x0e, 0x26, 0xe8, 0x3b, 0x2a, 0xc5, 0xb9, 0xe2, 0x9e,
    0x1b, 0x16, 0x1e, 0x5c, 0x1f, 0xa7, 0x42, 0x5e, 0x73, 0x04, 0x33, 0x62, 0x93, 0x8b, 0x98, 0x24,
];

const WORLD: [u8; 32] = [
    0x48, 0x6e, 0xa4, 0x62, 0x24, 0xd1, 0xbb, 0x4f, 0xb6, 0x80, 0xf3, 0x4f, 0x7c, 0x9a, 0xd9, 0x6a,
    0x8f, 0x24, 0xec, 0x88, 0xbe, 0x73, 0xea, 0x8e, 0x5a, 0x6c, 0x65, 0x26, 0x0e, 0x9c, 0xb8, 0xa7,
];

const HELL: [u8; 32] = [
    0x0e, 0xbd, 0xc3, 0x31, 0x7b, 0x75, 0x83, 0x9f, 0x64, 0x33, 0x87, 0xd7, 0x83, 0x53, 0x5a, 0xdc,
    0x36, 0x0c, 0xa0, 0x1f, 0x33, 0xc7, 0x5f, 0x7c, 0x1e, 0x73, 0x73, 0xad, 0xcd, 0x67, 0x5c, 0x0b,
];

const HALLO: [u8; 32] = [
    0xd3, 0x75, 0x1d, 0x33, 0xf9, 0xcd, 0x50, 0x49, 0xc4, 0xaf, 0x2b, 0x46, 0x27, 0x35, 0x45, 0x7e,
    0x4d, 0x3b, 0xaf, 0x13, 0x0b, 0xcb, 0xb8, 0x7f, 0x38, 0x9e, 0x34, 0x9f, 0xba, 0xeb, 0x20, 0xb9,
];

#[test]
fn equal_digests_are_told_apart_by_their_bytes(rt: HostRuntime) -> Result<(), Fail> {
    let mut trial = Trial::new(rt.alloc(), b"", Zeros)?;
    assert_eq!(rt; trial.place(rt.alloc(), &Zeros, X), Some(0));
    assert_eq!(rt; trial.place(rt.alloc(), &Zeros, Y), Some(1));
    assert_eq!(rt; trial.place(rt.alloc(), &Zeros, X), Some(0));
    assert!(rt; trial.reads_as(0, X) && trial.reads_as(1, Y));
    Ok(())
}

#[test]
fn a_freed_slot_is_taken_again(rt: HostRuntime) -> Result<(), Fail> {
    let mut trial = Trial::new(rt.alloc(), b"", Sha256Print)?;
    assert_eq!(rt; trial.place_and_unpin(rt.alloc(), &Sha256Print, X), Some(0));
    assert!(rt; trial.pool.held(0).is_none());
    assert_eq!(rt; trial.place(rt.alloc(), &Sha256Print, Y), Some(0));
    // This pin is the second, so one is left.
    assert_eq!(rt; trial.place_and_unpin(rt.alloc(), &Sha256Print, Y), Some(0));
    assert!(rt; trial.reads_as(0, Y));
    assert_eq!(rt; trial.place(rt.alloc(), &Sha256Print, X), Some(1));
    Ok(())
}

// The copy of these bytes, whose pieces are placed one after another; a fragment has two.
fn copy_of(alloc: Global, trial: &mut Trial<Sha256Print>, bytes: &[u8]) -> Result<CopyMap, Fail> {
    let pieces = cut(alloc, &Sha256Print, bytes, SIZE as u32)?;
    let mut slots = Vec::new(alloc);
    for index in 0..64u64 {
        if let Some((piece, _)) = pieces.piece(index) {
            slots.push(trial.place(alloc, &Sha256Print, piece).ok_or("a slot")?)?;
        }
    }
    map_of(slots, bytes.len() as u64)
}

fn map_of(slots: Vec<u32>, bytes: u64) -> Result<CopyMap, Fail> {
    if slots.len() as u64 != piece_count(bytes, SIZE as u32) {
        return Err("other pieces".into());
    }
    Ok(CopyMap::new(slots, SIZE as u32, 2, bytes))
}

fn read_at(
    trial: &mut Trial<Sha256Print>,
    copy: &CopyMap,
    at: u64,
    into: &mut [u8],
) -> Option<Result<usize, ReadTrouble>> {
    if !copy.is_held(&trial.pool) {
        return None;
    }
    Some(copy.read_at(&mut trial.pool, &mut trial.machine, at, into))
}

// Whether a read gives the bytes from there on, as far as there is room, and leaves the rest of the room alone.
fn reads_from(
    trial: &mut Trial<Sha256Print>,
    copy: &CopyMap,
    bytes: &[u8],
    at: usize,
    room: usize,
) -> bool {
    let mut buffer = [0xeeu8; 64];
    let rest = bytes.get(at..).unwrap_or(b"");
    let Some(into) = buffer.get_mut(..room) else {
        return false;
    };
    match read_at(trial, copy, at as u64, into) {
        Some(Ok(count)) => {
            count == rest.len().min(room)
                && buffer.starts_with(&rest[..count])
                && buffer[count..].iter().all(|byte| *byte == 0xee)
        }
        _ => false,
    }
}

#[test]
fn copies_are_read_from_every_offset(rt: HostRuntime) -> Result<(), Fail> {
    let bytes = b"abcdefghijklmnopqrstuvwxyzABCDEFGHIJKLMN";
    for length in 0..=bytes.len() {
        let mut trial = Trial::new(rt.alloc(), b"", Sha256Print)?;
        let copy = copy_of(rt.alloc(), &mut trial, &bytes[..length])?;
        for at in 0..=length + 1 {
            for room in [0, 1, 15, 16, 17, 41] {
                assert!(rt;
                    reads_from(&mut trial, &copy, &bytes[..length], at, room),
                    "{length}, {room} from {at}"
                );
            }
        }
    }
    Ok(())
}

#[test]
fn fragments_are_runs_of_pieces(rt: HostRuntime) -> Result<(), Fail> {
    let mut trial = Trial::new(rt.alloc(), b"", Sha256Print)?;
    let copy = copy_of(
        rt.alloc(),
        &mut trial,
        b"abcdefghijklmnopqrstuvwxyzABCDEFGHIJKLMN",
    )?;
    let empty = copy_of(rt.alloc(), &mut trial, b"")?;
    assert_eq!(rt; copy.slots(), [0, 1, 2].as_slice());
    assert_eq!(rt; copy.length(), 40);
    assert_eq!(rt; copy.fragment_length(0), Some(32));
    assert_eq!(rt; copy.fragment_length(1), Some(8));
    assert_eq!(rt; copy.fragment_length(2), None);
    assert_eq!(rt; copy.fragment_length(u32::MAX), None);
    assert_eq!(rt; empty.fragment_length(0), None);
    Ok(())
}

// The digests of a damaged piece `hello`, in a file that has these bytes in its place.
fn found_in(alloc: Global, bytes: &[u8]) -> Result<Option<([u8; 32], [u8; 32])>, Fail> {
    let mut trial = Trial::new(alloc, bytes, Sha256Print)?;
    if !trial.adopt(alloc, 0, 5, HELLO) {
        return Err("not adopted".into());
    }
    Ok(match trial.read(0, &mut [0u8; 5]) {
        Some(Err(ReadTrouble::Damaged { recorded, found })) => Some((recorded, found)),
        _ => None,
    })
}

#[test]
fn damage_is_told_by_both_digests(rt: HostRuntime) -> Result<(), Fail> {
    assert_eq!(rt; found_in(rt.alloc(), b"world")?, Some((HELLO, WORLD)));
    assert_eq!(rt; found_in(rt.alloc(), b"hell")?, Some((HELLO, HELL)));
    assert_eq!(rt; found_in(rt.alloc(), b"hello")?, None);
    Ok(())
}

// The slots in which the pieces of some bytes were placed. The first so many pins are taken back again.
fn placed(
    alloc: Global,
    trial: &mut Trial<Sha256Print>,
    bytes: &[u8],
    back: usize,
) -> Result<Vec<u32>, Fail> {
    match trial.place_bytes(alloc, &Sha256Print, bytes, back) {
        Some(Ok(slots)) => Ok(slots),
        _ => Err("not placed".into()),
    }
}

#[test]
fn equal_pieces_are_placed_once(rt: HostRuntime) -> Result<(), Fail> {
    let mut trial = Trial::new(rt.alloc(), b"", Sha256Print)?;
    let first = placed(rt.alloc(), &mut trial, b"hello", 0)?;
    let second = placed(rt.alloc(), &mut trial, b"hello", 0)?;
    assert!(rt; first.as_slice() == [0].as_slice() && second.as_slice() == [0].as_slice());
    assert!(rt; trial.reads_as(0, b"hello") && trial.pool.end() == 1);
    Ok(())
}

#[test]
fn each_piece_pins_its_slot(rt: HostRuntime) -> Result<(), Fail> {
    for back in 0..3 {
        let mut trial = Trial::new(rt.alloc(), b"", Sha256Print)?;
        let slots = placed(
            rt.alloc(),
            &mut trial,
            b"xxxxxxxxxxxxxxxxxxxxxxxxxxxxxxxx",
            back,
        )?;
        assert!(rt; slots.as_slice() == [0, 0].as_slice());
        assert!(rt; trial.pool.held(0).is_some() == (back < 2));
    }
    Ok(())
}

#[test]
fn bytes_with_too_many_new_pieces_are_refused(rt: HostRuntime) -> Result<(), Fail> {
    let mut trial = Trial::new(rt.alloc(), b"", Sha256Print)?;
    trial.pool.set_slots(1);
    let answer = trial.place_bytes(
        rt.alloc(),
        &Sha256Print,
        b"xxxxxxxxxxxxxxxxyyyyyyyyyyyyyyyy",
        0,
    );
    assert!(rt; matches!(answer, Some(Err(PoolFault::Full { count: 2 }))));
    assert!(rt; trial.pool.end() == 0);
    Ok(())
}

// A copy whose last piece is `hello`, at offset 16 of the pool's file.
fn copy_of_two_pieces(alloc: Global, trial: &mut Trial<Sha256Print>) -> Result<CopyMap, Fail> {
    copy_of(alloc, trial, b"xxxxxxxxxxxxxxxxhello")
}

fn reads_all_as(
    alloc: Global,
    trial: &mut Trial<Sha256Print>,
    copy: &CopyMap,
    bytes: &[u8],
) -> bool {
    copy.is_held(&trial.pool)
        && match copy.read_all(alloc, &mut trial.pool, &mut trial.machine) {
            Ok(read) => read.as_slice() == bytes,
            Err(_) => false,
        }
}

fn is_verified(trial: &mut Trial<Sha256Print>, copy: &CopyMap) -> bool {
    copy.is_held(&trial.pool) && copy.verify(&mut trial.pool, &mut trial.machine).is_ok()
}

// The digests of the damaged piece that a read of all tells.
fn damage_read(
    alloc: Global,
    trial: &mut Trial<Sha256Print>,
    copy: &CopyMap,
) -> Option<([u8; 32], [u8; 32])> {
    if !copy.is_held(&trial.pool) {
        return None;
    }
    match copy.read_all(alloc, &mut trial.pool, &mut trial.machine) {
        Err(CopyFault::Damaged { recorded, found }) => Some((recorded, found)),
        _ => None,
    }
}

// Those of the first damaged piece of a copy.
fn damage_found(trial: &mut Trial<Sha256Print>, copy: &CopyMap) -> Option<([u8; 32], [u8; 32])> {
    if !copy.is_held(&trial.pool) {
        return None;
    }
    match copy.verify(&mut trial.pool, &mut trial.machine) {
        Err(ReadTrouble::Damaged { recorded, found }) => Some((recorded, found)),
        _ => None,
    }
}

#[test]
fn a_whole_copy_is_read_back(rt: HostRuntime) -> Result<(), Fail> {
    let mut trial = Trial::new(rt.alloc(), b"", Sha256Print)?;
    let copy = copy_of(rt.alloc(), &mut trial, b"hello")?;
    assert!(rt; reads_all_as(rt.alloc(), &mut trial, &copy, b"hello"));
    let longer = copy_of_two_pieces(rt.alloc(), &mut trial)?;
    assert!(rt; reads_all_as(rt.alloc(), &mut trial, &longer, b"xxxxxxxxxxxxxxxxhello"));
    let empty = copy_of(rt.alloc(), &mut trial, b"")?;
    assert!(rt; reads_all_as(rt.alloc(), &mut trial, &empty, b""));
    Ok(())
}

#[test]
fn a_whole_copy_is_verified(rt: HostRuntime) -> Result<(), Fail> {
    let mut trial = Trial::new(rt.alloc(), b"", Sha256Print)?;
    let copy = copy_of_two_pieces(rt.alloc(), &mut trial)?;
    assert!(rt; is_verified(&mut trial, &copy));
    let empty = copy_of(rt.alloc(), &mut trial, b"")?;
    assert!(rt; is_verified(&mut trial, &empty));
    Ok(())
}

#[test]
fn an_altered_byte_is_damage(rt: HostRuntime) -> Result<(), Fail> {
    let mut trial = Trial::new(rt.alloc(), b"", Sha256Print)?;
    let copy = copy_of_two_pieces(rt.alloc(), &mut trial)?;
    assert!(rt; trial.machine.write_at(2, 17, b"a").is_ok());
    assert_eq!(rt;
        damage_read(rt.alloc(), &mut trial, &copy),
        Some((HELLO, HALLO))
    );
    assert_eq!(rt; damage_found(&mut trial, &copy), Some((HELLO, HALLO)));
    Ok(())
}

#[test]
fn a_file_cut_short_is_damage(rt: HostRuntime) -> Result<(), Fail> {
    let mut trial = Trial::new(rt.alloc(), b"", Sha256Print)?;
    let copy = copy_of_two_pieces(rt.alloc(), &mut trial)?;
    assert!(rt; trial.machine.cut(2, 20).is_ok());
    assert_eq!(rt;
        damage_read(rt.alloc(), &mut trial, &copy),
        Some((HELLO, HELL))
    );
    assert_eq!(rt; damage_found(&mut trial, &copy), Some((HELLO, HELL)));
    Ok(())
}
