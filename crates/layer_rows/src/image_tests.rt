use image_kinds::{
    ImageBody, decode_image, decode_stream, encode_image, encode_stream, make_image, merge_chain,
};
use site_types::Text;
use std::alloc::Global;
use std::test::*;

// `/a`, changed at 1500, with the content `A2`, and `/c`, changed at 3500, with `C2`, as the format spells them.
const TREE: [u8; 51] = [
    0x4e, 0x42, 0x43, 0x31, 0x01, 0x00, 0x02, 0x2f, 0x61, 0x00, 0x00, 0x00, 0x00, 0x00, 0x00, 0x05,
    0xdc, 0x00, 0x00, 0x00, 0x00, 0x00, 0x00, 0x00, 0x02, 0x41, 0x32, 0x01, 0x00, 0x02, 0x2f, 0x63,
    0x00, 0x00, 0x00, 0x00, 0x00, 0x00, 0x0d, 0xac, 0x00, 0x00, 0x00, 0x00, 0x00, 0x00, 0x00, 0x02,
    0x43, 0x32, 0x00,
];

type File<'a> = (&'a [u8], u64, &'a [u8]);

fn spelled_file(out: &mut Vec<u8>, file: File) -> Result<(), Fail> {
    let (path, time, content) = file;
    out.push(1)?;
    out.extend_from_slice(&u16::try_from(path.len())?.to_be_bytes())?;
    out.extend_from_slice(path)?;
    out.extend_from_slice(&time.to_be_bytes())?;
    out.extend_from_slice(&(content.len() as u64).to_be_bytes())?;
    out.extend_from_slice(content)?;
    Ok(())
}

fn spelled(alloc: Global, files: &[File]) -> Result<Vec<u8>, Fail> {
    let mut out = b"NBC1".to_vec(alloc)?;
    for file in files {
        spelled_file(&mut out, *file)?;
    }
    out.push(0)?;
    Ok(out)
}

// The image of these files since the reference, as it is written.
fn image(alloc: Global, files: &[File], reference: Option<u64>) -> Result<Vec<u8>, Fail> {
    let bytes = spelled(alloc, files)?;
    let stream = decode_stream(alloc, &bytes).ok().ok_or("a stream")?;
    let mut selections = Vec::new(alloc);
    selections.push(Text::new(alloc, b"/")?)?;
    let made = make_image(alloc, &stream, &selections, reference)?;
    Ok(encode_image(alloc, &made)?)
}

fn read(alloc: Global, bytes: &[u8]) -> Result<ImageBody<'_>, Fail> {
    Ok(decode_image(alloc, bytes).ok().ok_or("an image")?)
}

// The tree of three images of a chain, as it is written.
fn tree(alloc: Global, first: &[u8], second: &[u8], last: &[u8]) -> Result<Vec<u8>, Fail> {
    let images = [
        read(alloc, first)?,
        read(alloc, second)?,
        read(alloc, last)?,
    ];
    Ok(encode_stream(alloc, &merge_chain(alloc, &images)?)?)
}

// The files of three days, and the week of a full, a cumulative and a differential backup of them.
const FULL: [File<'static>; 2] = [(b"/a", 900, b"A1"), (b"/b", 900, b"B1")];

const CUMULATIVE: [File<'static>; 3] = [
    (b"/a", 1500, b"A2"),
    (b"/b", 900, b"B1"),
    (b"/c", 2500, b"C1"),
];

const LAST: [File<'static>; 2] = [(b"/a", 1500, b"A2"), (b"/c", 3500, b"C2")];

#[test]
fn a_week_is_restored(rt: HostRuntime) -> Result<(), Fail> {
    let full = image(rt.alloc(), &FULL, None)?;
    let cumulative = image(rt.alloc(), &CUMULATIVE, Some(1000))?;
    let last = image(rt.alloc(), &LAST, Some(3000))?;
    let tree = tree(rt.alloc(), &full, &cumulative, &last)?;
    assert_eq!(rt; tree.as_slice(), TREE.as_slice());
    Ok(())
}
