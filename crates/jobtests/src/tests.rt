// What is written of files that a shop could meet.
use jobfile::notice::Notice;
use report::show::show;
use report::space::Space;
use std::alloc::{AllocError, Global};
use std::process::Abort;
use std::test::Fail;

// One step, one point and one frame. Its items begin at 0, 2, 27, 29, 47 and 49.
static SAMPLE: &[u8; 73] = b"\x01\x00\
    \x01\x03\x00\x00\x00\x02\x00\x02\x00\x00\x00\x01\x00\x0a\x00\x00\x00\x01\x00\xfc\xff\xff\xff\x01\x00\
    \x01\x00\
    \x04\x00\x00\x00\x01\x00\x05\x00\x00\x00\x01\x00\x00\x00\x00\x00\x01\x00\
    \x01\x00\
    \x00\x00\x00\x00\x01\x00\x00\x00\x00\x00\x01\x00\x02\x00\x00\x00\x01\x00\x02\x00\x00\x00\x01\x00";

// What is written of `bytes`.
fn answer(heap: Global, bytes: &[u8]) -> Result<String, Fail> {
    let space = Space::new(heap)?;
    match show(space, bytes) {
        Ok(text) => Ok(text),
        Err(fault) => {
            let notice = Notice::from(fault);
            Ok(format!(in heap; "{notice}\n")?)
        }
    }
}

// The sample with the byte at `at` changed to `b`.
fn changed(heap: Global, at: usize, b: u8) -> Result<Vec<u8>, AllocError> {
    let mut bytes = SAMPLE.to_vec(heap)?;
    if let Some(x) = bytes.get_mut(at) {
        *x = b;
    }
    Ok(bytes)
}

fn put_count(bytes: &mut Vec<u8>, n: u16) -> Result<(), AllocError> {
    bytes.extend_from_slice(&n.to_le_bytes())
}

fn put_number(bytes: &mut Vec<u8>, num: i32, den: u16) -> Result<(), AllocError> {
    bytes.extend_from_slice(&num.to_le_bytes())?;
    bytes.extend_from_slice(&den.to_le_bytes())
}

// A section of `n` items, each of the code, if there is one, and of `numbers` numbers, each -1/65520. A code is its byte: the reader's enum is its own.
fn put_section(
    bytes: &mut Vec<u8>,
    n: u16,
    code: Option<u8>,
    numbers: u8,
) -> Result<(), AllocError> {
    put_count(bytes, n)?;
    // As many times the same, with nothing to walk.
    for _ in 0..n {
        if let Some(c) = code {
            bytes.push(c)?;
        }
        for _ in 0..numbers {
            put_number(bytes, -1, 65520)?;
        }
    }
    Ok(())
}

// A file of only one frame.
fn frame(heap: Global, min_x: (i32, u16), max_x: (i32, u16)) -> Result<Vec<u8>, AllocError> {
    let mut bytes = Vec::new(heap);
    put_count(&mut bytes, 0)?;
    put_count(&mut bytes, 0)?;
    put_count(&mut bytes, 1)?;
    put_number(&mut bytes, min_x.0, min_x.1)?;
    put_number(&mut bytes, 0, 1)?;
    put_number(&mut bytes, max_x.0, max_x.1)?;
    put_number(&mut bytes, 0, 1)?;
    Ok(bytes)
}

fn says<R: Abort + AllocGlobal>(rt: &R, bytes: &[u8], text: &str) -> Result<(), Fail> {
    let got = answer(rt.alloc(), bytes)?;
    assert_eq!(rt; got.as_str(), text);
    Ok(())
}

fn says_when<R: Abort + AllocGlobal>(rt: &R, at: usize, b: u8, text: &str) -> Result<(), Fail> {
    let bytes = changed(rt.alloc(), at, b)?;
    says(rt, bytes.as_slice(), text)
}

#[test]
fn an_empty_file_is_too_short(rt: HostRuntime) -> Result<(), Fail> {
    says(&rt, &[], "REFUSED reader 1 0\n")
}

#[test]
fn the_sample_is_shown(rt: HostRuntime) -> Result<(), Fail> {
    says(
        &rt,
        SAMPLE,
        "step 0 then scale-offset 32762 2 10 65517\npoint 0 4 5 0\nframe 0 0 0 512 512\n",
    )
}

// Where the item begins that is due at byte `n` of the sample.
fn item_at(n: usize) -> usize {
    match n {
        0..2 => 0,
        2..27 => 2,
        27..29 => 27,
        29..47 => 29,
        47..49 => 47,
        _ => 49,
    }
}

#[test]
fn a_file_cut_anywhere_is_too_short_where_the_cut_item_begins(rt: HostRuntime) -> Result<(), Fail> {
    let heap = rt.alloc();
    // Each length, not each byte.
    for n in 0..SAMPLE.len() {
        let place = item_at(n);
        let text = format!(in heap; "REFUSED reader 1 {place}\n")?;
        says(&rt, &SAMPLE[..n], text.as_str())?;
    }
    Ok(())
}

#[test]
fn a_count_above_its_limit_is_refused_where_it_begins(rt: HostRuntime) -> Result<(), Fail> {
    says_when(&rt, 1, 2, "REFUSED reader 2 0\n")?;
    says_when(&rt, 28, 5, "REFUSED reader 2 27\n")?;
    says_when(&rt, 48, 2, "REFUSED reader 2 47\n")
}

#[test]
fn an_unknown_code_is_refused_where_its_step_begins(rt: HostRuntime) -> Result<(), Fail> {
    for code in [0, 4, 16, 20, 31, 33] {
        says_when(&rt, 2, code, "REFUSED reader 3 2\n")?;
    }
    Ok(())
}

#[test]
fn a_denominator_out_of_range_is_refused_where_its_item_begins(
    rt: HostRuntime,
) -> Result<(), Fail> {
    says_when(&rt, 13, 0, "REFUSED reader 4 2\n")?;
    says_when(&rt, 45, 0, "REFUSED reader 4 29\n")?;
    says_when(&rt, 71, 0, "REFUSED reader 4 49\n")?;
    let mut bytes = changed(rt.alloc(), 45, 241)?;
    if let Some(x) = bytes.get_mut(46) {
        *x = 255;
    }
    says(&rt, bytes.as_slice(), "REFUSED reader 4 29\n")
}

#[test]
fn bytes_left_over_are_refused_at_the_first(rt: HostRuntime) -> Result<(), Fail> {
    let heap = rt.alloc();
    let mut bytes = SAMPLE.to_vec(heap)?;
    bytes.extend_from_slice(&[0, 0])?;
    says(&rt, bytes.as_slice(), "REFUSED reader 5 73\n")
}

#[test]
fn a_frame_turned_round_is_refused_by_its_index(rt: HostRuntime) -> Result<(), Fail> {
    says_when(&rt, 49, 3, "REFUSED frame 6 0\n")?;
    says_when(&rt, 55, 3, "REFUSED frame 6 0\n")
}

#[test]
fn frames_are_compared_as_pixel_counts(rt: HostRuntime) -> Result<(), Fail> {
    let heap = rt.alloc();
    let level = frame(heap, (1, 257), (0, 1))?;
    says(&rt, level.as_slice(), "frame 0 0 0 0 0\n")?;
    let turned = frame(heap, (0, 1), (-1, 3))?;
    says(&rt, turned.as_slice(), "REFUSED frame 6 0\n")?;
    let clamped = frame(heap, (2147483647, 1), (8388608, 1))?;
    says(
        &rt,
        clamped.as_slice(),
        "frame 0 2147483647 0 2147483647 0\n",
    )
}

#[test]
fn an_unknown_code_comes_before_a_short_file(rt: HostRuntime) -> Result<(), Fail> {
    says(&rt, &[1, 0, 99], "REFUSED reader 3 2\n")
}

#[test]
fn a_short_file_comes_before_a_denominator(rt: HostRuntime) -> Result<(), Fail> {
    says(
        &rt,
        &[0, 0, 1, 0, 4, 0, 0, 0, 0, 0, 5, 0],
        "REFUSED reader 1 4\n",
    )
}

#[test]
fn a_denominator_comes_before_a_frame_turned_round(rt: HostRuntime) -> Result<(), Fail> {
    let heap = rt.alloc();
    let bytes = frame(heap, (5, 1), (2, 0))?;
    says(&rt, bytes.as_slice(), "REFUSED reader 4 6\n")
}

#[test]
fn a_frame_turned_round_comes_before_bytes_left_over(rt: HostRuntime) -> Result<(), Fail> {
    let heap = rt.alloc();
    let mut bytes = frame(heap, (5, 1), (2, 1))?;
    bytes.push(0)?;
    says(&rt, bytes.as_slice(), "REFUSED frame 6 0\n")
}

#[test]
fn the_longest_job_is_shown_and_one_byte_more_is_refused(rt: HostRuntime) -> Result<(), Fail> {
    let heap = rt.alloc();
    let mut bytes = Vec::new(heap);
    put_section(&mut bytes, 256, Some(19), 16)?;
    put_section(&mut bytes, 1024, None, 3)?;
    put_section(&mut bytes, 256, None, 4)?;
    assert_eq!(rt; bytes.len(), 49414);
    let text = answer(heap, bytes.as_slice())?;
    assert_eq!(rt; text.as_str().lines().count(), 1536);
    bytes.push(0)?;
    says(&rt, bytes.as_slice(), "REFUSED reader 5 49414\n")
}

#[test]
fn one_item_more_than_a_limit_is_refused(rt: HostRuntime) -> Result<(), Fail> {
    let heap = rt.alloc();
    let mut steps = Vec::new(heap);
    put_section(&mut steps, 257, Some(32), 0)?;
    says(&rt, steps.as_slice(), "REFUSED reader 2 0\n")?;
    let mut points = Vec::new(heap);
    put_section(&mut points, 0, None, 0)?;
    put_section(&mut points, 1025, None, 3)?;
    says(&rt, points.as_slice(), "REFUSED reader 2 2\n")?;
    let mut frames = Vec::new(heap);
    put_section(&mut frames, 0, None, 0)?;
    put_section(&mut frames, 0, None, 0)?;
    put_section(&mut frames, 257, None, 4)?;
    says(&rt, frames.as_slice(), "REFUSED reader 2 4\n")
}
