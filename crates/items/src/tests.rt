// Items read at the place where a cursor stands, and as if they stood at another.
use crate::cursor::Cursor;
use crate::items::{Item, PlacedItem};
use jobfile::faults::Fault;
use jobfile::notice::Notice;
use jobfile::parts::{Form, Frame, Point, Step};
use std::process::Abort;

// The cursor behind the count that a file begins with. It stands at 2.
fn behind_count<'a>(rt: &impl Abort, file: &'a [u8]) -> Cursor<'a> {
    let Ok((_, after)) = Cursor::new(file).count(0, 256) else {
        panic!(rt; "the file has no count");
    };
    after
}

// The number and the place of a refusal.
fn refusal<I: Drop>(read: Result<(I, Cursor<'_>), Fault>) -> Option<(u8, usize)> {
    let notice = Notice::from(read.err()?);
    Some((notice.number, notice.place))
}

#[test]
fn a_step_is_read_where_its_cursor_stands(rt: HostRuntime) {
    let from = behind_count(
        &rt,
        b"\x02\x00\
        \x01\x03\x00\x00\x00\x02\x00\x02\x00\x00\x00\x01\x00\x0a\x00\x00\x00\x01\x00\xfc\xff\xff\xff\x01\x00\
        \x63",
    );
    let Ok((step, after)) = Step::read(from, 0) else {
        panic!(rt; "the step is not read");
    };
    assert!(rt; matches!(step, Step::Then(Form::ScaleOffset(_))));
    assert_eq!(rt; after.at(), 27);
    assert_eq!(rt; refusal(Step::read(after, 1)), Some((3, 27)));
    assert_eq!(rt; refusal(Step::read_at(after, 2, 1)), Some((3, 2)));
}

#[test]
fn a_point_is_read_where_its_cursor_stands(rt: HostRuntime) {
    let from = behind_count(
        &rt,
        b"\x02\x00\
        \x04\x00\x00\x00\x01\x00\x05\x00\x00\x00\x01\x00\x00\x00\x00\x00\x01\x00\
        \x06\x00\x00\x00\x01\x00",
    );
    let Ok((point, after)) = Point::read(from, 0) else {
        panic!(rt; "the point is not read");
    };
    assert_eq!(rt; (point.x.num, point.y.num, point.z.num), (4, 5, 0));
    assert_eq!(rt; after.at(), 20);
    assert_eq!(rt; refusal(Point::read(after, 1)), Some((1, 20)));
    assert_eq!(rt; refusal(Point::read_at(after, 2, 1)), Some((1, 2)));
}

#[test]
fn a_frame_is_read_where_its_cursor_stands(rt: HostRuntime) {
    let from = behind_count(
        &rt,
        b"\x02\x00\
        \x00\x00\x00\x00\x01\x00\x00\x00\x00\x00\x01\x00\x02\x00\x00\x00\x01\x00\x02\x00\x00\x00\x01\x00\
        \x03\x00\x00\x00\x01\x00\x00\x00\x00\x00\x01\x00\x02\x00\x00\x00\x01\x00\x02\x00\x00\x00\x01\x00",
    );
    let Ok((frame, after)) = Frame::read(from, 0) else {
        panic!(rt; "the frame is not read");
    };
    assert_eq!(rt; (frame.min_x.num, frame.max_x.num), (0, 2));
    assert_eq!(rt; after.at(), 26);
    // By its index, wherever it stands.
    assert_eq!(rt; refusal(Frame::read(after, 7)), Some((6, 7)));
    assert_eq!(rt; refusal(Frame::read_at(after, 2, 7)), Some((6, 7)));
}
