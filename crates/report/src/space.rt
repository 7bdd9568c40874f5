// The memory of a report.
ghost use Rattle.std.specs.Prelude.{◌≡◌, ◌≤◌, [], IfOk};
ghost use Rattle.report.specs.declared.space.TheConstants.{LONGEST_TEXT};

use crate::lines::Line;
use crate::page::Page;
use jobfile::parts::{Frame, MOST_FRAMES, MOST_POINTS, MOST_STEPS, Point, Step};
use std::alloc::{AllocError, Global};

// The most bytes that the lines of a job may take.
pub(crate) const LONGEST_TEXT: usize = MOST_STEPS as usize * Step::WIDTH
    + MOST_POINTS as usize * Point::WIDTH
    + MOST_FRAMES as usize * Frame::WIDTH;

// Room for the longest job and for its text, asked for before a file is looked at.
#[derive(Drop)]
pub struct Space {
    pub(crate) job: job::space::Space,
    pub(crate) page: Page,
    ghost empty: { page.bytes ≡ [] },
    ghost room: { LONGEST_TEXT ≤ page.room },
}

impl Space {
    // An `Err` says that there is no memory.
    pub fn new(heap: Global) -> Result<Space, AllocError>
        ensures { IfOk result (λ s. s.page.bytes ≡ []) }
    {
        let job = job::space::Space::new(heap)?;
        let page = Page::with_room(heap, LONGEST_TEXT)?;
        Ok(Space { job, page })
    }
}
