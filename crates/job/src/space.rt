// The memory of a job.
ghost use Rattle.std.specs.Prelude.{◌≡◌, ◌≤◌, [], IfOk, vec_len, vec_capacity};
ghost use Rattle.jobfile.specs.declared.parts.TheConstants.{MOST_STEPS, MOST_POINTS, MOST_FRAMES};

use jobfile::parts::{Frame, MOST_FRAMES, MOST_POINTS, MOST_STEPS, Point, Step};
use std::alloc::{AllocError, Global};

// Room for the longest job. It is asked for before a file is looked at, so that reading never wants memory.
#[derive(Drop)]
pub struct Space {
    pub(crate) steps: Vec<Step>,
    pub(crate) points: Vec<Point>,
    pub(crate) frames: Vec<Frame>,
    ghost no_step: { vec_len steps ≡ 0 },
    ghost no_point: { vec_len points ≡ 0 },
    ghost no_frame: { vec_len frames ≡ 0 },
    ghost steps_room: { MOST_STEPS ≤ vec_capacity steps },
    ghost points_room: { MOST_POINTS ≤ vec_capacity points },
    ghost frames_room: { MOST_FRAMES ≤ vec_capacity frames },
}

impl Space {
    // An `Err` says that there is no memory.
    pub fn new(heap: Global) -> Result<Space, AllocError>
        ensures { IfOk result (λ s. (s.steps.items ≡ []) × (s.points.items ≡ []) × (s.frames.items ≡ [])) }
    {
        let steps = Vec::with_capacity(heap, MOST_STEPS as usize)?;
        let points = Vec::with_capacity(heap, MOST_POINTS as usize)?;
        let frames = Vec::with_capacity(heap, MOST_FRAMES as usize)?;
        Ok(Space {
            steps,
            points,
            frames,
        })
    }
}
