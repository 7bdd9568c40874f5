// The parts of a job, with each number as the file writes it.
use integers::fraction::Fraction;

// How many steps, points and frames a job may hold.
pub const MOST_STEPS: u16 = 256;

pub const MOST_POINTS: u16 = 1024;

pub const MOST_FRAMES: u16 = 256;

// The bytes of the longest job: 256 solid steps, 1,024 points and 256 frames, each section after its count.
pub const LONGEST: usize = 49414;

// What a step joins: the numbers of its form, in field order.
#[derive(Clone, Copy)]
pub enum Form {
    ScaleOffset([Fraction; 4]),
    Flat([Fraction; 6]),
    Solid([Fraction; 16]),
}

// A form joined after what was there or before it, or the undoing of what was there.
#[derive(Clone, Copy)]
pub enum Step {
    Then(Form),
    Before(Form),
    Undo,
}

// A point, whose w is one.
#[derive(Clone, Copy)]
pub struct Point {
    pub x: Fraction,
    pub y: Fraction,
    pub z: Fraction,
}

#[derive(Clone, Copy)]
pub struct Frame {
    pub min_x: Fraction,
    pub min_y: Fraction,
    pub max_x: Fraction,
    pub max_y: Fraction,
}

#[derive(Drop)]
pub struct Job {
    pub steps: Vec<Step>,
    pub points: Vec<Point>,
    pub frames: Vec<Frame>,
}
