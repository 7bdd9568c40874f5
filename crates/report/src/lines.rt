// The lines that show a job.
ghost use Rattle.std.specs.Prelude.{◌≡◌, ℕ, ◌+◌, ◌*◌, ◌≤◌, List, ◌++◌, length, decimal};
ghost use Rattle.jobfile.specs.Items.{form_numbers};
ghost use Rattle.report.specs.Sheet.{Adds};
ghost use Rattle.report.specs.Text.{form_name, form_text, step_text, step_line, point_line, frame_line, line, lines, numbers_text};

use crate::numbers::Shown;
use crate::page::Page;
use integers::fraction::Fraction;
use jobfile::parts::{Form, Frame, Point, Step};
use pixels::types::Pixel;
use residues::types::Residue;

fn name_of(f: &Form) -> &'static str
    ensures value { result.now ≡ form_name f.now }
    ensures bound { length result.now ≤ 12 }
{
    match f {
        Form::ScaleOffset(_) => "scale-offset",
        Form::Flat(_) => "flat",
        Form::Solid(_) => "solid",
    }
}

fn numbers_of(f: &Form) -> &[Fraction]
    ensures value { result.now ≡ form_numbers f.now }
    ensures bound { length result.now ≤ 16 }
{
    match f {
        Form::ScaleOffset(fs) => fs,
        Form::Flat(fs) => fs,
        Form::Solid(fs) => fs,
    }
}

impl Page {
    // The name of a form and its numbers.
    fn put_form(&mut self, f: &Form)
        requires { 204 ≤ self.old.room }
        ensures { Adds self.old self.new (form_text f.now) 204 }
    {
        self.put(name_of(f));
        self.put_numbers::<Residue>(numbers_of(f));
    }

    // What a step does.
    fn put_step(&mut self, s: &Step)
        requires { 211 ≤ self.old.room }
        ensures { Adds self.old self.new (step_text s.now) 211 }
    {
        match s {
            Step::Then(f) => {
                self.put("then ");
                self.put_form(f);
            }
            Step::Before(f) => {
                self.put("before ");
                self.put_form(f);
            }
            Step::Undo => self.put("undo"),
        }
    }

    // An index. Most are short.
    fn put_index(&mut self, i: usize)
        requires { 20 ≤ self.old.room }
        ensures { Adds self.old self.new (decimal i) 20 }
    {
        if i < 100 {
            self.put_short(i as u8);
        } else {
            self.put_number(i);
        }
    }

    // The word and the index that a line begins with. Inlined, since each word is a constant, whose copy is then no call.
    #[inline(always)]
    fn put_head(&mut self, word: &str, i: usize)
        requires { length word.now + 20 ≤ self.old.room }
        ensures { Adds self.old self.new (word.now ++ decimal i) (length word.now + 20) }
    {
        self.put(word);
        self.put_index(i);
    }

    // A line of numbers.
    fn put_number_line<S: Shown>(&mut self, word: &str, i: usize, fs: &[Fraction])
        requires { length word.now + 21 + 12 * length fs.now ≤ self.old.room }
        ensures { Adds self.old self.new (line word.now i (numbers_text S.value fs.now))
            (length word.now + 21 + 12 * length fs.now) }
    {
        self.put_head(word, i);
        self.put_numbers::<S>(fs);
        self.put("\n");
    }

    // A line for each item.
    pub fn put_lines<L: Line>(&mut self, items: &[L])
        requires { L.WIDTH * length items.now ≤ self.old.room }
        ensures { Adds self.old self.new (lines L.text 0 items.now) (L.WIDTH * length items.now) }
    {
        for (i, item) in items.iter().enumerate() {
            item.put_line(self, i);
        }
    }
}

// What has a line of its own.
pub trait Line: Sized {
    // The most bytes that it takes.
    const WIDTH: usize;

    ghost text: { ℕ → Self → List ℕ };

    ghost WIDTH: { ℕ };

    // Adds the line of `self`, whose index is `i`, to `page`.
    fn put_line(&self, page: &mut Page, i: usize)
        requires { WIDTH ≤ page.old.room }
        ensures { Adds page.old page.new (text i self.now) WIDTH };
}

impl Line for Step {
    const WIDTH: usize = 238;

    ghost text = { step_line };

    ghost WIDTH = { 238 };

    fn put_line(&self, page: &mut Page, i: usize) {
        page.put_head("step ", i);
        page.put(" ");
        page.put_step(self);
        page.put("\n");
    }
}

impl Line for Point {
    const WIDTH: usize = 63;

    ghost text = { point_line };

    ghost WIDTH = { 63 };

    fn put_line(&self, page: &mut Page, i: usize) {
        page.put_number_line::<Residue>("point ", i, &[self.x, self.y, self.z]);
    }
}

impl Line for Frame {
    const WIDTH: usize = 75;

    ghost text = { frame_line };

    ghost WIDTH = { 75 };

    fn put_line(&self, page: &mut Page, i: usize) {
        page.put_number_line::<Pixel>(
            "frame ",
            i,
            &[self.min_x, self.min_y, self.max_x, self.max_y],
        );
    }
}
