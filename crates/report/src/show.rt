// What a job file holds, as text.
ghost use Rattle.std.specs.Prelude.{◌≤◌, string_bytes, MatchResult};
ghost use Rattle.jobfile.specs.Format.{Fails, Good, OneAnswer, Enough, lists};
ghost use Rattle.report.specs.Sheet.{Adds};
ghost use Rattle.report.specs.Text.{Shows, job_text};

use crate::page::Page;
use crate::space::{LONGEST_TEXT, Space};
use job::reader::read;
use jobfile::faults::Fault;
use jobfile::parts::Job;

impl Page {
    // The lines of a job: its steps, its points and its frames.
    fn put_job(&mut self, job: &Job)
        requires good { Good (lists job.now) }
        requires room { LONGEST_TEXT ≤ self.old.room }
        ensures { Adds self.old self.new (job_text (lists job.now)) LONGEST_TEXT }
    {
        self.put_lines(job.steps.as_slice());
        self.put_lines(job.points.as_slice());
        self.put_lines(job.frames.as_slice());
    }
}

// The lines of the job that `bytes` stand for, or the first fault in them.
pub fn show(space: Space, bytes: &[u8]) -> Result<String, Fault>
    ensures answer { MatchResult result (λ s. Shows bytes.now (string_bytes s)) (λ f. Fails bytes.now f) }
    ensures one { OneAnswer bytes.now }
    ensures enough { Enough bytes.now }
{
    let Space { job, mut page } = space;
    let job = read(job, bytes)?;
    page.put_job(&job);
    Ok(page.into_text())
}
