// A question that is being answered: `q` in the tables of functions.
use crate::number::Orderable;
use crate::refusal::{Fault, Refusal};
use crate::shapes::Shape;

#[derive(Drop)]
pub struct Question<'a, T> {
    // Its name: without its type's, once the table is found.
    pub function: &'a str,
    // Those that are not taken yet.
    pub numbers: &'a [T],
    // What was said so far.
    pub answer: String,
}

impl<'a, T: Orderable> Question<'a, T> {
    pub fn number(&mut self) -> Result<T, Refusal> {
        let Some((number, rest)) = self.numbers.split_first() else {
            return Err(Refusal::TooFewNumbers);
        };
        self.numbers = rest;
        Ok(*number)
    }

    // The next shapes, as many as are asked for: it takes numbers in turn and walks no list by an index.
    pub fn shapes<S: Shape<T>>(&mut self, count: usize) -> Result<Vec<S>, Fault> {
        let mut all = Vec::new(*self.answer.allocator());
        for _ in 0..count {
            all.push(S::of(self)?)?;
        }
        Ok(all)
    }
}
