// What stands in questions and answers: numbers, the types that stand as numbers, and what else can be answered.
use crate::number::Orderable;
use crate::question::Question;
use crate::refusal::{Fault, Refusal};

// A number, or a tuple of rows.
pub trait Row<T>: Copy {
    // The next of the question's.
    fn of(q: &mut Question<'_, T>) -> Result<Self, Refusal>;

    // Adds it to the answer, each number after a blank but at the start.
    fn say(self, q: &mut Question<'_, T>) -> Result<(), Fault>;
}

impl<T: Orderable> Row<T> for T {
    fn of(q: &mut Question<'_, T>) -> Result<T, Refusal> {
        q.number()
    }

    fn say(self, q: &mut Question<'_, T>) -> Result<(), Fault> {
        if !q.answer.is_empty() {
            q.answer.push(' ')?;
        }
        Ok(self.write(&mut q.answer)?)
    }
}

impl<T, A: Row<T>, B: Row<T>> Row<T> for (A, B) {
    fn of(q: &mut Question<'_, T>) -> Result<(A, B), Refusal> {
        Ok((A::of(q)?, B::of(q)?))
    }

    fn say(self, q: &mut Question<'_, T>) -> Result<(), Fault> {
        self.0.say(q)?;
        self.1.say(q)
    }
}

impl<T, A: Row<T>, B: Row<T>, C: Row<T>> Row<T> for (A, B, C) {
    fn of(q: &mut Question<'_, T>) -> Result<(A, B, C), Refusal> {
        Ok((A::of(q)?, B::of(q)?, C::of(q)?))
    }

    fn say(self, q: &mut Question<'_, T>) -> Result<(), Fault> {
        let (a, b, c) = self;
        (a, (b, c)).say(q)
    }
}

pub type Four<T> = ((T, T), (T, T));

pub type Six<T> = ((T, T), (T, T), (T, T));

pub type Sixteen<T> = ((Four<T>, Four<T>), (Four<T>, Four<T>));

// A type of the transforms, which stands as the numbers in its fields, in order.
pub trait Shape<T: Orderable>: Copy {
    type Fields: Row<T>;

    fn from_fields(fields: Self::Fields) -> Self;

    fn fields(self) -> Self::Fields;

    // The type's own equality, which is a function of each.
    fn same(&self, other: &Self) -> bool;

    fn of(q: &mut Question<'_, T>) -> Result<Self, Refusal> {
        Ok(Self::from_fields(Self::Fields::of(q)?))
    }

    fn say(self, q: &mut Question<'_, T>) -> Result<(), Fault> {
        self.fields().say(q)
    }

    // The functions of every such type.
    final fn ask_any(q: &mut Question<'_, T>) -> Result<(), Fault> {
        match q.function {
            "new" => Self::of(q)?.say(q),
            "eq" => Self::of(q)?.same(&Self::of(q)?).say(q),
            _ => Err(Refusal::UnknownFunction.into()),
        }
    }
}

// What else a function can answer.
pub trait Answer<T: Orderable> {
    fn say(self, q: &mut Question<'_, T>) -> Result<(), Fault>;
}

impl<T: Orderable> Answer<T> for bool {
    fn say(self, q: &mut Question<'_, T>) -> Result<(), Fault> {
        Ok(q.answer.push_str(if self { "true" } else { "false" })?)
    }
}

impl<T: Orderable, S: Shape<T>> Answer<T> for Option<S> {
    fn say(self, q: &mut Question<'_, T>) -> Result<(), Fault> {
        match self {
            None => Ok(q.answer.push_str("None")?),
            Some(shape) => {
                q.answer.push_str("Some")?;
                shape.say(q)
            }
        }
    }
}
