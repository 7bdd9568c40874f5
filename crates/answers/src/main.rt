// Answers questions about the ported functions: each line of standard input is `SCALAR FUNCTION numbers…`, and each line of
// standard output the answer. The same questions can be asked of euclid itself (oracle/README.md has the protocol).
#![tactic(auto)]

mod flats;
mod number;
mod places;
mod question;
mod rects;
mod refusal;
mod scalings;
mod shapes;
mod solids;
mod table;

use number::Orderable;
use numbers::types::{Count, Real};
use pixels::types::{Pixel, Whole};
use question::Question;
use refusal::{Fault, Refusal};
use residues::types::Residue;
use std::alloc::Global;
use std::io::{BufRead, BufReader, BufWriter, Write};
use std::str::{SplitAsciiWhitespace, from_utf8};
use std::{io, mem};

// Adds to `line`, which is empty, what the question is answered.
fn answer(question: &[u8], heap: Global, line: &mut String) -> Result<(), Fault> {
    let text = from_utf8(question).map_err(|_| Refusal::NotText)?;
    let mut words = text.split_ascii_whitespace();
    let (Some(scalar), Some(function)) = (words.next(), words.next()) else {
        return Err(Refusal::ShortLine.into());
    };
    match scalar {
        "Real" => answer_over::<Real>(function, words, heap, line),
        "Count" => answer_over::<Count>(function, words, heap, line),
        "Residue" => answer_over::<Residue>(function, words, heap, line),
        "Pixel" => answer_over::<Pixel>(function, words, heap, line),
        "Whole" => answer_over::<Whole>(function, words, heap, line),
        _ => Err(Refusal::UnknownScalar.into()),
    }
}

// Adds what the function of this name answers for the numbers that the words are.
fn answer_over<T: Orderable>(
    function: &str,
    words: SplitAsciiWhitespace<'_>,
    heap: Global,
    line: &mut String,
) -> Result<(), Fault> {
    let mut numbers = Vec::new(heap);
    for word in words {
        numbers.push(T::read(word).ok_or(Refusal::BadNumber)?)?;
    }
    let mut question = Question {
        function,
        numbers: numbers.as_slice(),
        answer: mem::replace(line, String::new(heap)),
    };
    let asked = table::ask(&mut question);
    let all_taken = question.numbers.is_empty();
    *line = question.answer;
    asked?;
    if all_taken {
        Ok(())
    } else {
        Err(Refusal::TooManyNumbers.into())
    }
}

fn main(rt: HostRuntime) -> io::Result<()> {
    let heap = rt.alloc();
    let mut input = BufReader::new(heap, rt.stdin())?;
    let mut output = BufWriter::new(heap, rt.stdout())?;
    // Both are used again for each question: asking for memory for each takes half as long again as an empty line (docs/DESIGN-PASS.md).
    let mut question: Vec<u8> = Vec::new(heap);
    let mut line = String::new(heap);
    for _ in 0..u64::MAX {
        question.clear();
        line.clear();
        if input.read_until(b'\n', &mut question)? == 0 {
            break;
        }
        match answer(question.as_slice(), heap, &mut line) {
            Ok(()) => writeln!(output, "{line}")?,
            Err(Fault::Refused(refusal)) => writeln!(output, "{refusal}")?,
            Err(Fault::Memory(e)) => return Err(e.into()),
        }
    }
    output.flush()
}
