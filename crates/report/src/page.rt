// Text that grows within the room that was asked for at first, so that writing it never wants memory.
ghost use Rattle.std.specs.Prelude.{◌≡◌, ◌<◌, ◌≤◌, [], length, decimal, IfOk, string_bytes};
ghost use Rattle.report.specs.Sheet.{Adds};

use itoa::{Buffer, Integer};
use std::alloc::{AllocError, Global};
use std::marker::Model;

// In clauses it is the bytes that are written and the room that is left.
#[derive(Drop)]
pub struct Page {
    text: String,
}

impl Model for Page {
    ghost use Rattle.std.specs.Prelude.{◌-◌, string_bytes, string_len, string_capacity};
    ghost use Rattle.report.specs.Sheet.{Sheet};

    ghost Value = { Sheet };

    ghost view = { λ p. record { bytes = string_bytes p.text; room = string_capacity p.text - string_len p.text } };
}

impl Page {
    // An `Err` says that there is no memory.
    pub fn with_room(heap: Global, room: usize) -> Result<Page, AllocError>
        ensures blank { IfOk result (λ p. p.bytes ≡ []) }
        ensures room { IfOk result (λ p. room ≤ p.room) }
    {
        let text = String::with_capacity(heap, room)?;
        Ok(Page { text })
    }

    pub fn put(&mut self, s: &str)
        requires { length s.now ≤ self.old.room }
        ensures { Adds self.old self.new s.now (length s.now) }
    {
        // It cannot fail, since there is room.
        let _ = self.text.push_str(s);
    }

    // By itoa: std's `write!` to a String may fail, and no clause says that it succeeds where there is room.
    pub fn put_number<I: Integer>(&mut self, n: I)
        requires { I.MAX_STR_LEN ≤ self.old.room }
        ensures { Adds self.old self.new (I.text n) I.MAX_STR_LEN }
    {
        self.put(Buffer::new().format(n));
    }

    #[tactic(auto, using(std::proofs::lemmas::Fmt::decimal_digit))]
    fn put_digit(&mut self, digit: u8)
        requires digit { digit < 10 }
        requires room { 1 ≤ self.old.room }
        ensures { Adds self.old self.new (decimal digit) 1 }
    {
        // It cannot fail, since there is room.
        let _ = self.text.push((b'0' + digit) as char);
    }

    // A number of one digit or two by hand: itoa's buffer and the copy from it take longer than so few digits.
    pub fn put_short(&mut self, n: u8)
        requires short { n < 100 }
        requires room { 2 ≤ self.old.room }
        ensures { Adds self.old self.new (decimal n) 2 }
    {
        if n < 10 {
            self.put_digit(n);
        } else {
            self.put_digit(n / 10);
            self.put_digit(n % 10);
        }
    }

    pub fn into_text(self) -> String
        ensures { string_bytes result ≡ self.bytes }
    {
        self.text
    }
}
