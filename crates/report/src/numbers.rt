// Numbers of the file, as they are shown.
ghost use Rattle.std.specs.Prelude.{◌≡◌, ◌*◌, ◌≤◌, length, ℤ};
ghost use Rattle.std.specs.Fmt.{signed_decimal};
ghost use Rattle.integers.specs.declared.fraction.Fraction.{Fraction};
ghost use Rattle.report.specs.Sheet.{Adds};
ghost use Rattle.report.specs.Text.{numbers_text, residue_value, pixel_value};

use crate::page::Page;
use integers::fraction::Fraction;
use pixels::types::Pixel;
use residues::types::Residue;

// A scalar that shows a number of the file by an integer. `Scalar::to_plain` is no such thing: of a Pixel it gives the Pixel.
pub trait Shown {
    ghost value: { Fraction → ℤ };

    fn shown(f: Fraction) -> i32
        ensures { result ≡ value f };
}

impl Shown for Residue {
    ghost value = { residue_value };

    fn shown(f: Fraction) -> i32 {
        Residue::from(f).value
    }
}

impl Shown for Pixel {
    ghost value = { pixel_value };

    fn shown(f: Fraction) -> i32 {
        Pixel::from(f).value
    }
}

impl Page {
    // What a scalar shows.
    fn put_value(&mut self, z: i32)
        requires { 11 ≤ self.old.room }
        ensures { Adds self.old self.new (signed_decimal z) 11 }
    {
        if z >= 0 && z < 100 {
            self.put_short(z as u8);
        } else {
            self.put_number(z);
        }
    }

    // The numbers, with a blank before each.
    pub fn put_numbers<S: Shown>(&mut self, fs: &[Fraction])
        requires { 12 * length fs.now ≤ self.old.room }
        ensures { Adds self.old self.new (numbers_text S.value fs.now) (12 * length fs.now) }
    {
        for f in fs {
            self.put(" ");
            self.put_value(S::shown(*f));
        }
    }
}
