//! Names of things that are numbered from 0.

ghost use Rattle.std.specs.Prelude.{◌≡◌, ◌<◌, [], ◌∷◌};
ghost use Rattle.gen_load.specs.Names as spec;

/// The digit of a number.
pub fn digit(number: u32) -> u8
    requires { number < 10 }
    ensures { result ≡ spec.digit number }
{
    b'0' + number as u8
}

/// A letter and a digit.
pub fn name_of(letter: u8, number: u32) -> [u8; 2]
    requires { number < 10 }
    ensures { result ≡ spec.name_of letter number }
{
    [letter, digit(number)]
}
