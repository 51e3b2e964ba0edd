//! Names of the HTML standard, as its sections list them.
#![tactic(auto)]

ghost use Rattle.std.specs.Prelude.{◌≡◌};
ghost use Rattle.tl_names.specs.Elements.{is_among, words_of};
ghost use Rattle.tl_names.specs.References.{table_of};

pub mod class;
pub mod element_name;
mod element_tables;
pub mod elements;
pub mod laws;
mod references;

/// Whether a name is one of these, in exact case.
pub fn is_among(names: &[&str], name: &[u8]) -> bool
    ensures { result ≡ is_among (words_of names.now) name.now }
{
    for own in names {
        if name == own.as_bytes() {
            return true;
        }
    }
    false
}

/// The rows of the named character references that begin with a letter, each a name, `=`, its
/// characters and a byte 0. The first row that fits a text has the longest name.
pub fn table_of(letter: u8) -> &'static [u8]
    ensures { result.now ≡ table_of letter }
{
    match letter {
        b'A' => &references::UPPER_A,
        b'B' => &references::UPPER_B,
        b'C' => &references::UPPER_C,
        b'D' => &references::UPPER_D,
        b'E' => &references::UPPER_E,
        b'F' => &references::UPPER_F,
        b'G' => &references::UPPER_G,
        b'H' => &references::UPPER_H,
        b'I' => &references::UPPER_I,
        b'J' => &references::UPPER_J,
        b'K' => &references::UPPER_K,
        b'L' => &references::UPPER_L,
        b'M' => &references::UPPER_M,
        b'N' => &references::UPPER_N,
        b'O' => &references::UPPER_O,
        b'P' => &references::UPPER_P,
        b'Q' => &references::UPPER_Q,
        b'R' => &references::UPPER_R,
        b'S' => &references::UPPER_S,
        b'T' => &references::UPPER_T,
        b'U' => &references::UPPER_U,
        b'V' => &references::UPPER_V,
        b'W' => &references::UPPER_W,
        b'X' => &references::UPPER_X,
        b'Y' => &references::UPPER_Y,
        b'Z' => &references::UPPER_Z,
        b'a' => &references::LOWER_A,
        b'b' => &references::LOWER_B,
        b'c' => &references::LOWER_C,
        b'd' => &references::LOWER_D,
        b'e' => &references::LOWER_E,
        b'f' => &references::LOWER_F,
        b'g' => &references::LOWER_G,
        b'h' => &references::LOWER_H,
        b'i' => &references::LOWER_I,
        b'j' => &references::LOWER_J,
        b'k' => &references::LOWER_K,
        b'l' => &references::LOWER_L,
        b'm' => &references::LOWER_M,
        b'n' => &references::LOWER_N,
        b'o' => &references::LOWER_O,
        b'p' => &references::LOWER_P,
        b'q' => &references::LOWER_Q,
        b'r' => &references::LOWER_R,
        b's' => &references::LOWER_S,
        b't' => &references::LOWER_T,
        b'u' => &references::LOWER_U,
        b'v' => &references::LOWER_V,
        b'w' => &references::LOWER_W,
        b'x' => &references::LOWER_X,
        b'y' => &references::LOWER_Y,
        b'z' => &references::LOWER_Z,
        _ => &[],
    }
}
