//! What a byte does in a reference, of which nothing is resolved here.
ghost use Rattle.std.specs.Prelude.{◌≡◌};
ghost use Rattle.tl_html_tokens.specs.Inner.Machine as machine;

use crate::stage::{Place, Stage, TokenKind, Turn};
use crate::tag::value;

// Where the reference stood, before a byte that isn't of it.
fn leave(place: Place, byte: u8) -> Turn
    ensures { result ≡ machine.leave place byte }
{
    match place {
        Place::Text(mode) => Turn::Ends(TokenKind::Text, mode),
        Place::Value(quote, tag) => value(quote, tag, byte),
    }
}

// And after its last byte.
fn resume(place: Place) -> Stage
    ensures { result ≡ machine.resume place }
{
    match place {
        Place::Text(mode) => Stage::Whole(TokenKind::Text, mode),
        Place::Value(quote, tag) => Stage::Value(quote, tag),
    }
}

// 13.2.5.72
pub(crate) fn reference(place: Place, byte: u8) -> Turn
    ensures { result ≡ machine.reference place byte }
{
    if byte.is_ascii_alphanumeric() {
        Turn::Goes(Stage::NamedReference(place))
    } else if byte == b'#' {
        Turn::Goes(Stage::NumericReference(place))
    } else {
        leave(place, byte)
    }
}

// 13.2.5.73, .74
pub(crate) fn named_reference(place: Place, byte: u8) -> Turn
    ensures { result ≡ machine.named_reference place byte }
{
    if byte.is_ascii_alphanumeric() {
        Turn::Goes(Stage::NamedReference(place))
    } else if byte == b';' {
        Turn::Goes(resume(place))
    } else {
        leave(place, byte)
    }
}

// 13.2.5.75
pub(crate) fn numeric_reference(place: Place, byte: u8) -> Turn
    ensures { result ≡ machine.numeric_reference place byte }
{
    if byte.to_ascii_lowercase() == b'x' {
        Turn::Goes(Stage::HexadecimalStart(place))
    } else {
        decimal_start(place, byte)
    }
}

// 13.2.5.76
pub(crate) fn hexadecimal_start(place: Place, byte: u8) -> Turn
    ensures { result ≡ machine.hexadecimal_start place byte }
{
    if byte.is_ascii_hexdigit() {
        Turn::Goes(Stage::Hexadecimal(place))
    } else {
        leave(place, byte)
    }
}

// 13.2.5.77
pub(crate) fn decimal_start(place: Place, byte: u8) -> Turn
    ensures { result ≡ machine.decimal_start place byte }
{
    if byte.is_ascii_digit() {
        Turn::Goes(Stage::Decimal(place))
    } else {
        leave(place, byte)
    }
}

// 13.2.5.80
fn number_end(place: Place, byte: u8) -> Turn
    ensures { result ≡ machine.number_end place byte }
{
    if byte == b';' {
        Turn::Goes(resume(place))
    } else {
        leave(place, byte)
    }
}

// 13.2.5.78
pub(crate) fn hexadecimal(place: Place, byte: u8) -> Turn
    ensures { result ≡ machine.hexadecimal place byte }
{
    if byte.is_ascii_hexdigit() {
        Turn::Goes(Stage::Hexadecimal(place))
    } else {
        number_end(place, byte)
    }
}

// 13.2.5.79
pub(crate) fn decimal(place: Place, byte: u8) -> Turn
    ensures { result ≡ machine.decimal place byte }
{
    if byte.is_ascii_digit() {
        Turn::Goes(Stage::Decimal(place))
    } else {
        number_end(place, byte)
    }
}
