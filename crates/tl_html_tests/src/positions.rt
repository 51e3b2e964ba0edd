//! Lines and columns of places.
use std::alloc::{AllocError, Global};
use tl_lines::{LineIndex, Position, position_of};

// A text, a place in it, and its line and column.
static PLACES: [(&[u8], usize, usize, usize); 7] = [
    (b"", 0, 1, 1),
    (b"ab", 1, 1, 2),
    (b"a\nb", 1, 1, 2),
    (b"a\nb", 2, 2, 1),
    (b"a\r\n\nb", 4, 3, 1),
    (b"\xC3\xA9\xE2\x82\xACa", 5, 1, 3),
    (b"a\nb", 9, 2, 2),
];

fn is_position(position: Position, line: usize, column: usize) -> bool {
    position.line == line && position.column == column
}

fn is_at(alloc: Global, text: &[u8], place: usize, line: usize, column: usize) -> bool {
    let Ok(index) = LineIndex::new(alloc, text) else {
        return false;
    };
    is_position(position_of(text, place), line, column)
        && is_position(index.position(place), line, column)
}

fn long_text(alloc: Global) -> Result<Vec<u8>, AllocError> {
    let mut text = Vec::new(alloc);
    for _ in 0..300 {
        text.extend_from_slice(b"abcdefgh\n")?;
    }
    Ok(text)
}

fn is_found(alloc: Global, place: usize, line: usize, column: usize) -> bool {
    match long_text(alloc) {
        Ok(text) => is_at(alloc, text.as_slice(), place, line, column),
        Err(_) => false,
    }
}

#[test]
fn places_have_lines_and_columns(rt: HostRuntime) {
    for (text, place, line, column) in &PLACES {
        assert!(rt; is_at(rt.alloc(), text, *place, *line, *column));
    }
}

#[test]
fn places_of_long_texts_do(rt: HostRuntime) {
    assert!(rt; is_found(rt.alloc(), 1030, 115, 5));
    assert!(rt; is_found(rt.alloc(), 2048, 228, 6));
    assert!(rt; is_found(rt.alloc(), 2700, 301, 1));
}
