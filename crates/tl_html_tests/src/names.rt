//! Names of elements, and the tables of the names of references.

use tl_names::class::Class;
use tl_names::element_name::ElementName;
use tl_names::elements::{IMPLIED_ENDS, SPECIAL_NAMES};
use tl_names::{is_among, table_of};

// A name, and whether it is one of a special element, and one whose end tag is generated.
#[rattlefmt::skip]
static NAME_ROWS: [(&[u8], bool, bool); 8] = [
    (b"", false, false),
    (b"address", true, false),
    (b"xmp", true, false),
    (b"li", true, true),
    (b"rtc", false, true),
    (b"LI", false, false),
    (b"l", false, false),
    (b"lis", false, false),
];

// A byte, and whether names of references begin with it.
#[rattlefmt::skip]
static LETTER_ROWS: [(u8, bool); 5] = [(b'A', true), (b'z', true), (b'0', false), (b'&', false), (0xC3, false)];

#[test]
fn names_are_among_those_of_their_list(rt: HostRuntime) {
    for (name, is_special, is_implied) in &NAME_ROWS {
        assert!(rt; is_among(&SPECIAL_NAMES, name) == *is_special);
        assert!(rt; is_among(&IMPLIED_ENDS, name) == *is_implied);
    }
}

#[test]
fn a_letter_has_a_table(rt: HostRuntime) {
    for (letter, has_table) in &LETTER_ROWS {
        assert!(rt; table_of(*letter).is_empty() != *has_table);
    }
}

// A name, whether a rule speaks of it, and whether it bounds the scope of a table.
#[rattlefmt::skip]
static NUMBER_ROWS: [(&[u8], bool, bool); 6] = [
    (b"table", true, true),
    (b"td", true, false),
    (b"foreignobject", true, false),
    (b"TABLE", false, false),
    (b"tables", false, false),
    (b"", false, false),
];

#[test]
fn names_have_numbers_and_classes(rt: HostRuntime) {
    for (name, has_rule, bounds_tables) in &NUMBER_ROWS {
        let own = ElementName::of(name);
        assert!(rt; own.text().is_some() == *has_rule);
        assert!(rt; own.is(Class::TableScope) == *bounds_tables);
    }
}
