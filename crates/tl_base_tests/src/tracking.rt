//! Options, and the maps that they ask for.
use std::alloc::{AllocError, Global};
use std::test::Fail;
use tl_base::bytes::Bytes;
use tl_tracking::{NameKey, ParserOptions, TrackingOf};

// A number of options, and whether it asks for ids and for classes.
#[rattlefmt::skip]
static NUMBERS: [(u8, bool, bool); 4] = [
    (0, false, false),
    (1, true, false),
    (2, false, true),
    (3, true, true),
];

// Whether a number asks for this, and comes back.
fn asks(number: u8, ids: bool, classes: bool) -> bool {
    match ParserOptions::from_raw_checked(number) {
        Some(options) => {
            options.is_tracking_ids() == ids
                && options.is_tracking_classes() == classes
                && options.is_tracking() == (ids || classes)
                && options.to_raw() == number
        }
        None => false,
    }
}

#[test]
fn options(rt: HostRuntime) -> Result<(), Fail> {
    for (number, ids, classes) in &NUMBERS {
        assert!(rt; asks(*number, *ids, *classes), "{number}");
    }
    assert!(rt; ParserOptions::from_raw_checked(4).is_none());
    assert!(rt; ParserOptions::from_raw_checked(255).is_none());
    let both = ParserOptions::new().track_ids().track_classes();
    assert_eq!(rt; both.to_raw(), 3);
    assert_eq!(rt; ParserOptions::default().to_raw(), 0);
    Ok(())
}

type Tracking = TrackingOf<Bytes<'static>>;

// The notes of `<p id=x class="k k"></p><p id=x class="m"></p>a<p class="k m"></p>`, whose tags are
// 0, 1 and 3.
#[rattlefmt::skip]
static CLASSES: [(&str, u32); 5] = [("k", 0), ("k", 0), ("m", 1), ("k", 3), ("m", 3)];

fn noted(alloc: Global, options: ParserOptions) -> Result<Tracking, AllocError> {
    let mut tracking = Tracking::new(alloc, options);
    tracking.note_id(Bytes::from("x"), 0)?;
    tracking.note_id(Bytes::from("x"), 1)?;
    for (member, number) in &CLASSES {
        tracking.note_class(Bytes::from(*member), *number)?;
    }
    Ok(tracking)
}

// Whether these are the tags under a member.
fn has_class(tracking: &Tracking, member: &'static str, wanted: &[u32]) -> bool {
    match tracking.class(&Bytes::from(member)) {
        Some(numbers) => numbers == wanted,
        None => wanted.is_empty(),
    }
}

#[test]
fn maps(rt: HostRuntime) -> Result<(), Fail> {
    let tracking = noted(rt.alloc(), ParserOptions::new().track_ids().track_classes())?;
    assert_eq!(rt; tracking.id(&Bytes::from("x")), Some(0));
    assert_eq!(rt; tracking.id(&Bytes::from("y")), None);
    assert!(rt; has_class(&tracking, "k", &[0, 3]));
    assert!(rt; has_class(&tracking, "m", &[1, 3]));
    assert!(rt; has_class(&tracking, "", &[]));
    Ok(())
}

#[test]
fn no_maps(rt: HostRuntime) -> Result<(), Fail> {
    let tracking = noted(rt.alloc(), ParserOptions::new())?;
    assert!(rt; !tracking.is_tracking_ids() && !tracking.is_tracking_classes());
    assert_eq!(rt; tracking.id(&Bytes::from("x")), None);
    assert!(rt; has_class(&tracking, "k", &[]));
    Ok(())
}

// More ids and members than one map takes by their hashes.
static NAMES: [&str; 80] = [
    "a0", "a1", "a2", "a3", "a4", "a5", "a6", "a7", "b0", "b1", "b2", "b3", "b4", "b5", "b6", "b7",
    "c0", "c1", "c2", "c3", "c4", "c5", "c6", "c7", "d0", "d1", "d2", "d3", "d4", "d5", "d6", "d7",
    "e0", "e1", "e2", "e3", "e4", "e5", "e6", "e7", "f0", "f1", "f2", "f3", "f4", "f5", "f6", "f7",
    "g0", "g1", "g2", "g3", "g4", "g5", "g6", "g7", "h0", "h1", "h2", "h3", "h4", "h5", "h6", "h7",
    "i0", "i1", "i2", "i3", "i4", "i5", "i6", "i7", "j0", "j1", "j2", "j3", "j4", "j5", "j6", "j7",
];

// Notes a tag for each name, from a number on.
fn note_names(tracking: &mut Tracking, from: u32) -> Result<(), AllocError> {
    let mut number = from;
    for name in &NAMES {
        tracking.note_id(Bytes::from(*name), number)?;
        tracking.note_class(Bytes::from(*name), number)?;
        number = number.wrapping_add(1);
    }
    Ok(())
}

// Whether each name is the id of its first tag, and the member of its three tags.
fn has_names(tracking: &Tracking) -> bool {
    let mut number = 0u32;
    for name in &NAMES {
        let later = [number, number.wrapping_add(100), number.wrapping_add(200)];
        if tracking.id(&Bytes::from(*name)) != Some(number) || !has_class(tracking, *name, &later) {
            return false;
        }
        number = number.wrapping_add(1);
    }
    true
}

fn noted_names(mut tracking: Tracking) -> Result<bool, AllocError> {
    note_names(&mut tracking, 0)?;
    note_names(&mut tracking, 100)?;
    note_names(&mut tracking, 200)?;
    Ok(
        has_names(&tracking)
            && tracking.id(&Bytes::from("k0")).is_none()
            && has_class(&tracking, "k0", &[]),
    )
}

#[test]
fn many_names(rt: HostRuntime) -> Result<(), Fail> {
    let both = ParserOptions::new().track_ids().track_classes();
    assert!(rt; noted_names(Tracking::new(rt.alloc(), both))?);
    assert!(rt; noted_names(Tracking::with_key(rt.alloc(), both, 7))?);
    Ok(())
}

// The number of some ids.
fn number_of(ids: &[&'static str]) -> u64 {
    let mut key = NameKey::new();
    for id in ids {
        key.add(id.as_bytes());
    }
    key.number()
}

// What other programs say of the front of the MD5 digest, lowest byte first.
#[test]
fn number_of_names(rt: HostRuntime) -> Result<(), Fail> {
    assert_eq!(rt; number_of(&[]), 0x04b2_008f_d98c_1dd4);
    assert_eq!(rt; number_of(&["a", "bc"]), 0xcee8_b69b_9549_82fe);
    assert_eq!(rt; number_of(&["ab", "c"]), 0xc7fd_1e0c_347c_052a);
    Ok(())
}
