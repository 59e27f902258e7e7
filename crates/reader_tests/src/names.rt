//! Numbers and values of names.

use name_numbers::{Named, Names, TextKey};
use std::alloc::Global;

#[test]
fn names_keep_the_number_of_their_first_sight(rt: HostRuntime) {
    let alloc = rt.alloc();
    let mut names = Names::new(alloc, TextKey::of(b"n1 n2"));
    assert!(rt; names.enter(b"n1") == Ok((0, true)));
    assert!(rt; names.enter(b"n2") == Ok((1, true)));
    assert!(rt; names.enter(b"n1") == Ok((0, false)));
    assert!(rt; names.enter(b"") == Ok((2, true)));
    assert!(rt; names.len() == 3);
}

#[test]
fn a_value_that_is_set_again_keeps_its_place(rt: HostRuntime) {
    let alloc = rt.alloc();
    let mut named: Named<u32> = Named::new(alloc, TextKey::of(b"a b c"));
    assert!(rt; named.set(b"a", 7) == Ok(()));
    assert!(rt; named.set(b"b", 8) == Ok(()));
    assert!(rt; named.set(b"a", 9) == Ok(()));
    assert!(rt; named.find(b"a") == Some((0, &9)));
    assert!(rt; named.find(b"b") == Some((1, &8)));
    assert!(rt; named.find(b"c").is_none());
    assert!(rt; named.len() == 2);
}
