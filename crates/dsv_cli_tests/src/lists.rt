// The lists that crates hand on.
use dsv_base::{Bytes, WordList};
use std::alloc::Global;

/// Whether a list keeps what it is given.
fn is_kept(alloc: Global) -> Option<bool> {
    let mut words = WordList::from_slice(alloc, &[1, -2]).ok()?;
    words.push(3).ok()?;
    Some(words.into_vec().as_slice() == [1, -2, 3].as_slice())
}

#[test]
fn lists_keep_what_they_are_given(rt: HostRuntime) {
    assert!(rt; is_kept(rt.alloc()) == Some(true));
}

/// Whether a list is extended.
fn is_extended(alloc: Global) -> Option<bool> {
    let mut bytes = Bytes::from(Vec::from_slice(alloc, b"ab").ok()?);
    bytes.extend_from_slice(b"c").ok()?;
    Some(bytes.as_slice() == b"abc".as_slice())
}

#[test]
fn lists_are_extended(rt: HostRuntime) {
    assert!(rt; is_extended(rt.alloc()) == Some(true));
}
