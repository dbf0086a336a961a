//! Each call that takes memory once, with ample memory.

use crate::{Bytes, GrowingList};
use std::test::Fail;

#[test]
fn growing_lists_grow(rt: HostRuntime) -> Result<(), Fail> {
    let mut list = GrowingList::new(rt.alloc());
    list.push(1u16)?;
    list.push(2)?;
    list.push(3)?;
    assert_eq!(rt; list.pop(), Some(3));
    assert_eq!(rt; list.len(), 2);
    list.set(1, 7);
    list.insert(1, 5)?;
    assert_eq!(rt; list.as_slice(), [1, 5, 7].as_slice());
    let mut bytes = Bytes::new(rt.alloc());
    bytes.append(b"ab")?;
    bytes.append(b"c")?;
    assert_eq!(rt; bytes.as_slice(), b"abc".as_slice());
    Ok(())
}
