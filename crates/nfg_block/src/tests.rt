//! Each call with ample memory, at both widths, and that a block may be shared.
use crate::Block;
use std::test::Fail;

fn is_sent<T: Send>(_: &T) {}

fn is_shared<T: Sync>(_: &T) {}

#[test]
fn a_block_is_sent_and_shared(rt: HostRuntime) {
    let made = Block::from_graphemes(rt.alloc(), &[97]);
    assert!(rt; made.is_ok());
    if let Ok(block) = &made {
        is_sent(block);
        is_shared(block);
    }
}

#[test]
fn a_block_keeps_its_graphemes(rt: HostRuntime) {
    for (graphemes, narrow) in [
        ([97, -1, 127], true),
        ([97, -2, 0], false),
        ([128, 0, 0], false),
    ] {
        let made = Block::from_graphemes(rt.alloc(), &graphemes);
        assert!(rt; made.is_ok());
        if let Ok(block) = &made {
            assert_eq!(rt; block.is_narrow(), narrow);
            assert_eq!(rt; block.len(), 3);
            if block.len() == 3 {
                let mut copied = [0; 2];
                block.copy_into(1, &mut copied);
                assert_eq!(rt; block.get(0), graphemes[0]);
                assert_eq!(rt; copied, [graphemes[1], graphemes[2]]);
            }
        }
    }
}

#[test]
fn a_block_takes_a_vector_over(rt: HostRuntime) -> Result<(), Fail> {
    for (graphemes, narrow) in [([97, -1], true), ([97, -2], false)] {
        let mut list = Vec::with_capacity(rt.alloc(), 64)?;
        list.extend_from_slice(&graphemes)?;
        let block = Block::from_vec(rt.alloc(), list)?;
        assert_eq!(rt; block.is_narrow(), narrow);
        assert!(rt; block.len() == 2);
        let mut copied = [0; 2];
        block.copy_into(0, &mut copied);
        assert_eq!(rt; copied, graphemes);
    }
    Ok(())
}

#[test]
fn a_block_takes_a_narrow_vector_over(rt: HostRuntime) -> Result<(), Fail> {
    let mut list: Vec<i8> = Vec::with_capacity(rt.alloc(), 64)?;
    list.extend_from_slice(&[97, -1])?;
    assert!(rt; list.as_slice() == [97, -1].as_slice());
    let block = Block::from_narrow(list);
    assert!(rt; block.is_narrow());
    assert!(rt; block.len() == 2);
    let mut copied = [0; 2];
    block.copy_into(0, &mut copied);
    assert_eq!(rt; copied, [97, -1]);
    Ok(())
}

#[test]
fn ranges_of_both_widths_compare_and_are_searched(rt: HostRuntime) {
    let narrow = Block::from_graphemes(rt.alloc(), &[7, 7]);
    let wide = Block::from_graphemes(rt.alloc(), &[263, 7, 7]);
    assert!(rt; narrow.is_ok() && wide.is_ok());
    if let (Ok(a), Ok(b)) = (&narrow, &wide) {
        assert_eq!(rt; (a.len(), b.len()), (2, 3));
        if a.len() == 2 && b.len() == 3 {
            assert_eq!(rt; a.find(1, 1, 7), None);
            assert_eq!(rt; a.find(1, 2, 7), Some(1));
            assert_eq!(rt; a.find(0, 2, 263), None);
            assert_eq!(rt; b.find(0, 3, 7), Some(1));
            assert_eq!(rt; a.common_front(0, b, 0, 2), 0);
            assert_eq!(rt; a.common_front(0, b, 1, 2), 2);
            assert_eq!(rt; b.common_front(1, a, 0, 2), 2);
            assert!(rt; b.slice_equal(1, a, 0, 2) && a.slice_equal(0, a, 1, 1));
            assert!(rt; !b.slice_equal(0, a, 0, 2) && !b.slice_equal(0, b, 1, 1));
        }
    }
}

#[test]
fn a_run_is_read_by_slices(rt: HostRuntime) {
    for graphemes in [[97, -1, 127], [97, -2, 0]] {
        let made = Block::from_graphemes(rt.alloc(), &graphemes);
        assert!(rt; made.is_ok());
        if let Ok(block) = &made {
            assert!(rt; block.len() == 3);
            let mut run = block.run(0, 3);
            let mut part = [0; 2];
            assert_eq!(rt; run.read(&mut part), 2);
            assert_eq!(rt; part, [graphemes[0], graphemes[1]]);
            assert_eq!(rt; run.read(&mut part), 1);
            assert_eq!(rt; part, [graphemes[2], graphemes[1]]);
            assert_eq!(rt; run.read(&mut part), 0);
        }
    }
}
