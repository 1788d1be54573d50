//! What no clause says of `Longer`: that a text which is there is found.
use crate::longer::Longer;
use nfg_text::is_text;
use std::process::Abort;
use std::test::Fail;

/// The texts of an ideograph and a mark, the ideographs in order, stand at their places in order.
fn check_places(rt: &impl Abort, longer: &mut Longer) -> Result<(), Fail> {
    for k in 0..200u32 {
        let text = [0x4E00 + k, 0x301];
        assert!(rt; is_text(&text));
        let place = longer.place_of(&text)?;
        assert_eq!(rt; place, k as usize);
    }
    Ok(())
}

#[test]
fn texts_are_found_again_past_the_first_slots(rt: HostRuntime) -> Result<(), Fail> {
    let mut longer = Longer::new(rt.alloc());
    check_places(&rt, &mut longer)?;
    check_places(&rt, &mut longer)?;
    assert_eq!(rt; longer.len(), 200);
    Ok(())
}
