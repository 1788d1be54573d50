//! Each kernel beside its plain definition, at the lengths 0 to 130, with the telling element at every place.
use crate::*;

const LONGEST: usize = 130;

fn plain_front(a: &[i32], b: &[i32]) -> usize {
    a.iter().zip(b.iter()).take_while(|(x, y)| x == y).count()
}

fn plain_back(a: &[i32], b: &[i32]) -> usize {
    let both = a.iter().rev().zip(b.iter().rev());
    both.take_while(|(x, y)| x == y).count()
}

#[test]
fn ascii_run_stops_at_each_place(rt: HostRuntime) {
    let mut bytes = [0x61; LONGEST];
    for len in 0..=LONGEST {
        assert_eq!(rt; ascii_run(&bytes[..len]), len);
        for place in 0..len {
            bytes[place] = if place % 2 == 0 { 0xC3 } else { 0x80 };
            let run = &bytes[..len];
            let plain = run.iter().take_while(|b| b.is_ascii()).count();
            assert_eq!(rt; plain, place);
            assert_eq!(rt; ascii_run(run), plain, "{len} bytes");
            bytes[place] = 0x7F;
        }
    }
    let mut row = [0x61; 71];
    row[70] = 0xC3;
    assert_eq!(rt; ascii_run(&row), 70);
}

#[test]
fn first_equal8_finds_each_place(rt: HostRuntime) {
    let mut a = [6; LONGEST];
    for len in 0..=LONGEST {
        assert_eq!(rt; first_equal8(&a[..len], -1), len);
        for place in 0..len {
            a[place] = -1;
            let list = &a[..len];
            let plain = list.iter().position(|x| *x == -1);
            assert_eq!(rt; plain, Some(place));
            assert_eq!(rt; first_equal8(list, -1), place, "{len} elements");
            a[place] = 127;
        }
    }
}

// What it passes over has the low 8 bits of what it looks for.
#[test]
fn first_equal32_finds_each_place(rt: HostRuntime) {
    let mut a = [0x105; LONGEST];
    for len in 0..=LONGEST {
        assert_eq!(rt; first_equal32(&a[..len], 5), len);
        for place in 0..len {
            a[place] = 5;
            let list = &a[..len];
            let plain = list.iter().position(|x| *x == 5);
            assert_eq!(rt; plain, Some(place));
            assert_eq!(rt; first_equal32(list, 5), place, "{len} elements");
            a[place] = -251;
        }
    }
    let none: [i32; 0] = [];
    assert_eq!(rt; first_equal32(&none, 5), 0);
    let mut fives = [5; 41];
    fives[40] = 6;
    assert_eq!(rt; first_equal32(&fives, 6), 40);
}

#[test]
fn common_front8_ends_at_each_place(rt: HostRuntime) {
    let mut a = [97i8; LONGEST];
    let b = [97i8; LONGEST];
    for len in 0..=LONGEST {
        assert_eq!(rt; common_front8(&a[..len], &b), len);
        for place in 0..len {
            a[place] = 96;
            let left = &a[..len];
            let plain = left.iter().take_while(|x| **x == 97).count();
            assert_eq!(rt; plain, place);
            assert_eq!(rt; common_front8(left, &b), place, "{len} elements");
            assert_eq!(rt; common_front8(&b, left), place, "{len} elements");
            a[place] = 97;
        }
    }
}

// Elements that differ have their low 8 bits in common.
#[test]
fn common_front32_ends_at_each_place(rt: HostRuntime) {
    let mut a = [0x61; LONGEST];
    let b = [0x61; LONGEST];
    for len in 0..=LONGEST {
        assert_eq!(rt; common_front32(&a[..len], &b), len);
        for place in 0..len {
            a[place] = if place % 2 == 0 { 0x161 } else { 0x61 - 0x100 };
            let left = &a[..len];
            assert_eq!(rt; plain_front(left, &b), place);
            assert_eq!(rt; common_front32(left, &b), place, "{len} elements");
            assert_eq!(rt; common_front32(&b, left), place, "{len} elements");
            a[place] = 0x61;
        }
    }
}

#[test]
fn common_front_mixed_ends_at_each_place(rt: HostRuntime) {
    let mut narrow = [-1i8; LONGEST];
    let mut wide = [-1; LONGEST];
    for len in 0..=LONGEST {
        assert_eq!(rt; common_front_mixed(&narrow[..len], &wide), len);
        assert_eq!(rt; common_front_mixed(&narrow, &wide[..len]), len);
        for place in 0..len {
            wide[place] = if place % 2 == 0 { 0xFF } else { 0x1FF };
            assert_eq!(rt;
                common_front_mixed(&narrow[..len], &wide),
                place,
                "{len} elements"
            );
            wide[place] = -1;
            narrow[place] = 1;
            assert_eq!(rt;
                common_front_mixed(&narrow, &wide[..len]),
                place,
                "{len} elements"
            );
            narrow[place] = -1;
        }
    }
}

#[test]
fn common_back32_ends_at_each_place(rt: HostRuntime) {
    let mut a = [0x61; LONGEST];
    let b = [0x61; LONGEST];
    for len in 0..=LONGEST {
        assert_eq!(rt; common_back32(&a[..len], &b), len);
        for place in 0..len {
            a[place] = 0x161;
            let left = &a[..len];
            assert_eq!(rt; plain_back(left, &b), len - 1 - place);
            assert_eq!(rt; common_back32(left, &b), len - 1 - place, "{len} elements");
            assert_eq!(rt; common_back32(&b, left), len - 1 - place, "{len} elements");
            a[place] = 0x61;
        }
    }
    assert_eq!(rt; common_back32(&[1, 2, 3], &[2, 3]), 2);
}

#[test]
fn narrow_fits_refuses_each_place(rt: HostRuntime) {
    let mut a = [127; LONGEST];
    for len in 0..=LONGEST {
        assert!(rt; narrow_fits(&a[..len]));
        for place in 0..len {
            for wide in [-2, 128, 255, 256, -256, i32::MIN, i32::MAX] {
                a[place] = wide;
                assert!(rt; !narrow_fits(&a[..len]), "{wide} at {place} of {len}");
            }
            a[place] = if place % 2 == 0 { -1 } else { 0 };
        }
    }
    assert!(rt; narrow_fits(&[0, 127, -1]));
    assert!(rt; !narrow_fits(&[128]));
    assert!(rt; !narrow_fits(&[-2]));
}

#[test]
fn widen_copies_each_place(rt: HostRuntime) {
    let mut a = [127i8; LONGEST];
    for len in 0..=LONGEST {
        for place in 0..len {
            a[place] = -1;
            let mut into = [9; LONGEST];
            widen(&a[..len], &mut into[..len]);
            for k in 0..LONGEST {
                let plain = if k < len { a[k] as i32 } else { 9 };
                assert_eq!(rt; into[k], plain, "at {k} of {len}");
            }
            a[place] = 0;
        }
    }
}

#[test]
fn narrow_copies_each_place(rt: HostRuntime) {
    let mut a = [127; LONGEST];
    for len in 0..=LONGEST {
        for place in 0..len {
            a[place] = -1;
            let mut into = [9i8; LONGEST];
            assert!(rt; narrow_fits(&a[..len]));
            narrow(&a[..len], &mut into[..len]);
            for k in 0..LONGEST {
                let plain = if k < len { a[k] } else { 9 };
                assert_eq!(rt; into[k] as i32, plain, "at {k} of {len}");
            }
            a[place] = 0;
        }
    }
}
