//! What no clause says: rows from outside, every split of hard texts against the plain way, and that each call succeeds with
//! ample memory.
use crate::{ClusterSink, Clusters, Segmenter};
use nfg_text::{CodeList, cluster_ends, is_text, nfc_of};
use std::alloc::Global;
use std::process::Abort;
use std::test::Fail;

#[test]
fn a_cluster_that_may_go_on_is_held_back(rt: HostRuntime) -> Result<(), Fail> {
    let mut segmenter = Segmenter::new(rt.alloc());
    let mut out = Clusters::new(rt.alloc());
    segmenter.feed(rt.alloc(), &[0x65], &mut out)?;
    assert_eq!(rt; out.len(), 0);
    segmenter.feed(rt.alloc(), &[0x301, 0x71], &mut out)?;
    assert_eq!(rt; out.len(), 1);
    segmenter.finish(rt.alloc(), &mut out)?;
    assert_eq!(rt; out.len(), 2);
    assert_eq!(rt; out.get(0), [0xE9].as_slice());
    assert_eq!(rt; out.get(1), [0x71].as_slice());
    assert!(rt; out.first_long().is_none());
    Ok(())
}

/// Marks that reorder or compose across pieces, or stay as they are, jamo, flags, conjuncts, emoji joiners, CR LF, prepended marks, code points
/// that compose to what breaks otherwise, and lines that begin or end with any of these.
const HARD: [&[u32]; 49] = [
    &[],
    &[0x65, 0x301, 0x71],
    &[0x71, 0x307, 0x323, 0x71],
    &[0x44, 0x323, 0x307, 0x301, 0x44],
    &[0x1E0B, 0x323, 0x61, 0x328, 0x302],
    &[0x301, 0x301, 0x61, 0x301],
    &[0x1100, 0x1161, 0x11A8, 0x1100, 0x1161],
    &[0xAC00, 0x11A8, 0x11A8, 0x1161],
    &[0x1161, 0x1100, 0x1100, 0x1161, 0xAC00, 0x11A8],
    &[0x1F1E6, 0x1F1E7, 0x1F1E8, 0x1F1E6, 0x1F1E7],
    &[0x1F1E6, 0x301, 0x1F1E7, 0x1F1E8],
    &[0x915, 0x94D, 0x937, 0x93F, 0x915, 0x93C, 0x94D, 0x924],
    &[0x958, 0x94D, 0x200D, 0x937],
    &[0x94D, 0x924, 0x1CF5, 0x915],
    &[0x1F468, 0x200D, 0x1F469, 0x200D, 0x1F467, 0x1F3FD],
    &[0x2764, 0xFE0F, 0x200D, 0x1F525, 0x200D],
    &[0x61, 0x200D, 0x1F525, 0x20E3],
    &[0xD, 0xA, 0xA, 0xD, 0x301, 0xD, 0xA],
    &[0xD, 0xD, 0xA, 0x61, 0xA, 0x301, 0x61],
    &[0x1F600, 0x200D, 0x2194, 0x338, 0x71],
    &[0x1F600, 0x200D, 0x2194, 0x301, 0x338],
    &[0x1F600, 0x200D, 0x21AE, 0x338],
    &[0xA, 0x2194, 0x338, 0xA, 0x2194],
    &[0x600, 0x61, 0x600, 0x1F600, 0x600, 0xA],
    &[0x111C2, 0x11C0, 0xE3, 0x600],
    &[0x1112B, 0x1112E, 0x11131, 0x11127],
    &[0x16D67, 0x16D67, 0x16D63, 0x16D68],
    &[0x113C2, 0x113C2, 0x113C9, 0x113B8],
    &[0xE01, 0xE33, 0xEB3, 0xE01, 0xE38, 0xE48],
    &[0x61, 0xAD, 0x62, 0x85, 0x63, 0x2028],
    &[0x4E00, 0x4E01, 0x3042, 0x3099, 0x3046, 0x3099],
    &[0x20, 0x7E, 0xC0, 0x300, 0x2FF, 0x3A3, 0x342, 0xAC00],
    &[0xA, 0x61, 0xA, 0xA, 0x62, 0x301, 0xA, 0x63],
    &[0x61, 0xD, 0xA, 0x62, 0xA, 0xD, 0xA, 0x63],
    &[0x61, 0x62, 0xD, 0xA, 0x63, 0x64, 0xD, 0xA, 0x65],
    &[0x61, 0xD, 0xD, 0xA, 0xA, 0xD, 0xA, 0x62],
    &[0x61, 0xD, 0xA, 0x301, 0x62, 0xD, 0xA, 0x200D],
    &[0x61, 0xA, 0xD, 0x62, 0xA, 0xD, 0xD, 0x63],
    &[0xE9, 0xD, 0xA, 0xAC00, 0xD, 0xA, 0x4E00, 0xD, 0xA],
    &[0x65, 0x301, 0xD, 0xA, 0xE01, 0xE38, 0xD, 0xA],
    &[0x61, 0x62, 0xA, 0x301, 0x61, 0xA, 0x200D, 0xA],
    &[0xAC00, 0xA, 0x11A8, 0xA, 0xAC00, 0x11A8, 0x4E00, 0xA],
    &[0x915, 0x61, 0xA, 0x62, 0x94D, 0x915, 0xA, 0x61],
    &[0x628, 0x64E, 0x651, 0x628, 0x651, 0x64E, 0x644, 0x627],
    &[0xE40, 0xE01, 0xE38, 0xE49, 0xE32, 0xE01, 0xE49, 0xE38],
    &[0x915, 0x94D, 0x92F, 0x93E, 0x928, 0x93C, 0x94D, 0x915],
    &[0x5D1, 0x5BC, 0x5B0, 0x5E9, 0x5B4, 0x5C1, 0x5D9, 0x5EA],
    &[0x1EBF, 0x6E, 0x65, 0x302, 0x301, 0x6E, 0x1EC7, 0x323],
    &[
        0x928, 0x93E, 0x935, 0x20, 0x939, 0x930, 0x20, 0x938, 0x941, 0x92C, 0x939, 0x20, 0x915,
        0x94D, 0x937, 0x93F, 0x924, 0x94D, 0x924, 0x930, 0x93C, 0x940,
    ],
];

#[test]
fn every_split_gives_the_graphemes_of_the_whole(rt: HostRuntime) -> Result<(), Fail> {
    for text in HARD {
        for cuts in 0..256 {
            check_split(&rt, rt.alloc(), text, cuts)?;
        }
    }
    Ok(())
}

#[test]
fn plain_lines_of_every_length_are_cut_alike(rt: HostRuntime) -> Result<(), Fail> {
    let alloc = rt.alloc();
    let mut text = CodeList::new(alloc);
    for k in 0..70 {
        text.append(&[point_of_lines(k)])?;
        check_split(&rt, alloc, text.as_slice(), 0)?;
        text.append(&[0x301])?;
        check_split(&rt, alloc, text.as_slice(), 0x55)?;
        text.truncate(text.len() - 1);
    }
    Ok(())
}

/// Letters, an ideograph among them, with a line feed after the first 22 and a CR LF after the next 21.
fn point_of_lines(k: u32) -> u32 {
    match k % 46 {
        22 | 45 => 0xA,
        44 => 0xD,
        11 | 34 => 0x4E00,
        letter => 0x61 + letter % 23,
    }
}

/// The text with a cut after its code point k where bit k of `cuts` is set.
fn check_split(rt: &impl Abort, alloc: Global, text: &[u32], cuts: u32) -> Result<(), Fail> {
    let mut segmenter = Segmenter::new(alloc);
    let mut out = Clusters::new(alloc);
    let mut piece = CodeList::new(alloc);
    let mut rest = cuts;
    for c in text {
        piece.append(&[*c])?;
        if rest % 2 == 1 {
            assert!(rt; is_text(piece.as_slice()));
            segmenter.feed(alloc, piece.as_slice(), &mut out)?;
            piece.truncate(0);
        }
        rest /= 2;
    }
    assert!(rt; is_text(piece.as_slice()));
    segmenter.feed(alloc, piece.as_slice(), &mut out)?;
    segmenter.finish(alloc, &mut out)?;
    check_clusters(rt, alloc, text, &out)
}

/// The clusters are those of the NFC of the whole text, each by its first 1,024 code points.
fn check_clusters(
    rt: &impl Abort,
    alloc: Global,
    text: &[u32],
    out: &Clusters,
) -> Result<(), Fail> {
    assert!(rt; is_text(text));
    let composed = nfc_of(alloc, text)?;
    let codes = composed.as_slice();
    assert!(rt; is_text(codes));
    let ends = cluster_ends(alloc, codes)?;
    assert_eq!(rt; out.len(), ends.len());
    let mut start = 0;
    for k in 0..ends.len() {
        let end = ends.as_slice()[k];
        assert!(rt; k < out.len());
        assert!(rt; start <= end);
        assert!(rt; end <= codes.len());
        let cluster = &codes[start..end];
        assert_eq!(rt; out.get(k), &cluster[..cluster.len().min(1024)]);
        start = end;
    }
    Ok(())
}

#[test]
fn a_long_cluster_is_given_by_its_first_1024_code_points(rt: HostRuntime) -> Result<(), Fail> {
    let alloc = rt.alloc();
    let mut segmenter = Segmenter::new(alloc);
    let mut out = Clusters::new(alloc);
    segmenter.feed(alloc, &[0x71], &mut out)?;
    for _ in 0..1023 {
        segmenter.feed(alloc, &[0x301], &mut out)?;
    }
    segmenter.feed(alloc, &[0x72], &mut out)?;
    for _ in 0..1024 {
        segmenter.feed(alloc, &[0x200D], &mut out)?;
    }
    segmenter.finish(alloc, &mut out)?;
    assert_eq!(rt; out.len(), 2);
    assert_eq!(rt; out.get(0).len(), 1024);
    assert_eq!(rt; out.get(1).len(), 1024);
    assert_eq!(rt; out.first_long(), Some(1));
    // the segmenter is as new
    segmenter.feed(alloc, &[0x73], &mut out)?;
    segmenter.finish(alloc, &mut out)?;
    assert_eq!(rt; out.len(), 3);
    assert_eq!(rt; out.first_long(), Some(1));
    Ok(())
}

#[test]
fn a_long_cluster_is_given_alike_at_every_cut(rt: HostRuntime) -> Result<(), Fail> {
    let alloc = rt.alloc();
    let mut text = CodeList::new(alloc);
    text.append(&[0x71])?;
    for _ in 0..1024 {
        text.append(&[0x301])?;
    }
    text.append(&[0x72])?;
    for cut in 0..text.len() + 1 {
        check_two_pieces(&rt, alloc, text.as_slice(), cut)?;
    }
    Ok(())
}

/// The text, whose first cluster alone is long, in two pieces.
fn check_two_pieces(rt: &impl Abort, alloc: Global, text: &[u32], cut: usize) -> Result<(), Fail> {
    assert!(rt; cut <= text.len());
    let (first, second) = text.split_at(cut);
    assert!(rt; is_text(first));
    assert!(rt; is_text(second));
    let mut segmenter = Segmenter::new(alloc);
    let mut out = Clusters::new(alloc);
    segmenter.feed(alloc, first, &mut out)?;
    segmenter.feed(alloc, second, &mut out)?;
    segmenter.finish(alloc, &mut out)?;
    assert_eq!(rt; out.first_long(), Some(0));
    check_clusters(rt, alloc, text, &out)
}

#[test]
fn clusters_go_back_to_fewer(rt: HostRuntime) -> Result<(), Fail> {
    let mut out = Clusters::new(rt.alloc());
    out.push_run(&[0x61, 0x62])?;
    out.push(&[0x71, 0x301], true)?;
    assert_eq!(rt; ClusterSink::len(&out), 3);
    assert_eq!(rt; ClusterSink::first_long(&out), Some(2));
    out.cut_back(1, None);
    assert_eq!(rt; out.len(), 1);
    assert_eq!(rt; out.get(0), [0x61].as_slice());
    assert!(rt; out.first_long().is_none());
    assert!(rt; crosses_threads(&out));
    Ok(())
}

/// A call of it is proved only where the type may be moved to other threads and shared by them.
fn crosses_threads<T: Send + Sync>(_value: &T) -> bool {
    true
}
