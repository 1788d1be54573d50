//! A segmenter, and the clusters that it gives out.
use crate::outcome::{Outcome, print, refused};
use nfg_segment::{ClusterSink, Clusters, Segmenter};
use nfg_text::is_text;
use std::alloc::{AllocError, Global};
use std::io;

/// A text that is fed in two pieces: a letter with a mark, the end of a line and a flag. The pieces meet inside the end
/// of the line.
const FIRST: [u32; 3] = [0x71, 0x323, 0xD];

const SECOND: [u32; 3] = [0xA, 0x1F1E9, 0x1F1F0];

/// Whether these are the clusters of both pieces.
fn are_of_both(clusters: &Clusters) -> bool {
    if clusters.len() != 3 || clusters.first_long().is_some() {
        return false;
    }
    clusters.get(0) == [0x71, 0x323].as_slice()
        && clusters.get(1) == [0xD, 0xA].as_slice()
        && clusters.get(2) == [0x1F1E9, 0x1F1F0].as_slice()
}

fn feed(
    alloc: Global,
    segmenter: &mut Segmenter,
    piece: &[u32],
    clusters: &mut Clusters,
) -> Result<(), AllocError> {
    if !is_text(piece) {
        return Err(AllocError);
    }
    segmenter.feed(alloc, piece, clusters)
}

/// Where the second piece is refused, no cluster was given out for it, and it may be fed again.
fn feed_both(alloc: Global) -> Result<Outcome, AllocError> {
    let mut segmenter = Segmenter::new(alloc);
    let mut clusters = Clusters::new(alloc);
    feed(alloc, &mut segmenter, &FIRST, &mut clusters)?;
    let len = clusters.len();
    match feed(alloc, &mut segmenter, &SECOND, &mut clusters) {
        Ok(()) => Ok(Outcome::Done),
        Err(_) => {
            let same = clusters.len() == len && clusters.first_long().is_none();
            let fed = feed(alloc, &mut segmenter, &SECOND, &mut clusters).is_ok();
            let ended = segmenter.finish(alloc, &mut clusters).is_ok();
            Ok(refused(same && fed && ended && are_of_both(&clusters)))
        }
    }
}

/// Where the end is refused, it may be asked for again.
fn finish(alloc: Global) -> Result<Outcome, AllocError> {
    let mut segmenter = Segmenter::new(alloc);
    let mut clusters = Clusters::new(alloc);
    feed(alloc, &mut segmenter, &FIRST, &mut clusters)?;
    feed(alloc, &mut segmenter, &SECOND, &mut clusters)?;
    let len = clusters.len();
    match segmenter.finish(alloc, &mut clusters) {
        Ok(()) => Ok(Outcome::Done),
        Err(_) => {
            let same = clusters.len() == len && clusters.first_long().is_none();
            let ended = segmenter.finish(alloc, &mut clusters).is_ok();
            Ok(refused(same && ended && are_of_both(&clusters)))
        }
    }
}

/// Where a run is refused, the clusters that were there before stand.
fn push_run(alloc: Global) -> Result<Outcome, AllocError> {
    let mut clusters = Clusters::new(alloc);
    let run = [0x62; 100];
    if !is_text(&FIRST) || !is_text(&run) {
        return Ok(Outcome::Changed);
    }
    clusters.push(&FIRST, false)?;
    match clusters.push_run(&run) {
        Ok(()) => Ok(Outcome::Done),
        Err(_) => Ok(refused(clusters.len() >= 1 && clusters.get(0) == FIRST.as_slice())),
    }
}

/// The same of a long cluster of which the first 1,024 code points are given.
fn push(alloc: Global) -> Result<Outcome, AllocError> {
    let mut clusters = Clusters::new(alloc);
    let head = [0x301; 1024];
    if !is_text(&FIRST) || !is_text(&head) {
        return Ok(Outcome::Changed);
    }
    clusters.push(&FIRST, false)?;
    match clusters.push(&head, true) {
        Ok(()) => Ok(Outcome::Done),
        Err(_) => Ok(refused(clusters.len() >= 1 && clusters.get(0) == FIRST.as_slice())),
    }
}

pub(crate) fn report(rt: &impl Print, alloc: Global) -> io::Result<()> {
    print(rt, "Segmenter::feed", feed_both(alloc))?;
    print(rt, "Segmenter::finish", finish(alloc))?;
    print(rt, "ClusterSink::push_run of Clusters", push_run(alloc))?;
    print(rt, "ClusterSink::push of Clusters", push(alloc))
}
