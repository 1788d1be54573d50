//! Files that are loaded in parts: worked rows, and that two parts are loaded at once.
ghost use Rattle.nfg_words.specs.Table.{IsWordPass};

use crate::part_loads::{CutFile, check_cuts};
use crate::worker_tests::MeetingGate;
use nfg_decode::Encoding;
use nfg_syn::Synthetics;
use nfg_text::{ByteList, is_text};
use nfg_words::{WordPass, WordTable};
use nfg_work::{Gate, OpenGate, load_parts};
use std::alloc::Global;
use std::marker::Sync;
use std::process::Abort;
use std::test::Fail;
use std::thread::Threads;

/// A file, and the clusters of its string, or what is said of it where it has none.
#[derive(Clone, Copy)]
struct Row {
    file: CutFile<'static>,
    clusters: &'static [&'static [u32]],
    refused: &'static str,
}

static ROWS: [Row; 7] = [
    Row {
        file: CutFile {
            encoding: Encoding::Utf8,
            bytes: b"\xF0\x9F\x87\xA6\xF0\x9F\x87\xA7\xF0\x9F\x87\xA8",
            cuts: &[2, 6],
        },
        clusters: &[&[0x1F1E6, 0x1F1E7], &[0x1F1E8]],
        refused: "",
    },
    Row {
        file: CutFile {
            encoding: Encoding::Utf8,
            bytes: b"\x65\xCC\x81",
            cuts: &[1],
        },
        clusters: &[&[0xE9]],
        refused: "",
    },
    Row {
        file: CutFile {
            encoding: Encoding::Utf8,
            bytes: b"\x61\xE2\x82",
            cuts: &[2],
        },
        clusters: &[],
        refused: "malformed at byte 1",
    },
    Row {
        file: CutFile {
            encoding: Encoding::Utf16,
            bytes: b"\xFF\xFE\x41\x00",
            cuts: &[1],
        },
        clusters: &[&[0x41]],
        refused: "",
    },
    Row {
        file: CutFile {
            encoding: Encoding::Utf16,
            bytes: b"\x00\x41\x03\x01\xD8\x3C\xDD\xE6\xD8\x3C\xDD\xE7",
            cuts: &[2, 3, 7, 12],
        },
        clusters: &[&[0xC1], &[0x1F1E6, 0x1F1E7]],
        refused: "",
    },
    Row {
        file: CutFile {
            encoding: Encoding::Latin1,
            bytes: b"",
            cuts: &[0, 0],
        },
        clusters: &[],
        refused: "",
    },
    Row {
        file: CutFile {
            encoding: Encoding::Latin1,
            bytes: b"\xE9\r\n\xFF",
            cuts: &[0, 2, 2, 4],
        },
        clusters: &[&[0xE9], &[0xD, 0xA], &[0xFF]],
        refused: "",
    },
];

/// The number of a cluster.
fn number_of(
    rt: &impl Abort,
    alloc: Global,
    table: &WordTable,
    pass: &mut WordPass,
    cluster: &[u32],
) -> Result<i32, Fail>
    requires { IsWordPass table.now pass.old }
    ensures { IsWordPass table.now pass.new }
{
    assert!(rt; is_text(cluster));
    assert!(rt; cluster.len() > 0);
    assert!(rt; cluster.len() <= 1024);
    if cluster.len() == 1 {
        return Ok(cluster[0] as i32);
    }
    match table.intern(alloc, pass, cluster) {
        Ok(number) => Ok(number),
        Err(_) => Err("not interned")?,
    }
}

/// The graphemes are these clusters.
fn check_clusters(
    rt: &impl Abort,
    alloc: Global,
    table: &WordTable,
    pass: &mut WordPass,
    graphemes: &[i32],
    clusters: &[&[u32]],
) -> Result<(), Fail>
    requires { IsWordPass table.now pass.old }
{
    assert_eq!(rt; graphemes.len(), clusters.len());
    'clusters: for k in 0..clusters.len() {
        let number = number_of(rt, alloc, table, pass, clusters[k])?;
        assert!(rt; k < graphemes.len());
        assert_eq!(rt; graphemes[k], number);
    }
    Ok(())
}

/// The file in parts, which are loaded at this gate, has a string of these clusters in one piece, or is refused so.
fn check_row<R: Threads + Sync + Abort, G: Gate>(
    rt: &R,
    alloc: Global,
    file: CutFile<'_>,
    clusters: &[&[u32]],
    refused: &str,
    gate: &G,
) -> Result<(), Fail> {
    check_cuts(rt, file);
    let (table, mut pass) = WordTable::new(alloc, 16)?;
    match load_parts(
        rt,
        alloc,
        &table,
        &mut pass,
        file.encoding,
        file.bytes,
        file.cuts,
        gate,
    ) {
        Ok(string) => {
            assert!(rt; refused.is_empty());
            assert_eq!(rt; string.strands(), clusters.len().min(1));
            let mut graphemes = Vec::new(alloc);
            for grapheme in string.iter() {
                graphemes.push(grapheme)?;
            }
            check_clusters(rt, alloc, &table, &mut pass, graphemes.as_slice(), clusters)
        }
        Err(error) => {
            let said = format!(in alloc; "{error}")?;
            assert_eq!(rt; said.as_str(), refused);
            Ok(())
        }
    }
}

#[test]
fn files_in_parts_have_their_graphemes(rt: HostRuntime) -> Result<(), Fail> {
    for row in ROWS {
        check_row(
            &rt,
            rt.alloc(),
            row.file,
            row.clusters,
            row.refused,
            &OpenGate,
        )?;
    }
    Ok(())
}

#[test]
fn a_cluster_that_parts_make_too_long_is_refused(rt: HostRuntime) -> Result<(), Fail> {
    let mut bytes = ByteList::from_slice(rt.alloc(), b"q")?;
    for _mark in 0..1024 {
        bytes.append(b"\xCC\x81")?;
    }
    let file = CutFile {
        encoding: Encoding::Utf8,
        bytes: bytes.as_slice(),
        cuts: &[1025],
    };
    let long = "cluster too long at grapheme 0";
    check_row(&rt, rt.alloc(), file, &[], long, &OpenGate)
}

#[test]
fn two_parts_are_loaded_at_once(rt: HostRuntime) -> Result<(), Fail> {
    let gate = MeetingGate::new();
    let file = CutFile {
        encoding: Encoding::Utf8,
        bytes: b"a\r\nb",
        cuts: &[2],
    };
    let clusters: [&[u32]; 3] = [&[0x61], &[0xD, 0xA], &[0x62]];
    check_row(&rt, rt.alloc(), file, &clusters, "", &gate)?;
    assert!(rt; gate.passes());
    Ok(())
}
