//! That calls succeed where there is memory, and what the system does.
use crate::{Failed, Files, MemoryFiles, MemorySink, RealFiles, RealSink, Sink};
use std::test::Fail;
use std::{env, fs, process};

// Puts the bytes of a path at the front of `bytes`, and answers how many they are and how many reads gave them.
fn read_all<F: Files>(files: &mut F, path: &str, bytes: &mut [u8]) -> Result<(usize, u32), Failed> {
    let mut filled = 0usize;
    files.open(path)?;
    for reads in 0..100u32 {
        if filled >= bytes.len() {
            return Err(Failed);
        }
        let count = files.read(&mut bytes[filled..])?;
        if count == 0 {
            return Ok((filled, reads));
        }
        filled += count;
    }
    Err(Failed)
}

// Writes a text, and answers how many writes took it.
fn write_all<S: Sink>(sink: &mut S, text: &[u8]) -> Result<u32, Failed> {
    let mut written = 0usize;
    for writes in 0..100u32 {
        if written >= text.len() {
            return Ok(writes);
        }
        written += sink.write(&text[written..])?;
    }
    Err(Failed)
}

#[test]
fn files_in_memory_give_what_was_added(rt: HostRuntime) -> Result<(), Fail> {
    for (step, reads) in [(1, 6), (2, 3), (3, 2), (4, 2), (9, 1)] {
        let mut files = MemoryFiles::new(rt.alloc(), step);
        files.add("f", b"xyz")?;
        files.add("g", b"")?;
        files.add("f", b"abcdef")?;
        let mut bytes = [0u8; 16];
        assert_eq!(rt;
            read_all(&mut files, "f", &mut bytes),
            Ok((6, reads)),
            "step {step}"
        );
        assert_eq!(rt; &bytes[..6], b"abcdef".as_slice(), "step {step}");
        assert_eq!(rt; read_all(&mut files, "g", &mut bytes), Ok((0, 0)));
        assert_eq!(rt; read_all(&mut files, "h", &mut bytes), Err(Failed));
    }
    Ok(())
}

#[test]
fn a_chosen_call_on_files_fails(rt: HostRuntime) -> Result<(), Fail> {
    // one `open`, a `read` for each of the six bytes and one at the end
    for call in 0..9u64 {
        let mut files = MemoryFiles::new(rt.alloc(), 1);
        files.add("f", b"abcdef")?;
        files.fail_at(call)?;
        let answer = read_all(&mut files, "f", &mut [0; 16]);
        assert_eq!(rt; answer.is_ok(), call == 8, "call {call}");
        assert_eq!(rt; files.open("f").is_ok(), call != 8, "call {call}");
    }
    Ok(())
}

#[test]
fn output_in_memory_keeps_what_has_room(rt: HostRuntime) -> Result<(), Fail> {
    for (step, room, writes, taken) in [
        (4, 9, Ok(2), "abcdef"),
        (9, 6, Ok(1), "abcdef"),
        (1, 5, Err(Failed), "abcde"),
        (2, 0, Err(Failed), ""),
    ] {
        let mut sink = MemorySink::new(rt.alloc(), step, room)?;
        assert_eq!(rt;
            write_all(&mut sink, b"abcdef"),
            writes,
            "step {step}, room {room}"
        );
        assert_eq!(rt; sink.taken(), taken.as_bytes(), "step {step}, room {room}");
    }
    Ok(())
}

#[test]
fn a_chosen_write_fails(rt: HostRuntime) -> Result<(), Fail> {
    let mut sink = MemorySink::new(rt.alloc(), 2, 9)?;
    sink.fail_at(1)?;
    assert_eq!(rt; write_all(&mut sink, b"abcdef"), Err(Failed));
    assert_eq!(rt; sink.taken(), b"ab".as_slice());
    assert_eq!(rt; write_all(&mut sink, b"xyz"), Ok(2));
    assert_eq!(rt; sink.taken(), b"abxyz".as_slice());
    Ok(())
}

#[test]
fn a_real_file_is_read_to_its_end(rt: HostRuntime) -> Result<(), Fail> {
    let name = format!(in rt.alloc(); "nfg-io-{}", process::id(rt.process()))?;
    let folder = env::temp_dir(&rt)?;
    let path = folder.join(rt.alloc(), name.as_str())?;
    fs::write(&rt, path.as_path(), b"a\xFF\0z".as_slice())?;
    let mut files = RealFiles::new(&rt);
    let mut bytes = [0u8; 16];
    let answer = read_all(&mut files, path.as_str(), &mut bytes);
    fs::remove_file(&rt, path.as_path())?;
    assert_eq!(rt; answer.map(|(count, _)| count), Ok(4));
    assert_eq!(rt; &bytes[..4], b"a\xFF\0z".as_slice());
    // a file that is gone, a folder, and a path that no file can have
    for path in [path.as_str(), folder.as_str(), "a\0b"] {
        assert_eq!(rt;
            read_all(&mut files, path, &mut bytes),
            Err(Failed),
            "{path}"
        );
    }
    Ok(())
}

#[test]
fn standard_output_takes_a_line(rt: HostRuntime) {
    let mut sink = RealSink::new(&rt);
    assert!(rt; write_all(&mut sink, b"E9 D+A 71\n").is_ok());
}
