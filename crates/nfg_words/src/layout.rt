//! Where the words of a table lie, and what a bucket word and a code word say.
ghost use Rattle.std.specs.Prelude.{◌≡◌, ◌+◌, ◌*◌, ◌%◌, ◌<◌, ◌≤◌};
ghost use Rattle.nfg_words.specs.Layout as layout;
ghost use Rattle.nfg_words.specs.ProbeTable as table;

/// How many chunks a table of `n` buckets has.
pub fn chunk_count(n: usize) -> usize
    requires { n ≤ 1048576 }
    ensures { result ≡ layout.chunk_count n }
{
    n / 64 + 64
}

/// The index of the word of the chunk `p`, counted from 0.
pub fn chunk_word(n: usize, p: usize) -> usize
    requires size { n ≤ 1048576 }
    requires chunk { p < layout.chunk_count n }
    ensures { result ≡ layout.chunk_word n p }
{
    n + p
}

/// The index of the word of the code word `c`, counted from 0 over all chunks.
pub fn code_word(n: usize, c: usize) -> usize
    requires size { n ≤ 1048576 }
    requires code { c < 512 * layout.chunk_count n }
    ensures { result ≡ layout.code_word n c }
{
    n + chunk_count(n) + c
}

/// How many words a table of `n` buckets has.
pub fn word_count(n: usize) -> usize
    requires { n ≤ 1048576 }
    ensures { result ≡ layout.word_count n }
{
    n + chunk_count(n) + 512 * chunk_count(n)
}

/// The bucket word of a text of `length` code points that begins at the code word `start`.
pub fn bucket_word(start: usize, length: usize) -> u64
    requires start { start < 16777216 }
    requires length { length ≤ 1024 }
    ensures { result ≡ layout.bucket_word start length }
{
    start as u64 * 65536 + length as u64
}

/// The first code word that a bucket word names.
pub fn start_of(word: u64) -> usize
    ensures { result ≡ layout.start_of word }
{
    (word / 65536) as usize
}

/// How many code points a bucket word names.
pub fn length_of(word: u64) -> usize
    ensures { result ≡ layout.length_of word }
{
    (word % 65536) as usize
}

/// The code word after the last one that a bucket word names.
pub fn stop_of(word: u64) -> usize
    ensures { result ≡ layout.stop_of word }
{
    start_of(word) + (length_of(word) + 1) / 2
}

/// The code word of two code points, the second of which is 0 where there is none.
pub fn code_pair(first: u32, second: u32) -> u64
    ensures { result ≡ layout.code_pair first second }
{
    second as u64 * 4294967296 + first as u64
}

/// The first code point of a code word.
pub fn first_code(word: u64) -> u32
    ensures { result ≡ layout.first_code word }
{
    (word % 4294967296) as u32
}

/// The second code point of a code word, or 0 where there is none.
pub fn second_code(word: u64) -> u32
    ensures { result ≡ layout.second_code word }
{
    (word / 4294967296) as u32
}

// A hash after one more code point.
fn hash_with(hash: u32, code: u32) -> u32
    ensures { result ≡ table.next_hash hash code }
{
    ((hash as u64 * 31 + code as u64) % 4294967296) as u32
}

/// The hash of a text, from which its probe sequence begins.
#[tactic(auto, unfolding(crate::specs::ProbeTable::probe_hash))]
pub fn probe_hash(codes: &[u32]) -> u32
    ensures { result ≡ table.probe_hash codes.now }
{
    let mut hash = 0;
    for code in codes {
        hash = hash_with(hash, *code);
    }
    hash
}

/// The first place of the probe sequence of a text in a table of `n` places, or 0 where there are none.
pub fn home_place(codes: &[u32], n: usize) -> usize
    requires { n ≤ 1048576 }
    ensures { 0 < n → result ≡ table.probe_hash codes.now % n }
{
    if n == 0 {
        return 0;
    }
    // in 32 bits, where a division takes less time
    (probe_hash(codes) % n as u32) as usize
}

/// The place at an index of the probe sequence of the text `codes`, of which `home` is the first place. Nothing is divided,
/// since a search comes by here at each place.
#[tactic(auto, unfolding(crate::specs::ProbeTable::probe_sequence))]
pub fn probed_place(codes: &[u32], home: usize, n: usize, index: usize) -> usize
    requires home { home ≡ table.probe_hash codes.now % n }
    requires index { index < n }
    requires limit { n ≤ 1048576 }
    ensures place { result ≡ table.probe_sequence n codes.now index }
    ensures within { result < n }
{
    let _ = codes;
    let place = home + index;
    if place < n { place } else { place - n }
}
