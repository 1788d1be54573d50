//! Why a script has no output over a table that others share.
use nfg_text::CodeList;

/// Why a script has no output over a table that others share.
#[derive(Drop)]
pub enum SharedError {
    /// Every place of the table holds another text than this one, which the script would bring into it.
    RowFull { codes: CodeList },
    /// The table has no room left for code points.
    NoPortion,
    /// Want of memory.
    OutOfMemory,
}
