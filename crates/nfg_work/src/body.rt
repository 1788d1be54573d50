//! What stands behind the byte order mark of a file.
ghost use Rattle.nfg_decode.specs.declared.encoding.Encoding.TheVariants.{Utf16};
ghost use Rattle.nfg_work.specs.Parts.{IsBody};

use nfg_decode::Encoding;

/// Where the text of a file begins, and how it is spelled from there on.
#[derive(Clone, Copy)]
pub(crate) struct Body {
    /// An encoding without a mark.
    pub(crate) encoding: Encoding,
    /// In bytes.
    pub(crate) start: usize,
}

/// The text behind the mark of UTF-16, which gives the order of the bytes. Without one the high byte comes first.
fn body_of_utf16(bytes: &[u8]) -> Body
    ensures { IsBody Utf16 bytes.now result.encoding result.start }
{
    if bytes.starts_with(&[0xFE, 0xFF]) {
        return Body {
            encoding: Encoding::Utf16Be,
            start: 2,
        };
    }
    if bytes.starts_with(&[0xFF, 0xFE]) {
        return Body {
            encoding: Encoding::Utf16Le,
            start: 2,
        };
    }
    Body {
        encoding: Encoding::Utf16Be,
        start: 0,
    }
}

/// The text behind the mark, where the encoding has one.
pub(crate) fn body_of(e: Encoding, bytes: &[u8]) -> Body
    ensures { IsBody e bytes.now result.encoding result.start }
{
    match e {
        Encoding::Utf16 => body_of_utf16(bytes),
        Encoding::Utf8 | Encoding::Utf16Le | Encoding::Utf16Be | Encoding::Latin1 => Body {
            encoding: e,
            start: 0,
        },
    }
}
