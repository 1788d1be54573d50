//! What encoding and decoding are to each other. Each function does nothing: its `ensures` is a law.

ghost use Rattle.std.specs.Prelude.{◌≡◌, ◌≢◌, ℕ, List, Ok};
ghost use Rattle.nfg_text.specs.Text.{IsText};
ghost use Rattle.nfg_decode.specs.declared.encoding.Encoding.{Encoding};
ghost use Rattle.nfg_decode.specs.declared.encoding.Encoding.TheVariants.{Utf16};
ghost use Rattle.nfg_decode.specs.Encoding.{decode, encode, AreBytes};

/// The bytes of a text decode to that text.
pub fn encoded_text_decodes()
    ensures { (e : Encoding) (t : List ℕ) → IsText t → decode e (encode e t) ≡ Ok t }
{}

/// No other bytes do, but in UTF-16, where the mark may be left out and either order may be taken.
pub fn one_encoding()
    ensures { (e : Encoding) (bytes t : List ℕ) → e ≢ Utf16 → AreBytes bytes
        → decode e bytes ≡ Ok t → bytes ≡ encode e t }
{}
