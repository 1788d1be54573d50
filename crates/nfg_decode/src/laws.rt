//! Laws of decoding. Each function does nothing: its `ensures` is the law.

ghost use Rattle.std.specs.Prelude.{◌≡◌, ◌↔◌, ℕ, List, ◌++◌, drop, Ok, IsSome};
ghost use Rattle.std.specs.Str.Lossy.{utf8_valid_len, utf8_error_len};
ghost use Rattle.nfg_text.specs.Text.{IsText};
ghost use Rattle.nfg_decode.specs.declared.encoding.Encoding.{Encoding};
ghost use Rattle.nfg_decode.specs.declared.encoding.Encoding.TheVariants.{Utf8};
ghost use Rattle.nfg_decode.specs.Encoding.{decode, decoded_prefix, AreBytes, IsAlreadyMalformed};

/// UTF-8 is malformed whatever follows exactly where std's error length says so: behind the longest
/// well-formed front stand bytes that begin no sequence of Table 3-7.
pub fn utf8_is_already_malformed()
    ensures { (bytes : List ℕ) (at : ℕ) → (IsAlreadyMalformed Utf8 bytes at
        ↔ ((utf8_valid_len bytes ≡ at) × IsSome (utf8_error_len (drop at bytes)))) }
{}

/// What is malformed whatever follows is so at one place.
pub fn already_malformed_at_one_place()
    ensures { (e : Encoding) (bytes : List ℕ) (at other : ℕ) → IsAlreadyMalformed e bytes at
        → IsAlreadyMalformed e bytes other → at ≡ other }
{}

/// And it stays so behind more bytes.
pub fn already_malformed_stays()
    ensures { (e : Encoding) (bytes more : List ℕ) (at : ℕ) → AreBytes more
        → IsAlreadyMalformed e bytes at → IsAlreadyMalformed e (bytes ++ more) at }
{}

/// The decoded prefix of bytes that are a text is that text.
pub fn decoded_prefix_of_a_text()
    ensures { (e : Encoding) (bytes t : List ℕ) → decode e bytes ≡ Ok t
        → decoded_prefix e bytes ≡ t }
{}

/// What bytes decode to is a list of scalar values.
pub fn decoded_codes_are_a_text()
    ensures { (e : Encoding) (bytes : List ℕ) → AreBytes bytes
        → IsText (decoded_prefix e bytes) }
{}
