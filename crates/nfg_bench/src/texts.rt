//! The texts that are timed: sentences of several scripts, again and again up to a size.
ghost use Rattle.std.specs.Prelude.{◌≡◌, ◌≤◌, ◌*◌, ◌/◌, length, max, replicate, IfOk};
ghost use Rattle.std.specs.List.{concat};

use std::alloc::{AllocError, Global};

/// The bytes of a piece.
pub const PIECE: usize = 64 * 1024;

/// The bytes of a short text and of a long one.
pub const SHORT: usize = 1024 * 1024;

pub const LONG: usize = 16 * SHORT;

/// At most so many bytes are fed to a stream.
pub const MOST: usize = 1 << 32;

/// ASCII.
pub const ASCII: &str = "\
The ferry left at seven, as it does each morning.\nNobody on the pier had seen the lamp go out; \
\"It was the wind,\" they said, and went home for bread and tea.\n";

/// French, composed.
pub const FRENCH: &str = "\
Les élèves étaient déjà là, près de la fenêtre, à l'heure où la forêt s'éveille.\n« Où êtes-vous \
allés ? » demanda la maîtresse ; personne n'osa répondre.\n";

/// The same, decomposed.
pub const FRENCH_DECOMPOSED: &str = "\
Les e\u{301}le\u{300}ves e\u{301}taient de\u{301}ja\u{300} la\u{300}, pre\u{300}s de la fene\
\u{302}tre, a\u{300} l'heure ou\u{300} la fore\u{302}t s'e\u{301}veille.\n\u{AB} Ou\u{300} e\
\u{302}tes-vous alle\u{301}s ? \u{BB} demanda la mai\u{302}tresse ; personne n'osa re\u{301}pond\
re.\n";

/// Korean by syllables.
pub const HANGUL: &str = "\
아침마다 배는 일곱 시에 떠난다.\n등대의 불이 꺼진 것을 본 사람은 아무도 없었고, 모두 바람 때문이\
라고 말하며 집으로 돌아갔다.\n";

/// The same by jamo.
pub const JAMO: &str = "\
\u{110B}\u{1161}\u{110E}\u{1175}\u{11B7}\u{1106}\u{1161}\u{1103}\u{1161} \u{1107}\u{1162}\
\u{1102}\u{1173}\u{11AB} \u{110B}\u{1175}\u{11AF}\u{1100}\u{1169}\u{11B8} \u{1109}\u{1175}\
\u{110B}\u{1166} \u{1104}\u{1165}\u{1102}\u{1161}\u{11AB}\u{1103}\u{1161}.\n\u{1103}\u{1173}\
\u{11BC}\u{1103}\u{1162}\u{110B}\u{1174} \u{1107}\u{116E}\u{11AF}\u{110B}\u{1175} \u{1101}\
\u{1165}\u{110C}\u{1175}\u{11AB} \u{1100}\u{1165}\u{11BA}\u{110B}\u{1173}\u{11AF} \u{1107}\
\u{1169}\u{11AB} \u{1109}\u{1161}\u{1105}\u{1161}\u{11B7}\u{110B}\u{1173}\u{11AB} \u{110B}\
\u{1161}\u{1106}\u{116E}\u{1103}\u{1169} \u{110B}\u{1165}\u{11B9}\u{110B}\u{1165}\u{11BB}\
\u{1100}\u{1169}, \u{1106}\u{1169}\u{1103}\u{116E} \u{1107}\u{1161}\u{1105}\u{1161}\u{11B7} \
\u{1104}\u{1162}\u{1106}\u{116E}\u{11AB}\u{110B}\u{1175}\u{1105}\u{1161}\u{1100}\u{1169} \
\u{1106}\u{1161}\u{11AF}\u{1112}\u{1161}\u{1106}\u{1167} \u{110C}\u{1175}\u{11B8}\u{110B}\
\u{1173}\u{1105}\u{1169} \u{1103}\u{1169}\u{11AF}\u{110B}\u{1161}\u{1100}\u{1161}\u{11BB}\
\u{1103}\u{1161}.\n";

/// Chinese.
pub const CHINESE: &str = "\
渡船每天早上七点离开码头。\n没有人看见灯塔的灯是什么时候熄灭的，大家都说：“是风吹的。”然后回家喝\
茶去了。\n";

/// Hindi.
pub const DEVANAGARI: &str = "\
नाव हर सुबह सात बजे घाट छोड़ती है।\nकिसी ने नहीं देखा कि प्रकाशस्तंभ की बत्ती कब बुझी; सबने कहा कि य\
ह हवा का काम था, और वे घर लौट गए।\n";

/// Emoji sequences among words.
pub const EMOJI: &str = "\
\u{1F44D}\u{1F3FD} ok, see you at 7! \u{1F468}\u{200D}\u{1F469}\u{200D}\u{1F467}\u{200D}\
\u{1F466} \u{1F3F3}\u{FE0F}\u{200D}\u{1F308}\n\u{1F1EB}\u{1F1F7} \u{1F1EF}\u{1F1F5} \u{2764}\
\u{FE0F} 1\u{FE0F}\u{20E3} \u{1F469}\u{1F3FE}\u{200D}\u{1F680} \u{1F600} great \u{1F389}\
\u{1F389} \u{1F937}\u{1F3FB}\u{200D}\u{2640}\u{FE0F}\n";

/// How many bytes as many whole samples have as the size has room for.
pub fn whole_len(sample: &[u8], size: usize) -> usize
    ensures whole { result ≡ size / max (length sample.now) 1 * max (length sample.now) 1 }
    ensures within { result ≤ size }
{
    size - size % sample.len().max(1)
}

/// The sample again and again, as many whole ones as the size has room for.
pub fn repeated(alloc: Global, sample: &[u8], size: usize) -> Result<Vec<u8>, AllocError>
    ensures samples { IfOk result (λ bytes. bytes.items
        ≡ concat (replicate (size / max (length sample.now) 1) sample.now)) }
    ensures within { IfOk result (λ bytes. length bytes.items ≤ size) }
{
    let mut bytes = Vec::new(alloc);
    bytes.reserve(size)?;
    for _k in 0..size / sample.len().max(1) {
        bytes.extend_from_slice(sample)?;
    }
    Ok(bytes)
}

/// All texts one after another, again and again, as many whole ones as the size has room for.
pub fn mixed(alloc: Global, size: usize) -> Result<Vec<u8>, AllocError>
    ensures { IfOk result (λ bytes. length bytes.items ≤ size) }
{
    let samples = [
        ASCII,
        FRENCH,
        FRENCH_DECOMPOSED,
        HANGUL,
        JAMO,
        CHINESE,
        DEVANAGARI,
        EMOJI,
    ];
    let mut sample = Vec::new(alloc);
    for text in samples {
        sample.extend_from_slice(text.as_bytes())?;
    }
    repeated(alloc, sample.as_slice(), size)
}

/// Which byte of a unit comes first.
#[derive(Clone, Copy)]
pub enum ByteOrder {
    Little,
    Big,
}

/// The sample in UTF-16, without a mark.
pub fn utf16(alloc: Global, sample: &str, order: ByteOrder) -> Result<Vec<u8>, AllocError> {
    let mut bytes = Vec::new(alloc);
    for unit in sample.encode_utf16() {
        let pair = match order {
            ByteOrder::Little => unit.to_le_bytes(),
            ByteOrder::Big => unit.to_be_bytes(),
        };
        bytes.extend_from_slice(&pair)?;
    }
    Ok(bytes)
}
