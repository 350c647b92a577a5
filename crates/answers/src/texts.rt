//! Bytes as texts.

ghost use Rattle.std.specs.Prelude.{◌≡◌, IfOk, IfErr, IsUtf8, MatchOption};
ghost use Rattle.bits.specs.declared.refusal.Refusal.TheVariants.{Script};

use bits::{R, Refusal};
use simdutf8::basic::from_utf8;

/// The text that bytes are; none where they are not UTF-8.
pub fn as_text(bytes: &[u8]) -> Option<&str>
    ensures text { MatchOption result (IsUtf8 bytes.now → ⊥) (λ text. (text.now ≡ bytes.now) × IsUtf8 bytes.now) }
{
    match from_utf8(bytes) {
        Ok(text) => Some(text),
        Err(_) => None,
    }
}

/// The text that bytes are. Refused Script where they are not UTF-8.
pub fn text_of(bytes: &[u8]) -> R<&str>
    ensures text { IfOk result (λ text. (text.now ≡ bytes.now) × IsUtf8 bytes.now) }
    ensures no_text { IfErr result (λ e. (e ≡ Script) × (IsUtf8 bytes.now → ⊥)) }
{
    match from_utf8(bytes) {
        Ok(text) => Ok(text),
        Err(_) => Err(Refusal::Script),
    }
}
