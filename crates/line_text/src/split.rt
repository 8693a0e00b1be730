//! Texts split in two at a byte.
ghost use Rattle.std.specs.Prelude.{◌≡◌, ◌≢◌, ◌∷◌, ◌++◌, IfSome, IfNone, All};

/// What stands before the first such byte, and what stands after it; `None` where there is none.
pub fn split_once(text: &[u8], separator: u8) -> Option<(&[u8], &[u8])>
    ensures parts { IfSome result
        (λ parts. text.now ≡ parts.0.now ++ separator ∷ parts.1.now) }
    ensures first { IfSome result (λ parts. All (λ byte. byte ≢ separator) parts.0.now) }
    ensures none { IfNone result (All (λ byte. byte ≢ separator) text.now) }
{
    let index = text.iter().position(|byte| *byte == separator)?;
    Some((&text[..index], &text[index + 1..]))
}
