//! A seed in hexadecimal digits.
ghost use Rattle.std.specs.Prelude.{◌≡◌, ◌↔◌, Ok, length, IsSome, IfSome};
ghost use Rattle.std.specs.List.{AllPass};
ghost use Rattle.hex.specs.Hex.{decode_of, is_hex_digit};

use hex::FromHex;

/// The bytes of a seed that is written in 64 hexadecimal digits; `None` of any other text.
pub fn read_seed(text: &str) -> Option<[u8; 32]>
    ensures value { IfSome result (λ seed. decode_of text.now ≡ Ok seed) }
    ensures found { IsSome result ↔ ((length text.now ≡ 64) × AllPass is_hex_digit text.now) }
{
    <[u8; 32] as FromHex>::from_hex(text).ok()
}
