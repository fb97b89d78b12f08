// The check word that ends a datagram.
ghost use Rattle.std.specs.Prelude.{◌≡◌, ◌≤◌, length};
ghost use Rattle.datagram.specs.Layout.{check_word};

// The sum of (i + 1) × byte i, modulo 65,536.
pub(crate) fn check_word(bytes: &[u8]) -> u16
    requires { length bytes.now ≤ 83 }
    ensures { result ≡ check_word bytes.now }
{
    let mut sum = 0u32;
    for (i, byte) in bytes.iter().enumerate() {
        sum = sum.wrapping_add((i as u32 + 1) * u32::from(*byte));
    }
    (sum % 65_536) as u16
}
