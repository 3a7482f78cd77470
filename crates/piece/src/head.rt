// The ten bytes at the front of a piece.
ghost use Rattle.std.specs.Prelude.{◌≡◌, ◌+◌, ◌<◌, ◌≤◌, length, take, drop};
ghost use Rattle.piece.specs.Bits.{octets};
ghost use Rattle.piece.specs.Pieces.{Lawful, header};

use crate::{Header, Settings};

// The header's bytes.
fn head(code: u8, h: &Header) -> [u8; 10]
    requires code { code < 4 }
    requires lawful { Lawful h.now.settings }
    requires least { 1 ≤ h.now.number }
    requires most { h.now.number ≤ 32 }
    requires short { h.now.length ≤ 4096 }
    ensures { result ≡ octets (header code h.now.settings h.now.number h.now.length h.now.job h.now.stamp) }
{
    let Settings { rows, m, n } = h.settings;
    let i = h.number - 1;
    let [j0, j1] = h.job.to_be_bytes();
    let [s0, s1, s2, s3] = h.stamp.to_be_bytes();
    // as, where it is proved to lose nothing: try_from with unwrap says no more.
    [
        code * 64 + rows * 16 + (m - 1),
        (n - 1) * 8 + i / 4,
        i % 4 * 64 + (h.length / 256) as u8,
        (h.length % 256) as u8,
        j0,
        j1,
        s0,
        s1,
        s2,
        s3,
    ]
}

// Writes the header to the front of a buffer.
pub fn write_header(out: &mut [u8], code: u8, h: &Header)
    requires room { 10 ≤ length out.old }
    requires code { code < 4 }
    requires lawful { Lawful h.now.settings }
    requires least { 1 ≤ h.now.number }
    requires most { h.now.number ≤ 32 }
    requires short { h.now.length ≤ 4096 }
    ensures front { take 10 out.new ≡ octets (header code h.now.settings h.now.number h.now.length h.now.job h.now.stamp) }
    ensures rest { drop 10 out.new ≡ drop 10 out.old }
{
    out[0..10].copy_from_slice(&head(code, h));
}
