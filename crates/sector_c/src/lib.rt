// The check of sectors for callers that link it from another language, as the benchmark does.
#![tactic(auto)]

ghost use Rattle.std.specs.Prelude.{◌≡◌};
ghost use Rattle.sector.specs.Crc.{crc32};

use sector::crc::crc32;

// The check of `bytes`.
#[unsafe(no_mangle)]
pub extern "C" fn sector_crc32(bytes: &[u8]) -> u32
    ensures { result ≡ crc32 bytes.now }
{
    crc32(bytes)
}
