// CRC-32 of IEEE 802.3: the check of a sector.
// Most bytes go through no table: the polynomial has a multiple with five terms, so a word of eight bytes that leaves the
// register is the same as a few copies of it, moved up, in the words that follow. Only the last 40 to 47 bytes go by tables.
ghost use Rattle.std.specs.Prelude.{◌≡◌, ℕ, ◌+◌, ◌*◌, ◌<◌, ◌≤◌, T, List, [], ◌∷◌, ◌++◌, length, codes};
ghost use Rattle.std.specs.List.{flat_map};
ghost use Rattle.sector.specs.Crc.{steps, register, crc32};
ghost use Rattle.sector.specs.Table.{tables_hold};
ghost use Rattle.sector.specs.Window.{value, Loads, Takes};

use crate::tables::TABLES;

// The register before the first byte, and what is added to it after the last.
const ALL_ONES: u32 = 0xFFFF_FFFF;

// The check of `bytes`.
pub fn crc32(bytes: &[u8]) -> u32
    ensures { result ≡ crc32 bytes.now }
{
    let register = if bytes.len() < 40 {
        update(ALL_ONES, bytes)
    } else {
        update_long(ALL_ONES, bytes)
    };
    register ^ ALL_ONES
}

// The check of the text "123456789", as catalogues of such checks print it: a fact of the definition.
#[tactic(auto, unfolding(crate::specs::Crc::step, crate::specs::Crc::steps, crate::specs::Crc::register))]
pub fn published_check() -> u32
    ensures value { result ≡ 0xCBF43926 }
    ensures check { result ≡ crc32 (codes "123456789") }
{
    0xCBF4_3926
}

// An entry of tables that pass their test as a whole.
fn look(tables: &[[u32; 256]; 8], t: usize, b: u8) -> u32
    requires { t < 8 }
    ensures { T (tables_hold 8 tables.now) → result ≡ steps (8 + 8 * t) b }
{
    tables[t][b as usize]
}

// The register `b` after its own eight bits and `8 * t` more have left it.
fn entry(t: usize, b: u8) -> u32
    requires { t < 8 }
    ensures { result ≡ steps (8 + 8 * t) b }
{
    look(&TABLES, t, b)
}

// The register after one byte.
fn take_byte(c: u32, b: u8) -> u32
    ensures { result ≡ register c (b ∷ []) }
{
    let z = c ^ b as u32;
    entry(0, (z % 256) as u8) ^ (z >> 8)
}

// The register after bytes, one by one.
// `take_bytes`, `update` and `update_long` are three ways to one result, each for another length; register and bytes are what a fold
// takes, and no plainer as a struct.
fn take_bytes(start: u32, bytes: &[u8]) -> u32
    ensures { result ≡ register start bytes.now }
{
    let mut c = start;
    for b in bytes {
        c = take_byte(c, *b);
    }
    c
}

// The register after at most eight bytes, begun at 0: what each of them adds stands in its own table.
fn shift<const N: usize>(bytes: &[u8; N]) -> u32
    requires { N ≤ 8 }
    ensures { result ≡ register 0 bytes.now }
{
    let mut c = 0;
    for (i, b) in bytes.iter().enumerate() {
        c ^= entry(N - 1 - i, *b);
    }
    c
}

// The register after four bytes.
fn take_four(c: u32, chunk: &[u8; 4]) -> u32
    ensures { result ≡ register c chunk.now }
{
    shift(&(c ^ u32::from_le_bytes(*chunk)).to_le_bytes())
}

// The register after bytes, four by four and then one by one.
fn update(start: u32, bytes: &[u8]) -> u32
    ensures { result ≡ register start bytes.now }
{
    let (fours, rest) = bytes.as_chunks::<4>();
    let mut c = start;
    for chunk in fours {
        c = take_four(c, chunk);
    }
    take_bytes(c, rest)
}

// A register of 320 bits, the lowest word first.
type Window = [u64; 5];

// Eight bytes as a word: to take the bytes in is to take the word in.
fn load(chunk: &[u8; 8]) -> u64
    ensures { Loads chunk.now result }
{
    u64::from_le_bytes(*chunk)
}

// The window after one word, which stands for the register after it if at least 38 bytes follow.
fn advance(s: &Window, word: u64) -> Window
    ensures { (chunk rest : List ℕ) → Loads chunk word → 38 ≤ length rest → register (value result) rest ≡ register (value s.now) (chunk ++ rest) }
{
    let [a, b, c, d, e] = *s;
    let x = a ^ word;
    [
        b,
        c ^ ((x << 17) ^ (x << 55)),
        d ^ ((x >> 47) ^ (x >> 9) ^ (x << 19)),
        e ^ ((x >> 45) ^ (x << 44)),
        x >> 20,
    ]
}

// The window after many words, which stands for the register after them if at least 38 bytes follow.
fn fold(start: Window, words: &[[u8; 8]]) -> Window
    ensures { (back : List ℕ) → 38 ≤ length back → register (value result) back ≡ register (value start) (flat_map (λ (w : List ℕ). w) words.now ++ back) }
{
    let mut s = start;
    for chunk in words {
        s = advance(&s, load(chunk));
    }
    s
}

// The register after eight bytes and a word of the window, where `c` is what the words below it have left.
// Beside `take_four`, which has no word of the window to add: one for both would be no plainer.
fn take_word(own: u64, c: u32, chunk: &[u8; 8]) -> u32
    ensures { Takes own c chunk.now result }
{
    shift(&(own ^ c as u64 ^ load(chunk)).to_le_bytes())
}

// The register after the window and the last bytes.
// The words stand one by one: a loop was tried, took 8 percent longer on 508 bytes, and so missed what is asked of the check
// (`bench/`), that zlib take at least twice as long.
fn finish(s: &Window, back: &[u8]) -> u32
    requires { 40 ≤ length back.now }
    ensures { result ≡ register (value s.now) back.now }
{
    let [a, b, c, d, e] = *s;
    let (words, _) = back.as_chunks::<8>();
    let r = take_word(a, 0, &words[0]);
    let r = take_word(b, r, &words[1]);
    let r = take_word(c, r, &words[2]);
    let r = take_word(d, r, &words[3]);
    let r = take_word(e, r, &words[4]);
    update(r, &back[40..])
}

// The register after 40 bytes or more.
fn update_long(start: u32, bytes: &[u8]) -> u32
    requires { 40 ≤ length bytes.now }
    ensures { result ≡ register start bytes.now }
{
    let (front, back) = bytes.split_at((bytes.len() - 40) / 8 * 8);
    let (words, _) = front.as_chunks::<8>();
    finish(&fold([start as u64, 0, 0, 0, 0], words), back)
}
