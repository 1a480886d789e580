// A case of a file of known answers: its lines Count, Key, Nonce, PT, AD and CT, and an empty line.
ghost use Rattle.std.specs.Prelude.{◌≡◌, IfOk, IfSome};
ghost use Rattle.arrayvec.specs.ArrayVec.{array_vec_len};

use crate::{lines, saying};
use arrayvec::ArrayVec;
use std::io;
use std::io::{Read, Write};

// No string of the files is longer, but for a ciphertext with its tag.
pub type Text = ArrayVec<u8, 32>;

#[derive(Drop)]
pub struct Case {
    pub count: u32,
    pub key: [u8; 16],
    pub nonce: [u8; 16],
    pub assoc: Text,
    pub text: Text,
    pub sealed: Sealed,
    ghost as_long: { array_vec_len sealed.text ≡ array_vec_len text },
}

// What a CT line holds: the ciphertext and the tag.
#[derive(Drop)]
pub struct Sealed {
    pub text: Text,
    pub tag: [u8; 16],
}

// What a line of sixteen bytes holds.
fn read_sixteen(input: &mut impl Read, name: &[u8]) -> io::Result<Option<[u8; 16]>> {
    let bytes = lines::read_hex(input, name)?;
    Ok(bytes.and_then(|b| b.into_inner().ok()))
}

// The parts of what a CT line holds, if the ciphertext is as long as the text.
fn parted(both: &[u8], text: &Text) -> Option<Sealed>
    ensures { IfSome result (λ s. array_vec_len s.text ≡ array_vec_len text.now) }
{
    let (sealed, tag) = both.split_last_chunk()?;
    if sealed.len() != text.len() {
        return None;
    }
    let text = Text::try_from(sealed).ok()?;
    Some(Sealed { text, tag: *tag })
}

// What the CT line of a text holds. Without a text there is no right one.
fn read_sealed(input: &mut impl Read, text: &Option<Text>) -> io::Result<Option<Sealed>>
    ensures { IfOk result (λ read. IfSome read (λ s. IfSome text.now (λ t. array_vec_len s.text ≡ array_vec_len t))) }
{
    let both = lines::read_hex::<48>(input, b"CT = ")?;
    let (Some(text), Some(both)) = (text, &both) else {
        return Ok(None);
    };
    Ok(parted(both.as_slice(), text))
}

// Reads the lines that follow a case's heading, and names those that are not as they should be.
pub fn read_case(
    input: &mut impl Read,
    to: &mut impl Write,
    count: u32,
) -> io::Result<Option<Case>> {
    let key = read_sixteen(input, b"Key = ")?;
    saying::line(to, count, "Key", key.is_some())?;
    let nonce = read_sixteen(input, b"Nonce = ")?;
    saying::line(to, count, "Nonce", nonce.is_some())?;
    let text = lines::read_hex(input, b"PT = ")?;
    let assoc = lines::read_hex(input, b"AD = ")?;
    saying::line(to, count, "PT", text.is_some())?;
    saying::line(to, count, "AD", assoc.is_some())?;
    let sealed = read_sealed(input, &text)?;
    saying::line(to, count, "CT", sealed.is_some())?;
    let end = lines::read_empty_line(input)?;
    saying::line(to, count, "behind CT", end)?;
    let (Some(key), Some(nonce), Some(text), Some(assoc), Some(sealed), true) = (
        key, nonce, text, assoc, sealed, end,
    ) else {
        return Ok(None);
    };
    Ok(Some(Case {
        count,
        key,
        nonce,
        assoc,
        text,
        sealed,
    }))
}
