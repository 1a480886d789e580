// What the case file shows of a ciphertext: all of it up to 256 bytes, of a longer one its first and last eight bytes and its checksum.
use case_file::filling::checksum;
use case_file::reading;
use std::io;
use std::io::Read;

pub fn is_shown(input: &mut impl Read, out: &[u8]) -> io::Result<bool> {
    if out.len() <= 256 {
        let mut room = [0u8; 256];
        let shown = &mut room[..out.len()];
        reading::string(input, shown)?;
        return Ok(out == &shown[..]);
    }
    let start = reading::bytes::<8, _>(input)?;
    let end = reading::bytes::<8, _>(input)?;
    let sum = reading::eight(input)?;
    Ok(out.starts_with(&start) && out.ends_with(&end) && checksum(out) == sum)
}
