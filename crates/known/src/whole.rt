// A job run by a whole call.
use crate::trials::{BLANK, Given, Kind, Trial};

pub fn given(t: &Trial) -> Given {
    let (key, nonce, assoc) = (&t.case.key, &t.case.nonce, t.case.assoc.as_slice());
    let text = t.text.as_slice();
    let mut tag = [0u8; 16];
    let mut out = BLANK;
    let lent = &mut out[..text.len()];
    let answer = match t.kind {
        Kind::Sealing => isap::seal(t.instance, key, nonce, assoc, text, lent, &mut tag),
        Kind::Opening | Kind::Refusal => {
            tag = t.wanted.tag;
            isap::open(t.instance, key, nonce, assoc, text, &tag, lent)
        }
    };
    Given {
        number: answer.number,
        rounds: answer.rounds,
        tag,
        out,
        steady: true,
    }
}
