// A job run in slices, and whether each did its budget or the rounds left and answered accordingly.
use crate::trials::{BLANK, Given, Kind, Trial};
use isap::{Job, UNDER_WAY};

// A job on its way through slices: what it has given so far, and the next slice's budget.
#[derive(Clone, Copy)]
struct Course {
    job: Job,
    budget: u32,
    given: Given,
}

fn begun(t: &Trial) -> Job {
    let case = t.case;
    let a = case.assoc.len() as u32;
    let m = t.text.len() as u32;
    match t.kind {
        Kind::Sealing => isap::begin_seal(t.instance, &case.key, &case.nonce, a, m).job,
        Kind::Opening | Kind::Refusal => {
            isap::begin_open(t.instance, &case.key, &case.nonce, &t.wanted.tag, a, m).job
        }
    }
}

// Budgets from 0 to 28, each once in 29 slices. The longest call has 20 rounds: slices end within calls, and run on past them.
fn budget_after(budget: u32) -> u32 {
    (budget % 29 + 5) % 29
}

// The number that a slice must answer.
fn number_after(t: &Trial, rounds: u32) -> u32 {
    if rounds == t.wanted.rounds {
        return t.wanted.number;
    }
    UNDER_WAY
}

fn step(t: &Trial, c: Course) -> Course {
    let mut out = c.given.out;
    let end = t.text.len();
    let done = isap::slice(
        c.job,
        t.case.assoc.as_slice(),
        t.text.as_slice(),
        &mut out[..end],
        c.budget,
    );
    let wanted = c.budget.min(t.wanted.rounds.wrapping_sub(c.given.rounds));
    let rounds = c.given.rounds.wrapping_add(done.rounds);
    let steady = done.rounds == wanted && done.number == number_after(t, rounds);
    let given = Given {
        number: done.number,
        rounds,
        tag: done.job.tag,
        out,
        steady: c.given.steady && steady,
    };
    Course {
        job: done.job,
        budget: budget_after(c.budget),
        given,
    }
}

// A job taken to its end. 29 slices do 406 rounds, and no text of a known answer needs more than 3,288: 40 times 29 slices are enough.
pub fn given(t: &Trial) -> Given {
    let job = begun(t);
    let tag = job.tag;
    let given = Given {
        number: UNDER_WAY,
        rounds: 0,
        tag,
        out: BLANK,
        steady: true,
    };
    let mut c = Course {
        job,
        budget: t.case.count % 29,
        given,
    };
    for _ in 0..1160 {
        if c.given.number != UNDER_WAY {
            break;
        }
        c = step(t, c);
    }
    c.given
}
