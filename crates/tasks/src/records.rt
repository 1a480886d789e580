// The checksum of a record: of its 212 bytes, which crates/compare reads from a case file in the same order.
ghost use Rattle.std.specs.Prelude.{◌+◌, ◌*◌, ◌≤◌, length};

use case_file::filling::checksum;
use isap::Job;

fn put(record: &mut [u8; 212], at: usize, bytes: &[u8])
    requires { at + length bytes.now ≤ 212 }
{
    record[at..at + bytes.len()].copy_from_slice(bytes);
}

// The most significant byte of each first.
fn put_numbers(record: &mut [u8; 212], at: usize, numbers: &[u32])
    requires { at + 4 * length numbers.now ≤ 212 }
{
    for (i, number) in numbers.iter().enumerate() {
        put(record, at + 4 * i, &number.to_be_bytes());
    }
}

// Four numbers, key, nonce and tag, five numbers, state and session.
fn bytes_of(job: Job) -> [u8; 212] {
    let place = job.place;
    let mut record = [0u8; 212];
    put_numbers(
        &mut record,
        0,
        &[job.instance, job.direction, job.assoc, job.text],
    );
    put(&mut record, 16, &job.key);
    put(&mut record, 32, &job.nonce);
    put(&mut record, 48, &job.tag);
    put_numbers(
        &mut record,
        64,
        &[job.done, place.part, place.call, place.round, job.ending],
    );
    put(&mut record, 84, &job.state);
    put(&mut record, 148, &job.session);
    record
}

pub fn sum(job: Job) -> u64 {
    checksum(&bytes_of(job))
}
