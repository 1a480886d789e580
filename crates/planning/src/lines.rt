// The line that answers a request, put together in a buffer: `write!` may fail, and `put_line` promises the line of each request. Places in
// the buffer are numbers, since `Put` and its laws (specs) speak of strings put at such places.
ghost use Rattle.std.specs.Prelude.{◌≡◌, ◌+◌, ◌≤◌, ◌<◌, get_or, length, take};
ghost use Rattle.console.specs.Counts.{IsPrefixLen};
ghost use Rattle.planning.specs.Lines.{ended, Put, rest, line, pair as Pair, answer};

use plan::Planned;

// A string put at a place, and the place behind it.
fn put_text(out: &mut [u8], at: usize, text: &[u8]) -> usize
    requires { at + length text.now ≤ length out.old }
    ensures { Put at text.now (length text.now) out.old out.new result }
{
    let end = at + text.len();
    out[at..end].copy_from_slice(text);
    end
}

// A number in decimal digits, and one character more.
fn put_ended(out: &mut [u8], at: usize, n: u32, by: u8) -> usize
    requires { (n < 10000000) × (at + 8 ≤ length out.old) }
    ensures { Put at (ended n by) 8 out.old out.new result }
{
    let mut digits = itoa::Buffer::new();
    let end = put_text(out, at, digits.format(n).as_bytes());
    put_text(out, end, &[by])
}

// The rounds, or the refusal.
fn put_rest(out: &mut [u8], at: usize, r: Planned) -> usize
    requires { (r.number < 10000000) × (r.verify < 10000000) × (r.total < 10000000) × (at + 16 ≤ length out.old) }
    ensures { Put at (rest r) 16 out.old out.new result }
{
    if r.number == 0 {
        let next = put_ended(out, at, r.verify, b' ');
        return put_ended(out, next, r.total, b'\n');
    }
    let next = put_text(out, at, b"refused ");
    put_ended(out, next, r.number, b'\n')
}

// The line for an instance and two lengths.
fn put_plan(out: &mut [u8], instance: u8, a: u16, m: u16) -> usize
    requires { 40 ≤ length out.old }
    ensures { Put 0 (line instance a m) 40 out.old out.new result }
{
    let i = u32::from(instance);
    let a = u32::from(a);
    let m = u32::from(m);
    let second = put_ended(out, 0, i, b' ');
    let third = put_ended(out, second, a, b' ');
    let fourth = put_ended(out, third, m, b' ');
    put_rest(out, fourth, plan::plan(i, a, m))
}

// Two bytes as a number, the first most significant.
fn pair(bytes: [u8; 2]) -> u16
    ensures { result ≡ Pair (get_or bytes 0 0) (get_or bytes 1 0) }
{
    u16::from_be_bytes(bytes)
}

// The line for a request's five bytes, at the start of a buffer, and its length.
pub fn put_line(request: [u8; 5], out: &mut [u8; 40]) -> usize
    ensures prefix_len { IsPrefixLen result out.new }
    ensures out_after { take result out.new ≡ answer request }
{
    let [instance, a0, a1, m0, m1] = request;
    put_plan(out, instance, pair([a0, a1]), pair([m0, m1]))
}
