// What the program prints of a line that it cannot use.
use std::io;
use std::io::Write;

// Names a line of the file that is not as it should be.
pub fn line(to: &mut impl Write, count: u32, name: &str, right: bool) -> io::Result<()> {
    if right {
        return Ok(());
    }
    writeln!(to, "Count {count}: line {name} is not as it should be")
}
