// What is printed: a line.
use bits::bits_of;
use quad::QuadMixer;
use std::fmt;
use std::fmt::Write;
use streams::Stdout;
use text::write_hex;

// A line: the figure's number, the mix, and its floats, each with the space before it as one piece.
#[derive(Clone, Copy)]
struct Line<'a> {
    figure: u64,
    mix: &'a str,
    floats: &'a [f32],
}

impl<'a> fmt::Display for Line<'a> {
    fn fmt<W: fmt::Write>(&self, f: &mut fmt::Formatter<W>) -> fmt::Result {
        write!(f, "{} {}", self.figure, self.mix)?;
        for x in self.floats {
            let mut word = [b' '; 9];
            write_hex(&mut word, 1, bits_of(*x));
            f.write_str(str::from_utf8(&word).unwrap_or(""))?;
        }
        Ok(())
    }
}

// Prints the figure's number, the mix, and what the readers say of the state after it.
pub(crate) fn print_state(figure: u64, mix: &str, after: QuadMixer) {
    let [m1, m2, m3, m4] = after.last_motors();
    print(figure, mix, &[m1, m2, m3, m4, after.last_torque_scale()]);
}

// Prints the figure's number, the mix, and its motors.
pub(crate) fn print(figure: u64, mix: &str, floats: &[f32]) {
    let line = Line {
        figure,
        mix,
        floats,
    };
    let _ = writeln!(Stdout, "{line}");
}
