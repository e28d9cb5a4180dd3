// The words of an answer: numbers, 1 and 0 for yes and no, `-` for nothing, each behind a space.
pub fn number(v: u64) {
    io::write_all(1, &[b' ']);
    io::print_decimal(1, v);
}

pub fn truth(b: bool) {
    number(u64::from(b));
}

pub fn nothing() {
    io::write_all(1, &[b' ', b'-']);
}

// A number where there is one, else `-`.
pub fn perhaps(o: Option<u64>) {
    match o {
        Some(v) => number(v),
        None => nothing(),
    }
}

// A place, `-` for none.
pub fn place(f: Option<usize>) {
    perhaps(f.map(|i| i as u64));
}

pub fn end_line() {
    io::write_all(1, &[b'\n']);
}
