//! Where the whole ticks of an input end.

/// How many bytes the front of an input has that ends behind its last commit line, or behind its end line if there is no commit line.
/// Without an end line there are none. The input has no end line and no commit line in another spelling.
pub fn whole_ticks(input: &[u8]) -> usize {
    let mut whole = 0;
    let mut line = 0;
    for at in 0..input.len() {
        if input[at] == b'\n' {
            let bytes = input.get(line..at).unwrap_or(b"");
            line = at + 1;
            if ends_a_tick(bytes, whole > 0) {
                whole = at + 1;
            }
        }
    }
    whole
}

fn ends_a_tick(line: &[u8], behind_the_text: bool) -> bool {
    if behind_the_text {
        line == b"{\"commit\":true}".as_slice()
    } else {
        line == b"---".as_slice()
    }
}
