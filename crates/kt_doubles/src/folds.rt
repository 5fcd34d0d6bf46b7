use kt_examples::ExampleOutput;

/// One more than the maximum length, in lines, of a block whose copies are folded into one block.
const BLOCK_LINES_END: usize = 12;

/// Returns the number of consecutive copies of the block of `length` lines at index `at` of
/// `lines`.
fn count_copies(lines: &[&str], at: usize, length: usize) -> usize {
    let (_, rest) = lines.split_at(at.min(lines.len()));
    let (first, _) = rest.split_at(length.min(rest.len()));
    rest.chunks(length.max(1))
        .take_while(|block| *block == first)
        .count()
}

/// Returns the length in lines of the shortest block at index `at` of `lines` that repeats, and the
/// number of its copies. A single line must occur at least twice, a longer block three times.
/// Without such a block, the result is 1 line and 1 copy.
fn find_block(lines: &[&str], at: usize) -> (usize, usize) {
    for length in 1..BLOCK_LINES_END {
        let times = count_copies(lines, at, length);
        if times > 2 || (length == 1 && times == 2) {
            return (length, times);
        }
    }
    (1, 1)
}

/// Appends the lines of `block`, in parentheses if there are several. If `times`, the number of
/// copies of the block, is above 1, then appends it, as ` x3`.
fn push_block(out: &mut ExampleOutput, block: &[&str], times: usize) {
    let mut separator = if block.len() > 1 { "(" } else { "" };
    for line in block {
        write!(out, "{separator}{line}");
        separator = ", ";
    }
    out.push(if block.len() > 1 { ")" } else { "" });
    if times > 1 {
        write!(out, " x{times}");
    }
}

/// Appends `lines` with commas between them, and consecutive copies of a block only once: `poll 0
/// x100`, or `(poll 0, pause) x99`.
pub fn push_folded_lines(out: &mut ExampleOutput, lines: &[&str]) {
    let mut at: usize = 0;
    for _ in 0..lines.len() {
        if at >= lines.len() {
            break;
        }
        let (length, times) = find_block(lines, at);
        if at > 0 {
            out.push(", ");
        }
        let end = at.saturating_add(length).min(lines.len());
        push_block(out, &lines[at..end], times);
        at = at.saturating_add(length.saturating_mul(times));
    }
}
